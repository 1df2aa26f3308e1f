// How many vectors passed and failed.
ghost use Rattle.std.specs.Prelude.{◌≡◌, ◌++◌, codes, Some};
ghost use Rattle.std.specs.Fmt.{decimal};
ghost use Rattle.octets.specs.Octets.{same};
ghost use Rattle.published.specs.Tally.{counted, verdict};

use octets::same_octets;
use std::error::Error;
use std::{fmt, io};

#[derive(Clone, Copy, PartialEq, Eq, Debug, Default)]
pub struct Tally {
    pub passed: u32,
    pub failed: u32,
}

// That a published vector failed.
#[derive(Clone, Copy, PartialEq, Eq, Debug)]
pub struct Failed;

impl Error for Failed {}

impl fmt::Display for Failed {
    ghost output = { λ _. Some (codes "a published vector failed") };

    fn fmt<W: fmt::Write>(&self, f: &mut fmt::Formatter<W>) -> fmt::Result {
        f.write_str("a published vector failed")
    }
}

impl fmt::Display for Tally {
    ghost output = { λ tally. Some (decimal tally.passed ++ codes " passed, " ++ decimal tally.failed ++ codes " failed") };

    fn fmt<W: fmt::Write>(&self, f: &mut fmt::Formatter<W>) -> fmt::Result {
        let Tally { passed, failed } = *self;
        write!(f, "{passed} passed, {failed} failed")
    }
}

impl Tally {
    // Tells whether what was `found` is what is `published`, and counts it. `way` says which way a vector was run.
    pub fn compare(
        &mut self,
        rt: &impl Print,
        name: &str,
        way: &str,
        found: &[u8],
        published: &[u8],
    ) -> io::Result<()>
        ensures counted_once { self.new ≡ counted (same found.now published.now) self.old }
    {
        let verdict = if same_octets(found, published) {
            self.passed = self.passed.saturating_add(1);
            "pass"
        } else {
            self.failed = self.failed.saturating_add(1);
            "FAIL"
        };
        println!(rt; "{name}{way}: {verdict}")
    }

    // An error where a vector failed.
    pub fn verdict(self) -> Result<(), Failed>
        ensures failed_where_one_failed { result ≡ verdict self }
    {
        if self.failed > 0 { Err(Failed) } else { Ok(()) }
    }
}
