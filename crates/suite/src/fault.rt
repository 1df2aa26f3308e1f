// Why a suite turns a call down.
ghost use Rattle.std.specs.Prelude.{codes, Some};
ghost use Rattle.suite.specs.declared.fault.Fault.TheVariants.{NotServed, Size, Mismatch};

use std::error::Error;
use std::fmt;

#[derive(Clone, Copy, PartialEq, Eq, Debug)]
pub enum Fault {
    // the triple is none of the suite's
    NotServed,
    // a key, salt, vector, head, text, sealed part, output or work area has the wrong length
    Size,
    // no text seals to these bytes
    Mismatch,
}

impl Error for Fault {}

// The fault in words.
impl fmt::Display for Fault {
    ghost output = { elim [
      | NotServed ↦ Some (codes "not served, the suite does not know this triple")
      | Size ↦ Some (codes "size, a key, the salt, a buffer or the work area has the wrong length")
      | Mismatch ↦ Some (codes "mismatch, no text seals to these bytes under this head and these keys")
    ] };

    fn fmt<W: fmt::Write>(&self, f: &mut fmt::Formatter<W>) -> fmt::Result {
        f.write_str(match self {
            Fault::NotServed => "not served, the suite does not know this triple",
            Fault::Size => "size, a key, the salt, a buffer or the work area has the wrong length",
            Fault::Mismatch =>
                "mismatch, no text seals to these bytes under this head and these keys",
        })
    }
}
