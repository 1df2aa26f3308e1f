// A protection that a suite serves.
ghost use Rattle.std.specs.Prelude.{◌≡◌, MatchResult, Some, None};
ghost use Rattle.std.proofs.Props.{props};
ghost use Rattle.octets.specs.Octets.{Octets};
ghost use Rattle.suite.specs.Laws.{Bounded};
ghost use Rattle.suite.specs.declared.Fault.TheVariants.{NotServed};

use crate::protection::Protection;
use octets::bytes_are_octets;
use suite::{Fault, Sizes, Suite};

// A suite, a protection that it serves, and the sizes that it tells.
#[derive(Drop)]
pub(crate) struct Served<'a, S: Suite> {
    pub suite: &'a S,
    pub under: Protection<'a>,
    pub sizes: Sizes,
    ghost told: { (S.meaning suite.now).serves under.triple ≡ Some sizes } by { Prim.hlevel props },
    ghost bounded: { Bounded under.triple sizes } by { Prim.hlevel props },
    ghost key_bytes: { Octets under.key.now } by { Prim.hlevel props },
    ghost salt_bytes: { Octets under.salt.now } by { Prim.hlevel props },
    ghost integrity_bytes: { Octets under.integrity.now } by { Prim.hlevel props },
}

impl<'a, S: Suite> Served<'a, S> {
    // Asks the suite for the sizes of the protection's triple.
    pub fn ask(suite: &'a S, under: Protection<'a>) -> Result<Self, Fault>
        ensures asked { MatchResult result (λ s. (s.suite.now ≡ suite.now) × (s.under ≡ under.entry)) (λ f. (f ≡ NotServed) × ((S.meaning suite.now).serves under.entry.triple ≡ None)) }
    {
        bytes_are_octets(under.key);
        bytes_are_octets(under.salt);
        bytes_are_octets(under.integrity);
        let sizes = suite.sizes(under.triple).ok_or(Fault::NotServed)?;
        Ok(Served {
            suite,
            under,
            sizes,
        })
    }
}
