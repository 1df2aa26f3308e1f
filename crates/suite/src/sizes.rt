// What a suite tells of a triple that it serves, and whether what a call brings has those sizes.
ghost use Rattle.std.specs.Prelude.{◌≡◌};
ghost use Rattle.suite.specs.Meaning.{given, sealing_fits, opening_fits, lengths_fit, text_fits};

use crate::inputs::Inputs;
use crate::triple::Triple;

// The work bytes: the first bytes of the work area, which hold expanded keys during a call.
pub const WORK: usize = 240;

// SAI and SQN.
pub const HEAD: usize = 12;

// Sizes in bytes, and whether the text is encrypted.
#[derive(Clone, Copy, PartialEq, Eq, Debug)]
pub struct Sizes {
    // the integrity key
    pub integrity: usize,
    // the salt, which goes with the encryption key
    pub salt: usize,
    // the initialization vector
    pub vector: usize,
    // the check value
    pub check: usize,
    // a text has a whole number of units
    pub unit: usize,
    // Stays: the definitions speak of both, and a text in clear has a unit too, which an `Option` of it would not tell.
    pub encrypts: bool,
}

impl Sizes {
    // Whether keys, salt, head and vector have the right lengths.
    fn fit(self, triple: Triple, inputs: Inputs<'_>) -> bool
        ensures whether_all_lengths_fit { result ≡ lengths_fit triple self (given inputs.entry) }
    {
        inputs.key.len() == triple.key
            && inputs.salt.len() == self.salt
            && inputs.integrity.len() == self.integrity
            && inputs.head.len() == HEAD
            && inputs.vector.len() == self.vector
    }

    // Whether a text may have `n` bytes.
    fn fit_text(self, n: usize) -> bool
        ensures whether_in_whole_units { result ≡ text_fits self n }
    {
        n.is_multiple_of(self.unit) && n < 4294967296
    }

    // Whether `text` bytes may be sealed in an output of `out` bytes with `work` bytes of work area.
    pub fn fit_sealing(
        self,
        triple: Triple,
        inputs: Inputs<'_>,
        text: usize,
        out: usize,
        work: usize,
    ) -> bool
        ensures whether_it_may_be_sealed { result ≡ sealing_fits triple self (given inputs.entry) text out work }
    {
        self.fit(triple, inputs)
            && self.fit_text(text)
            && text <= out
            && self.check <= out - text
            && WORK <= work
    }

    // Whether `sealed` bytes may be opened into an output of `out` bytes with `work` bytes of work area.
    pub fn fit_opening(
        self,
        triple: Triple,
        inputs: Inputs<'_>,
        sealed: usize,
        out: usize,
        work: usize,
    ) -> bool
        ensures whether_it_may_be_opened { result ≡ opening_fits triple self (given inputs.entry) sealed out work }
    {
        self.fit(triple, inputs)
            && self.check <= sealed
            && self.fit_text(sealed - self.check)
            && sealed - self.check <= out
            && WORK <= work
    }
}
