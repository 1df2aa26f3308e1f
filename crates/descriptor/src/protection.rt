// What a descriptor is protected under.
ghost use Rattle.std.specs.Prelude.{◌≡◌};
ghost use Rattle.suite.specs.Meaning.{given};

use suite::{Inputs, Triple};

// A triple with the keys of one direction of an SA.
#[derive(Clone, Copy)]
pub struct Protection<'a> {
    pub triple: Triple,
    // the encryption key, and the salt that goes with it
    pub key: &'a [u8],
    pub salt: &'a [u8],
    // the integrity key
    pub integrity: &'a [u8],
}

impl<'a> Protection<'a> {
    ghost use Rattle.descriptor.specs.Text.{given_to};

    // What the suite takes besides the text.
    pub(crate) fn inputs(self, head: &'a [u8], vector: &'a [u8]) -> Inputs<'a>
        ensures keys_head_and_vector { given result ≡ given_to self.entry head.now vector.now }
    {
        Inputs {
            key: self.key,
            salt: self.salt,
            integrity: self.integrity,
            head,
            vector,
        }
    }
}
