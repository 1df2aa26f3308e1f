// ENCR_NULL: no encryption.
ghost use Rattle.std.specs.Prelude.{◌≡◌};
ghost use Rattle.suite.specs.Cipher.{ciphering, done, text_after};
ghost use Rattle.algorithms.specs.Null.{null_cipher, unchanged};
ghost use Rattle.std.proofs.Common.{rules};

use codes::ENCR_NULL;
use suite::{Cipher, CipherSizes, Fault, WORK};

// The cipher that leaves a text as it is.
#[derive(Clone, Copy)]
pub struct Null;

impl Cipher for Null {
    ghost ciphers = { λ _. null_cipher };

    ghost cipher_sizes_are_bounded = { Prim.search rules };

    ghost enciphering_keeps_length = { Prim.search rules };

    ghost deciphering_keeps_length = { Prim.search rules };

    ghost enciphering_gives_bytes = { Prim.search rules };

    ghost deciphering_gives_bytes = { Prim.search rules };

    ghost deciphering_undoes_enciphering = { Prim.search rules };

    ghost enciphering_undoes_deciphering = { Prim.search rules };

    fn sizes(&self, code: u32, key: usize) -> Option<CipherSizes> {
        (code == ENCR_NULL && key == 0).then_some(CipherSizes {
            vector: 0,
            unit: 1,
            encrypts: false,
        })
    }

    fn encipher(
        &self,
        code: u32,
        key: &[u8],
        vector: &[u8],
        text: &mut [u8],
        work: &mut [u8],
    ) -> Result<(), Fault> {
        self.admit(code, key, vector, text, work)
    }

    fn decipher(
        &self,
        code: u32,
        key: &[u8],
        vector: &[u8],
        text: &mut [u8],
        work: &mut [u8],
    ) -> Result<(), Fault> {
        self.admit(code, key, vector, text, work)
    }
}

impl Null {
    // Whether a text may be put through. A text of any length has whole units.
    fn admit(
        &self,
        code: u32,
        key: &[u8],
        vector: &[u8],
        text: &[u8],
        work: &[u8],
    ) -> Result<(), Fault>
        ensures whether_done { result ≡ done (ciphering unchanged null_cipher code key.now vector.now text.now work.now) }
        ensures text_as_it_is { text_after (ciphering unchanged null_cipher code key.now vector.now text.now work.now) text.now ≡ text.now }
    {
        let sizes = self.sizes(code, key.len()).ok_or(Fault::NotServed)?;
        if !text.len().is_multiple_of(sizes.unit)
            || vector.len() != sizes.vector
            || work.len() < WORK
        {
            return Err(Fault::Size);
        }
        Ok(())
    }
}
