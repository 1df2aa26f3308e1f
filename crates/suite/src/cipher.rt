// The interface of a cipher, for suites that pair one with an integrity algorithm.
ghost use Rattle.std.specs.Prelude.{◌≡◌};
ghost use Rattle.suite.specs.Cipher.{CipherMeaning, ciphering, done, text_after, CipherSizesAreBounded, KeepsLength, GivesBytes, DecipheringUndoesEnciphering, EncipheringUndoesDeciphering};

use crate::fault::Fault;

#[derive(Clone, Copy, PartialEq, Eq, Debug)]
pub struct CipherSizes {
    // the initialization vector
    pub vector: usize,
    // a text has a whole number of units
    pub unit: usize,
    // Stays: the definitions speak of both, and a text in clear has a unit too, which an `Option` of it would not tell.
    pub encrypts: bool,
}

// Enciphers and deciphers a text in place. The work area may hold anything of the key afterwards: the caller zeroes it.
// Stays: code, key and vector come from a triple and from inputs, and a struct of them would be made for each call alone.
pub trait Cipher {
    ghost ciphers: { Self → CipherMeaning };

    // The sizes under a code and a length of the key, if they are served.
    fn sizes(&self, code: u32, key: usize) -> Option<CipherSizes>
        ensures as_served { result ≡ (ciphers self.now).serves code key };

    fn encipher(
        &self,
        code: u32,
        key: &[u8],
        vector: &[u8],
        text: &mut [u8],
        work: &mut [u8],
    ) -> Result<(), Fault>
        ensures whether_done { result ≡ done (ciphering (ciphers self.now).enciphered (ciphers self.now) code key.now vector.now text.old work.old) }
        ensures enciphered { text.new ≡ text_after (ciphering (ciphers self.now).enciphered (ciphers self.now) code key.now vector.now text.old work.old) text.old };

    fn decipher(
        &self,
        code: u32,
        key: &[u8],
        vector: &[u8],
        text: &mut [u8],
        work: &mut [u8],
    ) -> Result<(), Fault>
        ensures whether_done { result ≡ done (ciphering (ciphers self.now).deciphered (ciphers self.now) code key.now vector.now text.old work.old) }
        ensures deciphered { text.new ≡ text_after (ciphering (ciphers self.now).deciphered (ciphers self.now) code key.now vector.now text.old work.old) text.old };

    ghost cipher_sizes_are_bounded: { (s : Self) → CipherSizesAreBounded (ciphers s) };

    ghost enciphering_keeps_length: { (s : Self) → KeepsLength (ciphers s) (ciphers s).enciphered };

    ghost deciphering_keeps_length: { (s : Self) → KeepsLength (ciphers s) (ciphers s).deciphered };

    ghost enciphering_gives_bytes: { (s : Self) → GivesBytes (ciphers s) (ciphers s).enciphered };

    ghost deciphering_gives_bytes: { (s : Self) → GivesBytes (ciphers s) (ciphers s).deciphered };

    ghost deciphering_undoes_enciphering: { (s : Self) → DecipheringUndoesEnciphering (ciphers s) };

    ghost enciphering_undoes_deciphering: { (s : Self) → EncipheringUndoesDeciphering (ciphers s) };
}
