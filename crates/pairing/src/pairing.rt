// A suite of any cipher with any integrity algorithm.
ghost use Rattle.std.specs.Prelude.{◌≡◌};
ghost use Rattle.octets.specs.Octets.{over};
ghost use Rattle.suite.specs.Meaning.{given};
ghost use Rattle.pairing.specs.Pairing.{pairing, check_value};
ghost use Rattle.pairing.specs.PairingLaws as pair;

use octets::{same_octets, zero_first};
use suite::{Cipher, Fault, Fitting, Inputs, Integrity, Sizes, Triple};

// The longest check value that a suite may tell.
// Stays: the engine keeps no heap, and how long a check value is the algorithm tells at run time.
const LONGEST_CHECK: usize = 32;

// The text is enciphered, and the check value covers head, vector and what the cipher gave.
#[derive(Clone, Copy)]
pub struct Pairing<C, I> {
    pub cipher: C,
    pub integrity: I,
}

impl<C: Cipher, I: Integrity> Fitting for Pairing<C, I> {
    ghost meaning = { λ s. pairing (C.ciphers s.cipher) (I.checks s.integrity) };

    ghost sizes_are_bounded = { λ s.
        pair.sizes_are_bounded (C.ciphers s.cipher) (I.checks s.integrity)
        (C.cipher_sizes_are_bounded s.cipher)
        (I.integrity_sizes_are_bounded s.integrity) };

    ghost sealing_adds_the_check_value = { λ s.
        pair.sealing_adds_the_check_value (C.ciphers s.cipher) (I.checks s.integrity)
        (C.enciphering_keeps_length s.cipher)
        (I.check_value_has_its_size s.integrity) };

    ghost sealing_gives_bytes = { λ s.
        pair.sealing-gives-bytes (C.ciphers s.cipher) (I.checks s.integrity)
        (C.enciphering_gives_bytes s.cipher)
        (I.check_value_has_its_size s.integrity) };

    ghost opening_undoes_sealing = { λ s.
        pair.opening-undoes-sealing (C.ciphers s.cipher) (I.checks s.integrity)
        (C.deciphering_undoes_enciphering s.cipher)
        (I.check_value_has_its_size s.integrity) };

    ghost what_opens_was_sealed = { λ s.
        pair.what_opens_was_sealed (C.ciphers s.cipher) (I.checks s.integrity)
        (C.deciphering_keeps_length s.cipher)
        (C.deciphering_gives_bytes s.cipher)
        (C.enciphering_undoes_deciphering s.cipher) };

    fn sizes_served(&self, triple: Triple) -> Option<Sizes> {
        let cipher = self.cipher.sizes(triple.encryption, triple.key)?;
        let integrity = self.integrity.sizes(triple.integrity)?;
        Some(Sizes {
            integrity: integrity.key,
            salt: 0,
            vector: cipher.vector,
            check: integrity.check,
            unit: cipher.unit,
            encrypts: cipher.encrypts,
        })
    }

    // Enciphers the text at the start of `out` and writes the check value behind it.
    fn seal_fitting(
        &self,
        triple: Triple,
        sizes: Sizes,
        inputs: Inputs<'_>,
        text: usize,
        out: &mut [u8],
        work: &mut [u8],
    ) -> Result<usize, Fault> {
        if out.len() < text || out.len() - text < sizes.check {
            return Err(Fault::Size);
        }
        let (enciphered, rest) = out.split_at_mut(text);
        self.cipher.encipher(
            triple.encryption,
            inputs.key,
            inputs.vector,
            enciphered,
            work,
        )?;
        self.check_value(triple, inputs, enciphered, &mut rest[..sizes.check]);
        Ok(text + sizes.check)
    }

    // Compares the check value behind the enciphered text, and deciphers where it is right.
    fn open_fitting(
        &self,
        triple: Triple,
        sizes: Sizes,
        inputs: Inputs<'_>,
        sealed: &[u8],
        out: &mut [u8],
        work: &mut [u8],
    ) -> Result<usize, Fault> {
        if sealed.len() < sizes.check
            || LONGEST_CHECK < sizes.check
            || out.len() < sealed.len() - sizes.check
        {
            return Err(Fault::Size);
        }
        let text = sealed.len() - sizes.check;
        let (enciphered, check) = sealed.split_at(text);
        let mut value = [0; LONGEST_CHECK];
        self.check_value(triple, inputs, enciphered, &mut value);
        if !same_octets(check, &value[..sizes.check]) {
            zero_first(text, out);
            return Err(Fault::Mismatch);
        }
        let plain = &mut out[..text];
        plain.copy_from_slice(enciphered);
        self.cipher
            .decipher(triple.encryption, inputs.key, inputs.vector, plain, work)?;
        Ok(text)
    }
}

impl<C: Cipher, I: Integrity> Pairing<C, I> {
    // Writes the check value over an enciphered text over the start of `out`.
    fn check_value(&self, triple: Triple, inputs: Inputs<'_>, text: &[u8], out: &mut [u8])
        ensures check_value_then_old { out.new ≡ over (check_value (C.ciphers self.now.cipher) (I.checks self.now.integrity) triple (given inputs.entry) text.now) out.old }
    {
        self.integrity.check(
            triple.integrity,
            inputs.integrity,
            inputs.head,
            inputs.vector,
            text,
            out,
        );
    }
}
