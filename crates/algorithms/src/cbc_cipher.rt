// Cipher block chaining over any block cipher as a cipher.
ghost use Rattle.std.specs.Prelude.{◌≡◌, ℕ, true, List, length, IfOk, IfErr, Ok, Err};
ghost use Rattle.std.proofs.Common.{arith};
ghost use Rattle.suite.specs.Cipher.{ciphering};
ghost use Rattle.algorithms.specs.CbcCipher.{cbc_cipher, cbc_fits, schedule_served};
ghost use Rattle.std.proofs.lemmas.Bool.{both_ways};
ghost use Rattle.algorithms.specs.CbcTerms.{served, in_blocks, chained};
ghost use Rattle.cbc.proofs.Inverses.{length-enciphered, length-deciphered, octets-enciphered, octets-deciphered, deciphering_undoes, enciphering_undoes};

use block::{BLOCK, BlockCipher};
use std::marker::PhantomData;
use suite::{Cipher, CipherSizes, Fault, WORK};

// The block cipher `B` in cipher block chaining, under one code.
#[derive_where(Clone, Copy)]
pub struct Cbc<B> {
    pub code: u32,
    pub cipher: PhantomData<B>,
}

// What either direction starts with: the key's schedule in the work area, and the vector as the first chain.
#[derive(Drop)]
struct Start<'a> {
    schedule: &'a [u8],
    chain: [u8; BLOCK],
}

impl<B: BlockCipher> Cipher for Cbc<B> {
    ghost ciphers = { λ s. cbc_cipher B.scheduled B.expanded B.forward B.inverse s.code };

    ghost cipher_sizes_are_bounded = { λ s code key z e.
        let t = served B.scheduled s.code code key z e in
        record {
          key = B.keys_are_short key t.schedule t.taken;
          vector = omega (arith, t.vector);
          some_unit = omega (arith, t.unit);
          unit = omega (arith, t.unit);
          unit_in_clear = λ f. absurd (both_ways z.encrypts f t.encrypts);
        } };

    ghost enciphering_keeps_length = { λ s code z k v x e long units.
        let b = in_blocks B.scheduled s.code code (length k) z v x e long units in
        length-enciphered (B.forward (B.expanded k)) (B.forward_keeps_length (B.expanded k)) v x b.one_block b.whole_blocks };

    ghost deciphering_keeps_length = { λ s code z k v x e long units.
        let b = in_blocks B.scheduled s.code code (length k) z v x e long units in
        length-deciphered (B.inverse (B.expanded k)) (B.inverse_keeps_length (B.expanded k)) v x b.one_block b.whole_blocks };

    ghost enciphering_gives_bytes = { λ s code z k v x f h.
        let c = chained B.scheduled B.expanded B.forward B.inverse s.code B.expanding_gives_bytes code z k v x f h in
        octets-enciphered (B.forward (B.expanded k)) (B.forward_keeps_length (B.expanded k))
        (λ b. B.forward_gives_bytes (B.expanded k) b c.schedule_bytes) v x c.vector c.whole_blocks h.bytes };

    ghost deciphering_gives_bytes = { λ s code z k v x f h.
        let c = chained B.scheduled B.expanded B.forward B.inverse s.code B.expanding_gives_bytes code z k v x f h in
        octets-deciphered (B.inverse (B.expanded k)) (B.inverse_keeps_length (B.expanded k))
        (λ b. B.inverse_gives_bytes (B.expanded k) b c.schedule_bytes) v x c.vector c.whole_blocks h.bytes };

    ghost deciphering_undoes_enciphering = { λ s code z k v x f h.
        let c = chained B.scheduled B.expanded B.forward B.inverse s.code B.expanding_gives_bytes code z k v x f h in
        deciphering_undoes (B.forward (B.expanded k)) (B.inverse (B.expanded k)) v x c.vector c.whole_blocks h.bytes
        (B.forward_keeps_length (B.expanded k))
        (λ b. B.forward_gives_bytes (B.expanded k) b c.schedule_bytes)
        (λ b. B.inverse_undoes_forward (B.expanded k) b c.schedule_bytes) };

    ghost enciphering_undoes_deciphering = { λ s code z k v x f h.
        let c = chained B.scheduled B.expanded B.forward B.inverse s.code B.expanding_gives_bytes code z k v x f h in
        enciphering_undoes (B.forward (B.expanded k)) (B.inverse (B.expanded k)) v x c.vector c.whole_blocks h.bytes
        (B.inverse_keeps_length (B.expanded k))
        (λ b. B.inverse_gives_bytes (B.expanded k) b c.schedule_bytes)
        (λ b. B.forward_undoes_inverse (B.expanded k) b c.schedule_bytes) };

    fn sizes(&self, code: u32, key: usize) -> Option<CipherSizes> {
        self.schedule_length(code, key)?;
        Some(CipherSizes {
            vector: BLOCK,
            unit: BLOCK,
            encrypts: true,
        })
    }

    fn encipher(
        &self,
        code: u32,
        key: &[u8],
        vector: &[u8],
        text: &mut [u8],
        work: &mut [u8],
    ) -> Result<(), Fault> {
        let mut start = self.start(code, key, vector, text, work)?;
        cbc::encipher::<B>(start.schedule, &mut start.chain, text).map_err(|_| Fault::Size)
    }

    fn decipher(
        &self,
        code: u32,
        key: &[u8],
        vector: &[u8],
        text: &mut [u8],
        work: &mut [u8],
    ) -> Result<(), Fault> {
        let mut start = self.start(code, key, vector, text, work)?;
        cbc::decipher::<B>(start.schedule, &mut start.chain, text).map_err(|_| Fault::Size)
    }
}

impl<B: BlockCipher> Cbc<B> {
    // Serves under a code.
    pub fn new(code: u32) -> Cbc<B>
        ensures its_code { result.code ≡ code }
    {
        Cbc {
            code,
            cipher: PhantomData,
        }
    }

    // How long the schedule of a key of `key` bytes is, if the code and such keys are served.
    fn schedule_length(&self, code: u32, key: usize) -> Option<usize>
        ensures where_served { result ≡ schedule_served B.scheduled self.now.code code key }
    {
        if code == self.code {
            B::schedule_length(key)
        } else {
            None
        }
    }

    // Expands the key into the work area and copies the vector, where the code and the key are served and all lengths fit.
    fn start<'a>(
        &self,
        code: u32,
        key: &[u8],
        vector: &[u8],
        text: &[u8],
        work: &'a mut [u8],
    ) -> Result<Start<'a>, Fault>
        ensures either_direction_fails_so { IfErr result (λ f. (turned : List ℕ → List ℕ → List ℕ → List ℕ) → ciphering turned (cbc_cipher B.scheduled B.expanded B.forward B.inverse self.now.code) code key.now vector.now text.now work.old ≡ Err f) }
        ensures either_direction_goes_through { IfOk result (λ s. (turned : List ℕ → List ℕ → List ℕ → List ℕ) → ciphering turned (cbc_cipher B.scheduled B.expanded B.forward B.inverse self.now.code) code key.now vector.now text.now work.old ≡ Ok (turned key.now vector.now text.now)) }
        ensures schedule_of_the_key { IfOk result (λ s. s.schedule.now ≡ B.expanded key.now) }
        ensures vector_first { IfOk result (λ s. s.chain ≡ vector.now) }
        ensures where_all_lengths_fit { IfOk result (λ s. cbc_fits (length vector.now) (length text.now) (length work.old) ≡ true) }
    {
        self.schedule_length(code, key.len())
            .ok_or(Fault::NotServed)?;
        if !text.len().is_multiple_of(BLOCK) || work.len() < WORK {
            return Err(Fault::Size);
        }
        let chain = <[u8; BLOCK]>::try_from(vector).map_err(|_| Fault::Size)?;
        let schedule = B::expand_key(key, work).unwrap();
        Ok(Start {
            schedule: &work[..schedule],
            chain,
        })
    }
}
