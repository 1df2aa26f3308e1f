// AES as a block cipher.
ghost use Rattle.aes.specs.Schedule.{scheduled, expanded};
ghost use Rattle.aes.specs.Cipher.{forward, inverse};
ghost use Rattle.std.proofs.Common.{sym, ◌∙◌, arith, rules};
ghost use Rattle.aes.specs.Expansion.{scheduled-sizes, length-expanded, octets-expanded};
ghost use Rattle.aes.specs.Undoing.{length-forward, length-inverse, state_forward, state_inverse, inverse-forward, forward-inverse};

use crate::rounds::{decipher, encipher};
use crate::schedule::expand;
use block::BlockCipher;

// AES with keys of 16 and 32 bytes. A block stays as it is under a schedule of fewer than two round keys.
pub struct Aes;

impl BlockCipher for Aes {
    ghost scheduled = { scheduled };

    ghost expanded = { expanded };

    ghost forward = { forward };

    ghost inverse = { inverse };

    ghost keys_are_short = { Prim.search rules };

    ghost schedules_are_short = { Prim.search rules };

    ghost expanding_gives_its_length = { λ k m h.
        let sizes = scheduled-sizes _ m h in
        length-expanded k (omega arith) sizes.whole ∙ sym sizes.sized };

    ghost expanding_gives_bytes = { λ k m h o. octets-expanded k o };

    ghost forward_keeps_length = { λ w b e. length-forward w b e };

    ghost inverse_keeps_length = { λ w b e. length-inverse w b e };

    ghost forward_gives_bytes = { λ w b o p e. (state_forward w b o (record { sized = e; bytes = p })).bytes };

    ghost inverse_gives_bytes = { λ w b o p e. (state_inverse w b o (record { sized = e; bytes = p })).bytes };

    ghost inverse_undoes_forward = { λ w b o p e. inverse-forward w b o (record { sized = e; bytes = p }) };

    ghost forward_undoes_inverse = { λ w b o p e. forward-inverse w b o (record { sized = e; bytes = p }) };

    fn schedule_length(key: usize) -> Option<usize> {
        match key {
            16 => Some(176),
            32 => Some(240),
            _ => None,
        }
    }

    fn expand_key(key: &[u8], work: &mut [u8]) -> Option<usize> {
        let whole = Aes::schedule_length(key.len())?;
        if work.len() < whole {
            return None;
        }
        expand(key, work);
        Some(whole)
    }

    fn encipher_block(schedule: &[u8], block: &mut [u8; 16]) {
        encipher(schedule, block);
    }

    fn decipher_block(schedule: &[u8], block: &mut [u8; 16]) {
        decipher(schedule, block);
    }
}
