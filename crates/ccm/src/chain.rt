// The chain of blocks that authenticates.
ghost use Rattle.std.specs.Prelude.{◌≡◌, length};
ghost use Rattle.octets.specs.Octets.{same};
ghost use Rattle.block.specs.Xor.{xored};
ghost use Rattle.ccm.specs.Ccm.{check_value};
ghost use Rattle.ccm.specs.Parts.{taken_in, associated, whole_check};

use crate::blocks::associated_block;
use crate::packet::Packet;
use block::{BLOCK, BlockCipher, xor_over};
use octets::same_octets;

impl<'a, B: BlockCipher> Packet<'a, B> {
    // Adds `part` to the chaining value and enciphers the sum.
    fn take_in_part(&self, part: &[u8], value: &mut [u8; 16])
        ensures sum_enciphered { value.new ≡ B.forward self.now.schedule.now (xored value.old part.now) }
    {
        xor_over(part, value);
        B::encipher_block(self.schedule, value);
    }

    // Takes `bytes` into the chaining value, in whole blocks.
    fn take_in(&self, bytes: &[u8], value: &mut [u8; 16])
        ensures taken_in { value.new ≡ taken_in (B.forward self.now.schedule.now) value.old bytes.now }
    {
        for part in bytes.chunks(BLOCK) {
            self.take_in_part(part, value);
        }
    }

    // Takes the associated data into the chaining value, behind its length.
    fn take_in_associated(&self, value: &mut [u8; 16])
        ensures taken_in { value.new ≡ taken_in (B.forward self.now.schedule.now) value.old (associated self.now.aad.now) }
    {
        if self.aad.is_empty() {
            return;
        }
        let (first, rest) = associated_block(self.aad);
        self.take_in_part(&first, value);
        self.take_in(rest, value);
    }

    // The 16 bytes of which the first are the check value over the associated data and `text`.
    fn authenticate(&self, text: &[u8]) -> [u8; 16]
        ensures the_whole_check { result ≡ whole_check (B.forward self.now.schedule.now) self.now.check self.now.nonce.now self.now.aad.now text.now }
    {
        let mut value = self.first_block(text.len());
        B::encipher_block(self.schedule, &mut value);
        self.take_in_associated(&mut value);
        self.take_in(text, &mut value);
        self.mask_part(0, &mut value);
        value
    }

    // Fills `value`, which is as long, with the check value over the associated data and `text`.
    #[tactic(auto, using(crate::proofs::Steps::check_part))]
    pub(crate) fn write_check_value(&self, text: &[u8], value: &mut [u8])
        requires as_long { length value.old ≡ self.now.check }
        ensures the_check_value { value.new ≡ check_value (B.forward self.now.schedule.now) self.now.check self.now.nonce.now self.now.aad.now text.now }
    {
        value.copy_from_slice(&self.authenticate(text)[..self.check]);
    }

    // Whether the check value over the associated data and `text` is `value`.
    #[tactic(auto, using(crate::proofs::Steps::check_part))]
    pub(crate) fn is_checked(&self, text: &[u8], value: &[u8]) -> bool
        ensures whether_they_are_the_same { result ≡ same value.now (check_value (B.forward self.now.schedule.now) self.now.check self.now.nonce.now self.now.aad.now text.now) }
    {
        same_octets(value, &self.authenticate(text)[..self.check])
    }
}
