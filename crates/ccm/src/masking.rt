// Counter mode.
ghost use Rattle.std.specs.Prelude.{◌≡◌};
ghost use Rattle.block.specs.Xor.{xored};
ghost use Rattle.ccm.specs.Ccm.{counter_block, masked};

use crate::packet::Packet;
use block::{BLOCK, BlockCipher, xor_over};

impl<'a, B: BlockCipher> Packet<'a, B> {
    // Adds the enciphered counter block of a number to `part`, which is no longer than a block.
    pub(crate) fn mask_part(&self, number: usize, part: &mut [u8])
        ensures part_masked { part.new ≡ xored part.old (B.forward self.now.schedule.now (counter_block self.now.nonce.now number)) }
    {
        let mut block = self.counter_block(number);
        B::encipher_block(self.schedule, &mut block);
        xor_over(&block, part);
    }

    // Turns `text` in counter mode, from the number 1 on.
    pub(crate) fn mask(&self, text: &mut [u8])
        ensures text_masked { text.new ≡ masked (B.forward self.now.schedule.now) self.now.nonce.now text.old }
    {
        let end = text.len();
        // Stays: after a loop by `chunks_mut` a proof knows no more of `text` than its length.
        for i in 0..end.div_ceil(BLOCK) {
            self.mask_part(i + 1, &mut text[BLOCK * i..end.min(BLOCK * (i + 1))]);
        }
    }
}
