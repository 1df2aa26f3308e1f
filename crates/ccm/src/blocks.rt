// The blocks that CCM makes: the first one, those of the counter, and the first of the associated data.
ghost use Rattle.std.specs.Prelude.{◌≡◌, ◌+◌, ◌-◌, ◌*◌, ◌/◌, ◌≤◌, length, take, drop, if◌then◌else◌, nat_eq};
ghost use Rattle.octets.specs.Octets.{zeros, over};
ghost use Rattle.ccm.specs.Ccm.{length_size, first_block, counter_block, encoded_length};
ghost use Rattle.ccm.specs.Parts.{headed, associated};

use crate::packet::Packet;
use block::{BLOCK, BlockCipher};

// The bit of the first byte that says that there is associated data.
const ASSOCIATED: u8 = 64;

// Lengths below this one have two bytes.
const TWO_BYTES: usize = 0xff00;

// Lengths below this one have four bytes.
const FOUR_BYTES: usize = 0x1_0000_0000;

impl<'a, B: BlockCipher> Packet<'a, B> {
    // A block of a first byte, the nonce, and a number in the bytes that are left.
    fn head_block(&self, first: u8, number: u64) -> [u8; 16]
        ensures first_nonce_number { result ≡ headed first self.now.nonce.now number }
    {
        let mut block = [0; BLOCK];
        block[8..].copy_from_slice(&number.to_be_bytes());
        block[1..1 + self.nonce.len()].copy_from_slice(self.nonce);
        block[0] = first;
        block
    }

    // The first byte of the first block.
    fn first_byte(&self) -> u8
        ensures as_flags { result ≡ (if nat_eq (length self.now.aad.now) 0 then 0 else 64) + 8 * ((self.now.check - 2) / 2) + (length_size self.now.nonce.now - 1) }
    {
        let associated = if self.aad.is_empty() { 0 } else { ASSOCIATED };
        associated + 8 * ((self.check - 2) / 2) as u8 + (14 - self.nonce.len()) as u8
    }

    // The first block, for a text of `text` bytes.
    pub(crate) fn first_block(&self, text: usize) -> [u8; 16]
        ensures the_first_block { result ≡ first_block self.now.check self.now.nonce.now self.now.aad.now text }
    {
        self.head_block(self.first_byte(), text as u64)
    }

    // The counter block of a number.
    pub(crate) fn counter_block(&self, number: usize) -> [u8; 16]
        ensures the_counter_block { result ≡ counter_block self.now.nonce.now number }
    {
        self.head_block((14 - self.nonce.len()) as u8, number as u64)
    }
}

// Writes what comes before `count` bytes of associated data over the start of a block, and says how long that is.
// Stays: the length is told beside the block, which the associated data go on to fill.
fn write_length(count: usize, block: &mut [u8; 16]) -> usize
    requires some { 1 ≤ count }
    ensures at_most_ten { result ≤ 10 }
    ensures bytes_counted { result ≡ length (encoded_length count) }
    ensures length_then_old { block.new ≡ over (encoded_length count) block.old }
{
    if count < TWO_BYTES {
        block[..2].copy_from_slice(&(count as u16).to_be_bytes());
        2
    } else if count < FOUR_BYTES {
        block[..2].copy_from_slice(&[0xff, 0xfe]);
        block[2..6].copy_from_slice(&(count as u32).to_be_bytes());
        6
    } else {
        block[..2].copy_from_slice(&[0xff, 0xff]);
        block[2..10].copy_from_slice(&(count as u64).to_be_bytes());
        10
    }
}

// The first block of what is associated, the length and then the start of `aad`, and the rest of `aad`.
pub(crate) fn associated_block(aad: &[u8]) -> ([u8; 16], &[u8])
    requires some { 1 ≤ length aad.now }
    ensures first_block_then_zeros { result.0 ≡ over (take 16 (associated aad.now)) (zeros 16) }
    ensures the_rest_is_left { drop 16 (associated aad.now) ≡ result.1.now }
{
    let mut block = [0; BLOCK];
    let before = write_length(aad.len(), &mut block);
    let (front, rest) = aad.split_at((BLOCK - before).min(aad.len()));
    block[before..before + front.len()].copy_from_slice(front);
    (block, rest)
}
