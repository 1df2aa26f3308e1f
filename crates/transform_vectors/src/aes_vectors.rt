// AES: the examples of FIPS 197, forward and back.
use crate::both_ways::{Mode, Vector};
use block::{BLOCK, BlockCipher};
use octets::copy_over;

// A block by itself.
#[derive(Clone, Copy)]
pub(crate) struct Block;

impl Mode for Block {
    const BACK: &'static str = ", back";

    fn seal<B: BlockCipher>(&self, schedule: &[u8], _text: usize, out: &mut [u8]) -> Option<usize> {
        B::encipher_block(schedule, out.first_chunk_mut()?);
        Some(BLOCK)
    }

    fn open<B: BlockCipher>(
        &self,
        schedule: &[u8],
        sealed: &[u8],
        out: &mut [u8],
    ) -> Option<usize> {
        copy_over(sealed, out);
        B::decipher_block(schedule, out.first_chunk_mut()?);
        Some(BLOCK)
    }
}

pub(crate) const AES: [Vector<Block>; 3] = [
    Vector {
        name: "AES-128, FIPS 197, appendix B",
        key: b"\x2b\x7e\x15\x16\x28\xae\xd2\xa6\xab\xf7\x15\x88\x09\xcf\x4f\x3c",
        mode: Block,
        plain: b"\x32\x43\xf6\xa8\x88\x5a\x30\x8d\x31\x31\x98\xa2\xe0\x37\x07\x34",
        sealed: b"\x39\x25\x84\x1d\x02\xdc\x09\xfb\xdc\x11\x85\x97\x19\x6a\x0b\x32",
    },
    Vector {
        name: "AES-128, FIPS 197, appendix C.1",
        key: b"\x00\x01\x02\x03\x04\x05\x06\x07\x08\x09\x0a\x0b\x0c\x0d\x0e\x0f",
        mode: Block,
        plain: b"\x00\x11\x22\x33\x44\x55\x66\x77\x88\x99\xaa\xbb\xcc\xdd\xee\xff",
        sealed: b"\x69\xc4\xe0\xd8\x6a\x7b\x04\x30\xd8\xcd\xb7\x80\x70\xb4\xc5\x5a",
    },
    Vector {
        name: "AES-256, FIPS 197, appendix C.3",
        key: b"\x00\x01\x02\x03\x04\x05\x06\x07\x08\x09\x0a\x0b\x0c\x0d\x0e\x0f\
               \x10\x11\x12\x13\x14\x15\x16\x17\x18\x19\x1a\x1b\x1c\x1d\x1e\x1f",
        mode: Block,
        plain: b"\x00\x11\x22\x33\x44\x55\x66\x77\x88\x99\xaa\xbb\xcc\xdd\xee\xff",
        sealed: b"\x8e\xa2\xb7\xca\x51\x67\x45\xbf\xea\xfc\x49\x90\x4b\x49\x60\x89",
    },
];
