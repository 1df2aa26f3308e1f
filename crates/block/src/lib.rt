// Ciphers of blocks of 16 bytes, which the modes of operation are built on.
#![tactic(auto)]

mod cipher;
mod xor;

pub use cipher::{BLOCK, BlockCipher};
pub use xor::xor_over;
