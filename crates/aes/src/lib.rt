// AES, the block cipher of FIPS 197, with keys of 16 and 32 bytes.
#![tactic(auto)]

mod cipher;
mod rounds;
mod schedule;

pub use cipher::Aes;
