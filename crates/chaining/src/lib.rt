// What the hash functions of FIPS 180-4 share: words of 32 bits, the padding of a message and the chaining of its blocks.
#![tactic(auto)]

mod chaining;
mod hash_value;
mod words;

pub use chaining::{Chain, Rounds};
pub use hash_value::{Compression, HashValue};
pub use words::{block_word, block_words, choice, majority};
