// Published vectors of hashes and of HMAC, run over any hash and counted.
#![tactic(auto)]

mod input;
mod sha256_vectors;
mod tally;
mod vector;

pub use input::{Input, Keyed, Message};
pub use sha256_vectors::{ABC, ALPHABET, EMPTY, HMAC_SHA_256, MILLION};
pub use tally::{Failed, Tally};
pub use vector::{Vector, run};
