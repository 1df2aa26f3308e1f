// A suite of any cipher with any integrity algorithm.
#![tactic(auto)]

mod pairing;

pub use pairing::Pairing;
