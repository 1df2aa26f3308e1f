// HMAC (RFC 2104) over any hash function, and the interface that a hash function meets.
#![tactic(auto)]

mod hash;
mod hmac;

pub use hash::Hash;
pub use hmac::{Hmac, digest_over};
