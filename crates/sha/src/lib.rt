// The hash functions of FIPS 180-4.
#![tactic(auto)]

mod digests;
mod sha1;
mod sha256;

pub use chaining::{Chain, Rounds};
pub use digests::{sha1_digest, sha256_digest};
pub use sha1::{Sha1, Sha1Compression, Sha1Rounds};
pub use sha256::{Sha256, Sha256Compression, Sha256Rounds};
