// The ciphers and the integrity algorithms that a pairing takes.
#![tactic(auto)]

mod cbc_cipher;
mod hmac_integrity;
mod null;

pub use cbc_cipher::Cbc;
pub use hmac_integrity::HmacIntegrity;
pub use null::Null;
