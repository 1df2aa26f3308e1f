// The protection suites in one bank.
#![tactic(auto)]

mod standard;

pub use aes::Aes;
pub use algorithms::{Cbc, HmacIntegrity, Null};
pub use bank::Bank;
pub use codes::{
    AES_CBC, AES_CCM, AUTH_COMBINED, AUTH_HMAC_SHA1_96, AUTH_HMAC_SHA2_256_128, ENCR_NULL,
};
pub use combined::Ccm;
pub use pairing::Pairing;
pub use standard::{
    NullHmacSha256, StandardBank, null_hmac_sha2_256_128, standard_bank, standard_sizes,
};
