// The algorithm codes: their sizes, and the sort of every code.
#![tactic(auto)]

mod encryption;
mod integrity;
mod rows;
mod sort;

pub use encryption::{
    AES_CBC, AES_CCM, AES_GCM, ENCR_NULL, EncryptionRow, encryption_name, encryption_row,
};
pub use integrity::{
    AUTH_COMBINED, AUTH_HMAC_SHA1_96, AUTH_HMAC_SHA2_256_128, AUTH_HMAC_SHA2_512_256, IntegrityRow,
    integrity_name, integrity_row,
};
pub use sort::Sort;
