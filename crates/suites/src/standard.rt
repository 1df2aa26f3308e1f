// The standard bank: the suites that ESP-SCSI names, as far as they are built.
ghost use Rattle.std.specs.Prelude.{◌≡◌, true};
ghost use Rattle.codes.specs.Encryption.{aes_cbc, aes_ccm};
ghost use Rattle.codes.specs.Integrity.{auth_hmac_sha1_96, auth_hmac_sha2_256_128, auth_combined};
ghost use Rattle.suites.specs.Standard.{hmac_sizes, standard_serves, standard_offers, all_agree};

use aes::Aes;
use algorithms::{Cbc, HmacIntegrity, Null};
use bank::Bank;
use codes::{AES_CBC, AES_CCM, AUTH_COMBINED, AUTH_HMAC_SHA1_96, AUTH_HMAC_SHA2_256_128};
use combined::Ccm;
use pairing::Pairing;
use sha::{Sha1, Sha256};
use suite::{IntegritySizes, Sizes, Suite, Triple};

// ENCR_NULL with AUTH_HMAC_SHA1_96, and with AUTH_HMAC_SHA2_256_128.
type NullSuites = Bank<Pairing<Null, HmacIntegrity<Sha1>>, Pairing<Null, HmacIntegrity<Sha256>>>;

// AES-CBC with the same two.
type CbcSuites = Bank<
    Pairing<Cbc<Aes>, HmacIntegrity<Sha1>>,
    Pairing<Cbc<Aes>, HmacIntegrity<Sha256>>,
>;

// All of these, and AES-CCM.
pub type StandardBank = Bank<Bank<NullSuites, CbcSuites>, Ccm<Aes>>;

// AUTH_HMAC_SHA1_96: a key of 20 bytes, a check value of 12.
fn hmac_sha1_96() -> HmacIntegrity<Sha1>
    ensures its_code { result.code ≡ auth_hmac_sha1_96 }
    ensures its_sizes { result.sizes ≡ hmac_sizes 20 12 }
{
    HmacIntegrity::new(AUTH_HMAC_SHA1_96, IntegritySizes { key: 20, check: 12 })
}

// AUTH_HMAC_SHA2_256_128: a key of 32 bytes, a check value of 16.
fn hmac_sha2_256_128() -> HmacIntegrity<Sha256>
    ensures its_code { result.code ≡ auth_hmac_sha2_256_128 }
    ensures its_sizes { result.sizes ≡ hmac_sizes 32 16 }
{
    HmacIntegrity::new(
        AUTH_HMAC_SHA2_256_128,
        IntegritySizes { key: 32, check: 16 },
    )
}

// ENCR_NULL with AUTH_HMAC_SHA2_256_128.
pub type NullHmacSha256 = Pairing<Null, HmacIntegrity<Sha256>>;

// ENCR_NULL with AUTH_HMAC_SHA2_256_128: no encryption, an integrity key of 32 bytes, a check value of 16.
pub fn null_hmac_sha2_256_128() -> NullHmacSha256
    ensures its_code { result.integrity.code ≡ auth_hmac_sha2_256_128 }
    ensures its_sizes { result.integrity.sizes ≡ hmac_sizes 32 16 }
{
    Pairing {
        cipher: Null,
        integrity: hmac_sha2_256_128(),
    }
}

// AES-CBC.
fn aes_cbc() -> Cbc<Aes>
    ensures its_code { result.code ≡ aes_cbc }
{
    Cbc::new(AES_CBC)
}

// AES-CCM with a check value of 16 bytes.
fn aes_ccm() -> Ccm<Aes>
    ensures its_encryption_code { result.encryption ≡ aes_ccm }
    ensures its_integrity_code { result.integrity ≡ auth_combined }
{
    Ccm::new(AES_CCM, AUTH_COMBINED)
}

// ENCR_NULL and AES-CBC, each with AUTH_HMAC_SHA1_96 and AUTH_HMAC_SHA2_256_128, and AES-CCM.
pub fn standard_bank() -> StandardBank
    ensures null_with_the_code_of_sha1 { result.first.first.first.integrity.code ≡ auth_hmac_sha1_96 }
    ensures null_with_the_sizes_of_sha1 { result.first.first.first.integrity.sizes ≡ hmac_sizes 20 12 }
    ensures null_with_the_code_of_sha256 { result.first.first.second.integrity.code ≡ auth_hmac_sha2_256_128 }
    ensures null_with_the_sizes_of_sha256 { result.first.first.second.integrity.sizes ≡ hmac_sizes 32 16 }
    ensures cbc_before_sha1 { result.first.second.first.cipher.code ≡ aes_cbc }
    ensures cbc_with_the_code_of_sha1 { result.first.second.first.integrity.code ≡ auth_hmac_sha1_96 }
    ensures cbc_with_the_sizes_of_sha1 { result.first.second.first.integrity.sizes ≡ hmac_sizes 20 12 }
    ensures cbc_before_sha256 { result.first.second.second.cipher.code ≡ aes_cbc }
    ensures cbc_with_the_code_of_sha256 { result.first.second.second.integrity.code ≡ auth_hmac_sha2_256_128 }
    ensures cbc_with_the_sizes_of_sha256 { result.first.second.second.integrity.sizes ≡ hmac_sizes 32 16 }
    ensures ccm_under_its_code { result.second.encryption ≡ aes_ccm }
    ensures ccm_with_the_code_of_a_combined_mode { result.second.integrity ≡ auth_combined }
{
    Bank {
        first: Bank {
            first: Bank {
                first: Pairing {
                    cipher: Null,
                    integrity: hmac_sha1_96(),
                },
                second: Pairing {
                    cipher: Null,
                    integrity: hmac_sha2_256_128(),
                },
            },
            second: Bank {
                first: Pairing {
                    cipher: aes_cbc(),
                    integrity: hmac_sha1_96(),
                },
                second: Pairing {
                    cipher: aes_cbc(),
                    integrity: hmac_sha2_256_128(),
                },
            },
        },
        second: aes_ccm(),
    }
}

// The sizes that the standard bank tells of a triple, if it serves it.
pub fn standard_sizes(triple: Triple) -> Option<Sizes>
    ensures as_offered { result ≡ standard_serves triple }
    ensures as_the_code_tables_say { all_agree standard_offers ≡ true }
{
    let bank = standard_bank();
    bank.sizes(triple)
}
