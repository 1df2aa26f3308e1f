// The encryption algorithms.
ghost use Rattle.std.specs.Prelude.{◌≡◌};
ghost use Rattle.std.specs.Option.{option_map};
ghost use Rattle.codes.specs.Encryption.{encryption_fits, encryption_row, encryption_name};

use crate::rows::{Row, first_row};

pub const ENCR_NULL: u32 = 0x8001_000b;

pub const AES_CBC: u32 = 0x8001_000c;

// With a check value of 16 bytes.
pub const AES_CCM: u32 = 0x8001_0010;

// With a check value of 16 bytes.
pub const AES_GCM: u32 = 0x8001_0014;

// A code with one of its key lengths, and the sizes that go with it, in bytes.
#[derive(Clone, Copy)]
pub struct EncryptionRow {
    pub code: u32,
    pub key: usize,
    pub salt: usize,
    pub vector: usize,
    // 0 where the check value is the integrity algorithm's
    // Stays: the size as the standard gives it; the definitions add it to the other row's.
    pub check: usize,
}

impl Row for EncryptionRow {
    // a code and a length of the key
    type Key = (u32, usize);

    ghost goes_with = { λ key row. encryption_fits key.0 key.1 row };

    fn fits(self, (code, key): (u32, usize)) -> bool {
        self.code == code && self.key == key
    }
}

const NULL_ROW: EncryptionRow = EncryptionRow {
    code: ENCR_NULL,
    key: 0,
    salt: 0,
    vector: 0,
    check: 0,
};

const CBC_ROW: EncryptionRow = EncryptionRow {
    code: AES_CBC,
    key: 16,
    salt: 0,
    vector: 16,
    check: 0,
};

const CCM_ROW: EncryptionRow = EncryptionRow {
    code: AES_CCM,
    key: 16,
    salt: 3,
    vector: 8,
    check: 16,
};

const GCM_ROW: EncryptionRow = EncryptionRow {
    code: AES_GCM,
    key: 16,
    salt: 4,
    vector: 8,
    check: 16,
};

// AES with a key of 24 bytes is prohibited, so it has no row.
const ENCRYPTION_ROWS: [EncryptionRow; 7] = [
    NULL_ROW,
    CBC_ROW,
    EncryptionRow { key: 32, ..CBC_ROW },
    CCM_ROW,
    EncryptionRow { key: 32, ..CCM_ROW },
    GCM_ROW,
    EncryptionRow { key: 32, ..GCM_ROW },
];

// The row of a code with a length of the key, if there is one.
pub fn encryption_row(code: u32, key: usize) -> Option<EncryptionRow>
    ensures first_row_with_code_and_key { result ≡ encryption_row code key }
{
    first_row(&ENCRYPTION_ROWS, (code, key))
}

// The name of a code, if it has one.
pub fn encryption_name(code: u32) -> Option<&'static str>
    ensures its_name { option_map (λ x. x.now) result ≡ encryption_name code }
{
    match code {
        ENCR_NULL => Some("ENCR_NULL"),
        AES_CBC => Some("AES-CBC"),
        AES_CCM => Some("AES-CCM"),
        AES_GCM => Some("AES-GCM"),
        _ => None,
    }
}
