// The integrity algorithms.
ghost use Rattle.std.specs.Prelude.{◌≡◌};
ghost use Rattle.std.specs.Option.{option_map};
ghost use Rattle.codes.specs.Integrity.{integrity_fits, integrity_row, integrity_name};

use crate::rows::{Row, first_row};

pub const AUTH_HMAC_SHA1_96: u32 = 0x8003_0002;

pub const AUTH_HMAC_SHA2_256_128: u32 = 0x8003_000c;

pub const AUTH_HMAC_SHA2_512_256: u32 = 0x8003_000e;

// The encryption algorithm gives the check value.
pub const AUTH_COMBINED: u32 = 0xf003_0001;

// A code, and the sizes that go with it, in bytes.
#[derive(Clone, Copy)]
pub struct IntegrityRow {
    pub code: u32,
    // 0 where the check value is the encryption algorithm's
    // Stays: the size as the standard gives it; the definitions add it to the other row's.
    pub check: usize,
    pub key: usize,
}

impl Row for IntegrityRow {
    type Key = u32;

    ghost goes_with = { integrity_fits };

    fn fits(self, code: u32) -> bool {
        self.code == code
    }
}

const INTEGRITY_ROWS: [IntegrityRow; 4] = [
    IntegrityRow {
        code: AUTH_HMAC_SHA1_96,
        check: 12,
        key: 20,
    },
    IntegrityRow {
        code: AUTH_HMAC_SHA2_256_128,
        check: 16,
        key: 32,
    },
    IntegrityRow {
        code: AUTH_HMAC_SHA2_512_256,
        check: 32,
        key: 64,
    },
    IntegrityRow {
        code: AUTH_COMBINED,
        check: 0,
        key: 0,
    },
];

// The row of a code, if there is one.
pub fn integrity_row(code: u32) -> Option<IntegrityRow>
    ensures first_row_with_code { result ≡ integrity_row code }
{
    first_row(&INTEGRITY_ROWS, code)
}

// The name of a code, if it has one.
pub fn integrity_name(code: u32) -> Option<&'static str>
    ensures its_name { option_map (λ x. x.now) result ≡ integrity_name code }
{
    match code {
        AUTH_HMAC_SHA1_96 => Some("AUTH_HMAC_SHA1_96"),
        AUTH_HMAC_SHA2_256_128 => Some("AUTH_HMAC_SHA2_256_128"),
        AUTH_HMAC_SHA2_512_256 => Some("AUTH_HMAC_SHA2_512_256"),
        AUTH_COMBINED => Some("AUTH_COMBINED"),
        _ => None,
    }
}
