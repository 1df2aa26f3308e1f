// What the examples are protected under.
use suite::Triple;
use suites::{AUTH_HMAC_SHA2_256_128, ENCR_NULL};

pub(crate) const SERVED: Triple = Triple {
    encryption: ENCR_NULL,
    integrity: AUTH_HMAC_SHA2_256_128,
    key: 0,
};

pub(crate) const UNSERVED: [Triple; 3] = [
    Triple {
        encryption: 0x8001_000c,
        ..SERVED
    },
    Triple {
        integrity: 0x8003_0002,
        ..SERVED
    },
    Triple { key: 1, ..SERVED },
];

// Five data bytes as a descriptor in the long form, under a key of bytes 7.
pub(crate) const LONG: [u8; 37] = [
    0x00, 0x23, 0, 0, 0x80, 0, 1, 2, 0, 0, 0, 0, 0, 0, 0, 9, 1, 2, 3, 4, 5, 0x26, 0x74, 0x89, 0x8e,
    0x76, 0x20, 0xdf, 0xf2, 0xf0, 0x4f, 0x91, 0x63, 0xf8, 0xdb, 0xfd, 0x31,
];

// No data as a descriptor in the short form, under the same key.
pub(crate) const EMPTY: [u8; 28] = [
    0x80, 0, 1, 2, 0, 0, 0, 0, 0, 0, 0, 9, 0x42, 0xc9, 0x3b, 0x17, 0x5e, 0xaf, 0xcb, 0x2c, 0x43,
    0x45, 0xee, 0x39, 0x64, 0x77, 0x9c, 0xb0,
];
