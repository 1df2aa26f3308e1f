// Triples that the standard bank serves, and others.
use codes::{
    AES_CBC, AES_CCM, AES_GCM, AUTH_COMBINED, AUTH_HMAC_SHA1_96, AUTH_HMAC_SHA2_256_128,
    AUTH_HMAC_SHA2_512_256, ENCR_NULL,
};
use suite::Triple;

pub(crate) const SERVED: [Triple; 8] = [
    Triple {
        encryption: ENCR_NULL,
        integrity: AUTH_HMAC_SHA1_96,
        key: 0,
    },
    Triple {
        encryption: ENCR_NULL,
        integrity: AUTH_HMAC_SHA2_256_128,
        key: 0,
    },
    Triple {
        encryption: AES_CBC,
        integrity: AUTH_HMAC_SHA1_96,
        key: 16,
    },
    Triple {
        encryption: AES_CBC,
        integrity: AUTH_HMAC_SHA1_96,
        key: 32,
    },
    Triple {
        encryption: AES_CBC,
        integrity: AUTH_HMAC_SHA2_256_128,
        key: 16,
    },
    Triple {
        encryption: AES_CBC,
        integrity: AUTH_HMAC_SHA2_256_128,
        key: 32,
    },
    Triple {
        encryption: AES_CCM,
        integrity: AUTH_COMBINED,
        key: 16,
    },
    Triple {
        encryption: AES_CCM,
        integrity: AUTH_COMBINED,
        key: 32,
    },
];

// A prohibited key, codes that do not go together, and codes that nothing serves yet.
pub(crate) const UNSERVED: [Triple; 6] = [
    Triple {
        encryption: AES_CBC,
        integrity: AUTH_HMAC_SHA1_96,
        key: 24,
    },
    Triple {
        encryption: AES_CBC,
        integrity: AUTH_COMBINED,
        key: 16,
    },
    Triple {
        encryption: AES_CCM,
        integrity: AUTH_HMAC_SHA2_256_128,
        key: 16,
    },
    Triple {
        encryption: ENCR_NULL,
        integrity: AUTH_HMAC_SHA1_96,
        key: 1,
    },
    Triple {
        encryption: AES_CBC,
        integrity: AUTH_HMAC_SHA2_512_256,
        key: 16,
    },
    Triple {
        encryption: AES_GCM,
        integrity: AUTH_COMBINED,
        key: 16,
    },
];
