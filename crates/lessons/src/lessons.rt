// What the program makes and opens: a descriptor under each suite of the standard bank.
use descriptor::Protection;
use layout::Form;
use suite::Triple;
use suites::{
    AES_CBC, AES_CCM, AUTH_COMBINED, AUTH_HMAC_SHA1_96, AUTH_HMAC_SHA2_256_128, ENCR_NULL,
};
use workbench::Lesson;

// Keys for the lesson, the same in every run.
const KEY_16: &[u8] = b"a key of 16 byte";

const KEY_32: &[u8] = b"a longer key, it has 32 bytes...";

const INTEGRITY_20: &[u8] = b"an integrity key, 20";

const INTEGRITY_32: &[u8] = b"an integrity key for the lesson.";

const SALT: &[u8] = b"\x51\x52\x53";

// Vectors. In use, none is taken twice under a key.
const VECTOR_16: &[u8] = b"\xa0\xa1\xa2\xa3\xa4\xa5\xa6\xa7\xa8\xa9\xaa\xab\xac\xad\xae\xaf";

const VECTOR_8: &[u8] = b"\xc0\xc1\xc2\xc3\xc4\xc5\xc6\xc7";

const HELLO: &[u8] = b"hello";

pub(crate) const LESSONS: [Lesson; 7] = [
    Lesson {
        title: "ENCR_NULL with AUTH_HMAC_SHA1_96, long form",
        form: Form::Long,
        protection: Protection {
            triple: Triple {
                encryption: ENCR_NULL,
                integrity: AUTH_HMAC_SHA1_96,
                key: 0,
            },
            key: &[],
            salt: &[],
            integrity: INTEGRITY_20,
        },
        vector: &[],
        plain: HELLO,
    },
    Lesson {
        title: "ENCR_NULL with AUTH_HMAC_SHA2_256_128, long form",
        form: Form::Long,
        protection: Protection {
            triple: Triple {
                encryption: ENCR_NULL,
                integrity: AUTH_HMAC_SHA2_256_128,
                key: 0,
            },
            key: &[],
            salt: &[],
            integrity: INTEGRITY_32,
        },
        vector: &[],
        plain: HELLO,
    },
    Lesson {
        title: "ENCR_NULL with AUTH_HMAC_SHA2_256_128, short form",
        form: Form::Short,
        protection: Protection {
            triple: Triple {
                encryption: ENCR_NULL,
                integrity: AUTH_HMAC_SHA2_256_128,
                key: 0,
            },
            key: &[],
            salt: &[],
            integrity: INTEGRITY_32,
        },
        vector: &[],
        plain: HELLO,
    },
    Lesson {
        title: "AES-CBC with a key of 16 bytes and AUTH_HMAC_SHA1_96, long form",
        form: Form::Long,
        protection: Protection {
            triple: Triple {
                encryption: AES_CBC,
                integrity: AUTH_HMAC_SHA1_96,
                key: 16,
            },
            key: KEY_16,
            salt: &[],
            integrity: INTEGRITY_20,
        },
        vector: VECTOR_16,
        plain: HELLO,
    },
    Lesson {
        title: "AES-CBC with a key of 32 bytes and AUTH_HMAC_SHA2_256_128, long form",
        form: Form::Long,
        protection: Protection {
            triple: Triple {
                encryption: AES_CBC,
                integrity: AUTH_HMAC_SHA2_256_128,
                key: 32,
            },
            key: KEY_32,
            salt: &[],
            integrity: INTEGRITY_32,
        },
        vector: VECTOR_16,
        plain: HELLO,
    },
    Lesson {
        title: "AES-CCM with a key of 16 bytes, short form",
        form: Form::Short,
        protection: Protection {
            triple: Triple {
                encryption: AES_CCM,
                integrity: AUTH_COMBINED,
                key: 16,
            },
            key: KEY_16,
            salt: SALT,
            integrity: &[],
        },
        vector: VECTOR_8,
        plain: b"fourteen bytes",
    },
    Lesson {
        title: "AES-CCM with a key of 32 bytes, long form",
        form: Form::Long,
        protection: Protection {
            triple: Triple {
                encryption: AES_CCM,
                integrity: AUTH_COMBINED,
                key: 32,
            },
            key: KEY_32,
            salt: SALT,
            integrity: &[],
        },
        vector: VECTOR_8,
        plain: HELLO,
    },
];
