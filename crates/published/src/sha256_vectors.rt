// SHA-256: the example messages of FIPS 180-4; HMAC over it: the test cases of RFC 4231, and of RFC 4868 for its check value of 128 bits.
use crate::input::{Keyed, Message};
use crate::vector::Vector;

pub const EMPTY: Vector<Message> = Vector {
    name: "SHA-256, FIPS 180-4, the empty message",
    input: Message {
        part: b"",
        times: 1,
    },
    published: b"\xe3\xb0\xc4\x42\x98\xfc\x1c\x14\x9a\xfb\xf4\xc8\x99\x6f\xb9\x24\
                 \x27\xae\x41\xe4\x64\x9b\x93\x4c\xa4\x95\x99\x1b\x78\x52\xb8\x55",
};

pub const ABC: Vector<Message> = Vector {
    name: "SHA-256, FIPS 180-4, \"abc\"",
    input: Message {
        part: b"abc",
        times: 1,
    },
    published: b"\xba\x78\x16\xbf\x8f\x01\xcf\xea\x41\x41\x40\xde\x5d\xae\x22\x23\
                 \xb0\x03\x61\xa3\x96\x17\x7a\x9c\xb4\x10\xff\x61\xf2\x00\x15\xad",
};

pub const ALPHABET: Vector<Message> = Vector {
    name: "SHA-256, FIPS 180-4, 56 bytes \"abcdbcde...nopq\"",
    input: Message {
        part: b"abcdbcdecdefdefgefghfghighijhijkijkljklmklmnlmnomnopnopq",
        times: 1,
    },
    published: b"\x24\x8d\x6a\x61\xd2\x06\x38\xb8\xe5\xc0\x26\x93\x0c\x3e\x60\x39\
                 \xa3\x3c\xe4\x59\x64\xff\x21\x67\xf6\xec\xed\xd4\x19\xdb\x06\xc1",
};

pub const MILLION: Vector<Message> = Vector {
    name: "SHA-256, FIPS 180-4, a million times \"a\" in parts of 1000",
    input: Message {
        part: &[b'a'; 1000],
        times: 1000,
    },
    published: b"\xcd\xc7\x6e\x5c\x99\x14\xfb\x92\x81\xa1\xc7\xe2\x84\xd7\x3e\x67\
                 \xf1\x80\x9a\x48\xa4\x97\x20\x0e\x04\x6d\x39\xcc\xc7\x11\x2c\xd0",
};

pub const HMAC_SHA_256: [Vector<Keyed>; 11] = [
    Vector {
        name: "HMAC-SHA-256, RFC 4231, test case 1",
        input: Keyed {
            key: &[0x0b; 20],
            message: b"Hi There",
        },
        published: b"\xb0\x34\x4c\x61\xd8\xdb\x38\x53\x5c\xa8\xaf\xce\xaf\x0b\xf1\x2b\
                 \x88\x1d\xc2\x00\xc9\x83\x3d\xa7\x26\xe9\x37\x6c\x2e\x32\xcf\xf7",
    },
    Vector {
        name: "HMAC-SHA-256, RFC 4231, test case 2",
        input: Keyed {
            key: b"Jefe",
            message: b"what do ya want for nothing?",
        },
        published: b"\x5b\xdc\xc1\x46\xbf\x60\x75\x4e\x6a\x04\x24\x26\x08\x95\x75\xc7\
                 \x5a\x00\x3f\x08\x9d\x27\x39\x83\x9d\xec\x58\xb9\x64\xec\x38\x43",
    },
    Vector {
        name: "HMAC-SHA-256, RFC 4231, test case 3",
        input: Keyed {
            key: &[0xaa; 20],
            message: &[0xdd; 50],
        },
        published: b"\x77\x3e\xa9\x1e\x36\x80\x0e\x46\x85\x4d\xb8\xeb\xd0\x91\x81\xa7\
                 \x29\x59\x09\x8b\x3e\xf8\xc1\x22\xd9\x63\x55\x14\xce\xd5\x65\xfe",
    },
    Vector {
        name: "HMAC-SHA-256, RFC 4231, test case 4",
        input: Keyed {
            key: b"\x01\x02\x03\x04\x05\x06\x07\x08\x09\x0a\x0b\x0c\x0d\x0e\x0f\x10\
               \x11\x12\x13\x14\x15\x16\x17\x18\x19",
            message: &[0xcd; 50],
        },
        published: b"\x82\x55\x8a\x38\x9a\x44\x3c\x0e\xa4\xcc\x81\x98\x99\xf2\x08\x3a\
                 \x85\xf0\xfa\xa3\xe5\x78\xf8\x07\x7a\x2e\x3f\xf4\x67\x29\x66\x5b",
    },
    Vector {
        name: "HMAC-SHA-256, RFC 4231, test case 5",
        input: Keyed {
            key: &[0x0c; 20],
            message: b"Test With Truncation",
        },
        published: b"\xa3\xb6\x16\x74\x73\x10\x0e\xe0\x6e\x0c\x79\x6c\x29\x55\x55\x2b",
    },
    Vector {
        name: "HMAC-SHA-256, RFC 4231, test case 6",
        input: Keyed {
            key: &[0xaa; 131],
            message: b"Test Using Larger Than Block-Size Key - Hash Key First",
        },
        published: b"\x60\xe4\x31\x59\x1e\xe0\xb6\x7f\x0d\x8a\x26\xaa\xcb\xf5\xb7\x7f\
                 \x8e\x0b\xc6\x21\x37\x28\xc5\x14\x05\x46\x04\x0f\x0e\xe3\x7f\x54",
    },
    Vector {
        name: "HMAC-SHA-256, RFC 4231, test case 7",
        input: Keyed {
            key: &[0xaa; 131],
            message: b"This is a test using a larger than block-size key and a larger than \
                   block-size data. The key needs to be hashed before being used by the \
                   HMAC algorithm.",
        },
        published: b"\x9b\x09\xff\xa7\x1b\x94\x2f\xcb\x27\x63\x5f\xbc\xd5\xb0\xe9\x44\
                 \xbf\xdc\x63\x64\x4f\x07\x13\x93\x8a\x7f\x51\x53\x5c\x3a\x35\xe2",
    },
    Vector {
        name: "HMAC-SHA-256-128, RFC 4868, AUTH256-1",
        input: Keyed {
            key: &[0x0b; 32],
            message: b"Hi There",
        },
        published: b"\x19\x8a\x60\x7e\xb4\x4b\xfb\xc6\x99\x03\xa0\xf1\xcf\x2b\xbd\xc5",
    },
    Vector {
        name: "HMAC-SHA-256-128, RFC 4868, AUTH256-2",
        input: Keyed {
            key: b"JefeJefeJefeJefeJefeJefeJefeJefe",
            message: b"what do ya want for nothing?",
        },
        published: b"\x16\x7f\x92\x85\x88\xc5\xcc\x2e\xef\x8e\x30\x93\xca\xa0\xe8\x7c",
    },
    Vector {
        name: "HMAC-SHA-256-128, RFC 4868, AUTH256-3",
        input: Keyed {
            key: &[0xaa; 32],
            message: &[0xdd; 50],
        },
        published: b"\xcd\xcb\x12\x20\xd1\xec\xcc\xea\x91\xe5\x3a\xba\x30\x92\xf9\x62",
    },
    Vector {
        name: "HMAC-SHA-256-128, RFC 4868, AUTH256-4",
        input: Keyed {
            key: b"\x01\x02\x03\x04\x05\x06\x07\x08\x09\x0a\x0b\x0c\x0d\x0e\x0f\x10\
               \x11\x12\x13\x14\x15\x16\x17\x18\x19\x1a\x1b\x1c\x1d\x1e\x1f\x20",
            message: &[0xcd; 50],
        },
        published: b"\x37\x2e\xfc\xf9\xb4\x0b\x35\xc2\x11\x5b\x13\x46\x90\x3d\x2e\xf4",
    },
];
