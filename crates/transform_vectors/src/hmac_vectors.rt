// HMAC: the test cases of RFC 2202 for SHA-1, of RFC 4231 for SHA-256, and of RFC 4868 for its check value of 128 bits.
use published::{HMAC_SHA_256, Keyed, Tally, Vector};
use sha::{Sha1, Sha256};
use std::io;

const HMAC_SHA_1: [Vector<Keyed>; 7] = [
    Vector {
        name: "HMAC-SHA-1, RFC 2202, test case 1",
        input: Keyed {
            key: &[0x0b; 20],
            message: b"Hi There",
        },
        published: b"\xb6\x17\x31\x86\x55\x05\x72\x64\xe2\x8b\xc0\xb6\xfb\x37\x8c\x8e\
                 \xf1\x46\xbe\x00",
    },
    Vector {
        name: "HMAC-SHA-1, RFC 2202, test case 2",
        input: Keyed {
            key: b"Jefe",
            message: b"what do ya want for nothing?",
        },
        published: b"\xef\xfc\xdf\x6a\xe5\xeb\x2f\xa2\xd2\x74\x16\xd5\xf1\x84\xdf\x9c\
                 \x25\x9a\x7c\x79",
    },
    Vector {
        name: "HMAC-SHA-1, RFC 2202, test case 3",
        input: Keyed {
            key: &[0xaa; 20],
            message: &[0xdd; 50],
        },
        published: b"\x12\x5d\x73\x42\xb9\xac\x11\xcd\x91\xa3\x9a\xf4\x8a\xa1\x7b\x4f\
                 \x63\xf1\x75\xd3",
    },
    Vector {
        name: "HMAC-SHA-1, RFC 2202, test case 4",
        input: Keyed {
            key: b"\x01\x02\x03\x04\x05\x06\x07\x08\x09\x0a\x0b\x0c\x0d\x0e\x0f\x10\
               \x11\x12\x13\x14\x15\x16\x17\x18\x19",
            message: &[0xcd; 50],
        },
        published: b"\x4c\x90\x07\xf4\x02\x62\x50\xc6\xbc\x84\x14\xf9\xbf\x50\xc8\x6c\
                 \x2d\x72\x35\xda",
    },
    Vector {
        name: "HMAC-SHA-1, RFC 2202, test case 5",
        input: Keyed {
            key: &[0x0c; 20],
            message: b"Test With Truncation",
        },
        published: b"\x4c\x1a\x03\x42\x4b\x55\xe0\x7f\xe7\xf2\x7b\xe1\xd5\x8b\xb9\x32\
                 \x4a\x9a\x5a\x04",
    },
    Vector {
        name: "HMAC-SHA-1, RFC 2202, test case 6",
        input: Keyed {
            key: &[0xaa; 80],
            message: b"Test Using Larger Than Block-Size Key - Hash Key First",
        },
        published: b"\xaa\x4a\xe5\xe1\x52\x72\xd0\x0e\x95\x70\x56\x37\xce\x8a\x3b\x55\
                 \xed\x40\x21\x12",
    },
    Vector {
        name: "HMAC-SHA-1, RFC 2202, test case 7",
        input: Keyed {
            key: &[0xaa; 80],
            message: b"\x54\x65\x73\x74\x20\x55\x73\x69\x6e\x67\x20\x4c\x61\x72\x67\x65\
                   \x72\x20\x54\x68\x61\x6e\x20\x42\x6c\x6f\x63\x6b\x2d\x53\x69\x7a\
                   \x65\x20\x4b\x65\x79\x20\x61\x6e\x64\x20\x4c\x61\x72\x67\x65\x72\
                   \x20\x54\x68\x61\x6e\x20\x4f\x6e\x65\x20\x42\x6c\x6f\x63\x6b\x2d\
                   \x53\x69\x7a\x65\x20\x44\x61\x74\x61",
        },
        published: b"\xe8\xe9\x9d\x0f\x45\x23\x7d\x78\x6d\x6b\xba\xa7\x96\x5c\x78\x08\
                 \xbb\xff\x1a\x91",
    },
];

pub(crate) fn run(rt: &impl Print, tally: &mut Tally) -> io::Result<()> {
    published::run::<Sha1, _>(rt, tally, &HMAC_SHA_1)?;
    published::run::<Sha256, _>(rt, tally, &HMAC_SHA_256)
}
