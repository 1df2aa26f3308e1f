// SHA-1 and SHA-256: the example messages of FIPS 180-4, whole, in parts, and in many.
use published::{ABC, ALPHABET, EMPTY, MILLION, Message, Tally, Vector};
use sha::{Sha1, Sha256, sha1_digest, sha256_digest};
use std::io;

const ABC_SHA_1: Vector<Message> = Vector {
    name: "SHA-1, FIPS 180-4, \"abc\"",
    published: b"\xa9\x99\x3e\x36\x47\x06\x81\x6a\xba\x3e\x25\x71\x78\x50\xc2\x6c\
                 \x9c\xd0\xd8\x9d",
    ..ABC
};

const SHA_1: [Vector<Message>; 3] = [
    Vector {
        name: "SHA-1, FIPS 180-4, the empty message",
        published: b"\xda\x39\xa3\xee\x5e\x6b\x4b\x0d\x32\x55\xbf\xef\x95\x60\x18\x90\
                     \xaf\xd8\x07\x09",
        ..EMPTY
    },
    Vector {
        name: "SHA-1, FIPS 180-4, 56 bytes \"abcdbcde...nopq\"",
        published: b"\x84\x98\x3e\x44\x1c\x3b\xd2\x6e\xba\xae\x4a\xa1\xf9\x51\x29\xe5\
                     \xe5\x46\x70\xf1",
        ..ALPHABET
    },
    Vector {
        name: "SHA-1, FIPS 180-4, a million times \"a\" in parts of 1000",
        published: b"\x34\xaa\x97\x3c\xd4\xc4\xda\xa4\xf6\x1e\xeb\x2b\xdb\xad\x27\x31\
                     \x65\x34\x01\x6f",
        ..MILLION
    },
];

pub(crate) fn run(rt: &impl Print, tally: &mut Tally) -> io::Result<()> {
    let digest = sha1_digest(ABC_SHA_1.input.part);
    tally.compare(rt, ABC_SHA_1.name, "", &digest, ABC_SHA_1.published)?;
    published::run::<Sha1, _>(rt, tally, &SHA_1)?;
    let digest = sha256_digest(ABC.input.part);
    tally.compare(rt, ABC.name, "", &digest, ABC.published)?;
    published::run::<Sha256, _>(rt, tally, &[EMPTY, ALPHABET, MILLION])
}
