// SHA-256: the example messages of FIPS 180-4, whole and in parts.
use hmac::Hash;
use published::{ABC, ALPHABET, EMPTY, MILLION, Tally};
use sha::{Sha256, sha256_digest};
use std::io;

pub(crate) fn run(rt: &impl Print, tally: &mut Tally) -> io::Result<()> {
    for whole in [EMPTY, ABC, ALPHABET] {
        let digest = sha256_digest(whole.input.part);
        tally.compare(rt, whole.name, "", &digest, whole.published)?;
    }
    let digest = digest_by_bytes(ABC.input.part);
    tally.compare(rt, ABC.name, " a byte at a time", &digest, ABC.published)?;
    published::run::<Sha256, _>(rt, tally, &[MILLION])
}

// The digest of a message that is absorbed a byte at a time.
fn digest_by_bytes(message: &[u8]) -> [u8; 32] {
    let mut hash = Sha256::new();
    for byte in message.chunks(1) {
        hash.absorb(byte);
    }
    let mut digest = [0; 32];
    hash.finish(&mut digest);
    digest
}
