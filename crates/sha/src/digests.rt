// A whole message digested in one call.
ghost use Rattle.std.specs.Prelude.{◌≡◌};
ghost use Rattle.sha.specs.Digests.{sha1, sha256};

use crate::sha1::Sha1;
use crate::sha256::Sha256;
use hmac::{Hash, digest_over};

// The SHA-1 digest of a message.
pub fn sha1_digest(message: &[u8]) -> [u8; 20]
    ensures the_digest { result ≡ sha1 message.now }
{
    digest::<Sha1, 20>(message)
}

// The SHA-256 digest of a message.
pub fn sha256_digest(message: &[u8]) -> [u8; 32]
    ensures the_digest { result ≡ sha256 message.now }
{
    digest::<Sha256, 32>(message)
}

// The digest of a message under a hash with digests of N bytes.
fn digest<H: Hash, const N: usize>(message: &[u8]) -> [u8; N]
    requires digest_size { N ≡ H.size }
    ensures the_digest { result ≡ H.digest message.now }
{
    let mut digest = [0; N];
    digest_over::<H>(message, &mut digest);
    digest
}
