// The nonce of CCM.
ghost use Rattle.std.specs.Prelude.{◌≡◌, ◌+◌, ◌++◌, length};

// The bytes of the salt.
pub(crate) const SALT: usize = 3;

// The bytes of the vector.
pub(crate) const VECTOR: usize = 8;

// The bytes of the nonce.
pub(crate) const NONCE: usize = SALT + VECTOR;

// `front` and then `back`, which fill a nonce.
pub(crate) fn joined(front: &[u8], back: &[u8]) -> [u8; NONCE]
    requires they_fill_it { length front.now + length back.now ≡ 11 }
    ensures front_then_back { result ≡ front.now ++ back.now }
{
    let mut nonce = [0; NONCE];
    let (first, second) = nonce.split_at_mut(front.len());
    first.copy_from_slice(front);
    second.copy_from_slice(back);
    nonce
}
