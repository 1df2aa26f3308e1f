// What the steps of one call work with.
ghost use Rattle.std.specs.Prelude.{◌≤◌, length};

use block::BlockCipher;
use std::marker::PhantomData;

// A key's schedule under the cipher `B`, a nonce, the associated data, and how many bytes the check value has. The lengths of
// the nonce and of the check value were tested.
#[derive(Drop)]
pub(crate) struct Packet<'a, B: BlockCipher> {
    pub(crate) schedule: &'a [u8],
    pub(crate) nonce: &'a [u8],
    pub(crate) aad: &'a [u8],
    pub(crate) check: usize,
    pub(crate) cipher: PhantomData<B>,
    ghost nonce_at_least: { 7 ≤ length nonce.now },
    ghost nonce_at_most: { length nonce.now ≤ 13 },
    ghost check_at_least: { 4 ≤ check },
    ghost check_at_most: { check ≤ 16 },
}
