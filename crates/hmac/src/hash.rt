// A hash function, by its meaning: the digest of the bytes absorbed.
ghost use Rattle.std.specs.Prelude.{◌≡◌, ℕ, ◌≤◌, List, [], ◌++◌, length};
ghost use Rattle.octets.specs.Octets.{Octets, over};

// What a hash function does. HMAC is built on nothing else of it.
pub trait Hash: Sized {
    // the digest of a message
    ghost digest: { List ℕ → List ℕ };

    // `after h x` is the digest of what h has absorbed, followed by x
    ghost after: { Self → List ℕ → List ℕ };

    // the bytes in a block
    ghost block: { ℕ };

    // the bytes in a digest
    ghost size: { ℕ };

    // A hash that has absorbed nothing.
    fn new() -> Self
        ensures nothing_absorbed { (x : List ℕ) → after result x ≡ digest x };

    // Absorbs `part` after what came before.
    fn absorb(&mut self, part: &[u8])
        ensures absorbed { (x : List ℕ) → after self.new x ≡ after self.old (part.now ++ x) };

    // Writes the digest over the start of `out`, as far as `out` reaches.
    fn finish(self, out: &mut [u8])
        ensures digest_over_the_start { out.new ≡ over (after self []) out.old };

    // The bytes in a block.
    fn block_size() -> usize
        ensures told { result ≡ block };

    // The bytes in a digest.
    fn digest_size() -> usize
        ensures told { result ≡ size };

    ghost sized: { (x : List ℕ) → length (digest x) ≡ size };

    ghost bytes: { (x : List ℕ) → Octets (digest x) };

    ghost nonempty: { 1 ≤ size };

    ghost fitting: { size ≤ block };

    ghost bounded: { block ≤ 128 };
}
