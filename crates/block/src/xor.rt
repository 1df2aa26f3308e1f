// The exclusive or of bytes.
ghost use Rattle.std.specs.Prelude.{◌≡◌};
ghost use Rattle.block.specs.Xor.{xored};

// Adds `bytes` to the start of `out` by exclusive or, as far as both reach.
pub fn xor_over(bytes: &[u8], out: &mut [u8])
    ensures sums_then_old { out.new ≡ xored out.old bytes.now }
{
    let front = bytes.len().min(out.len());
    // Stays: the place in `out` is counted, since after a `zip` with `iter_mut` a proof knows no more of it than its length.
    for (i, b) in bytes[..front].iter().enumerate() {
        out[i] ^= b;
    }
}
