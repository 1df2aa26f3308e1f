// Writing over the start of a buffer, zeroing it, and comparing two.
ghost use Rattle.std.specs.Prelude.{◌≡◌, ◌+◌, length, nat_le, is_ok};
ghost use Rattle.octets.specs.Octets.{over, wiped, placed, same};

// Why bytes are not written: the buffer ends before they would.
#[derive(Clone, Copy, PartialEq, Eq, Debug)]
pub struct NoRoom;

// Writes `bytes` over the start of `out`, as far as `out` reaches.
pub fn copy_over(bytes: &[u8], out: &mut [u8])
    ensures bytes_then_old { out.new ≡ over bytes.now out.old }
{
    let front = bytes.len().min(out.len());
    out[..front].copy_from_slice(&bytes[..front]);
}

// Writes `bytes` at `at`, where they fit there.
pub fn copy_at(bytes: &[u8], out: &mut [u8], at: usize) -> Result<(), NoRoom>
    ensures whether_it_fits { is_ok result ≡ nat_le (at + length bytes.now) (length out.old) }
    ensures written { out.new ≡ placed at bytes.now out.old }
{
    let n = bytes.len();
    if out.len() < n || out.len() - n < at {
        return Err(NoRoom);
    }
    out[at..at + n].copy_from_slice(bytes);
    Ok(())
}

// Zeroes the first `n` bytes of `out`, or all where it is shorter.
pub fn zero_first(n: usize, out: &mut [u8])
    ensures zeros_then_old { out.new ≡ wiped n out.old }
{
    let front = n.min(out.len());
    out[..front].fill(0);
}

// Whether two slices hold the same bytes. Every byte is read, wherever the first difference is.
// Stays: `==` of slices may end at the first difference.
pub fn same_octets(a: &[u8], b: &[u8]) -> bool
    ensures whether_all_are_equal { result ≡ same a.now b.now }
{
    if a.len() != b.len() {
        return false;
    }
    let mut difference: u8 = 0;
    for (x, y) in a.iter().zip(b) {
        difference |= x ^ y;
    }
    difference == 0
}
