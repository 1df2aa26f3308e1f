// Big-endian numbers at a place of a slice.
ghost use Rattle.std.specs.Prelude.{◌≡◌, ℕ, ◌+◌, List, length, nat_le, is_ok, refl};
ghost use Rattle.octets.specs.Numbers.{big_endian, number, field_of, array_of};
ghost use Rattle.octets.specs.Octets.{placed};

use crate::buffers::{NoRoom, copy_at};

// A number of a fixed width, written with the most significant byte first.
pub trait Number: Sized {
    // how many bytes a number has
    ghost width: { ℕ };

    // the number that the bytes write
    ghost from_bytes: { List ℕ → Self };

    // the bytes of a number
    ghost to_bytes: { Self → List ℕ };

    // The number at `at`, if its bytes are all there.
    fn read(bytes: &[u8], at: usize) -> Option<Self>
        ensures the_field { result ≡ field_of width from_bytes bytes.now at };

    // Writes the number at `at`, where it fits there.
    fn write(self, out: &mut [u8], at: usize) -> Result<(), NoRoom>
        ensures whether_it_fits { is_ok result ≡ nat_le (at + width) (length out.old) }
        ensures written { out.new ≡ placed at (to_bytes self) out.old };

    ghost bytes_fill_the_width: { (n : Self) → length (to_bytes n) ≡ width };
}

impl Number for u16 {
    ghost width = { 2 };

    ghost from_bytes = { number };

    ghost to_bytes = { big_endian 2 };

    ghost bytes_fill_the_width = { λ n. refl };

    fn read(bytes: &[u8], at: usize) -> Option<u16> {
        array_at(bytes, at).map(u16::from_be_bytes)
    }

    fn write(self, out: &mut [u8], at: usize) -> Result<(), NoRoom> {
        copy_at(&u16::to_be_bytes(self), out, at)
    }
}

impl Number for u32 {
    ghost width = { 4 };

    ghost from_bytes = { number };

    ghost to_bytes = { big_endian 4 };

    ghost bytes_fill_the_width = { λ n. refl };

    fn read(bytes: &[u8], at: usize) -> Option<u32> {
        array_at(bytes, at).map(u32::from_be_bytes)
    }

    fn write(self, out: &mut [u8], at: usize) -> Result<(), NoRoom> {
        copy_at(&u32::to_be_bytes(self), out, at)
    }
}

impl Number for u64 {
    ghost width = { 8 };

    ghost from_bytes = { number };

    ghost to_bytes = { big_endian 8 };

    ghost bytes_fill_the_width = { λ n. refl };

    fn read(bytes: &[u8], at: usize) -> Option<u64> {
        array_at(bytes, at).map(u64::from_be_bytes)
    }

    fn write(self, out: &mut [u8], at: usize) -> Result<(), NoRoom> {
        copy_at(&u64::to_be_bytes(self), out, at)
    }
}

// The `N` bytes at `at`, if they are all there.
pub fn array_at<const N: usize>(bytes: &[u8], at: usize) -> Option<[u8; N]>
    ensures the_bytes_there { result ≡ array_of N bytes.now at }
{
    bytes.get(at..)?.first_chunk().copied()
}
