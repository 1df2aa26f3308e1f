// The transformations of the state, which is 16 bytes, column by column.
ghost use Rattle.std.specs.Prelude.{◌≡◌, ℕ, ◌*◌, ◌%◌, ◌<◌, map, bit_xor, slice_index};
ghost use Rattle.std.specs.List.{range_with_len};
ghost use Rattle.fips197.specs.Field.{xtime};
ghost use Rattle.fips197.specs.State.{mixed, mix_by, sub_bytes, inv_sub_bytes, shift_rows, inv_shift_rows, mix_columns, inv_mix_columns};
ghost use Rattle.fips197.specs.Calls.{Replaces, Mixes};

use crate::field::{times_03, xtime};
use crate::inv_s_box::inv_sub_byte;
use crate::s_box::sub_byte;

// Replaces each byte by `replace`'s for the byte `STEP` times as far from the first, round the end: ShiftRows brings there the
// byte 5 times as far, and InvShiftRows the byte 13 times as far.
fn replace_shifted<const STEP: usize, F: Fn(u8) -> u8>(s: &mut [u8; 16], replace: F)
    requires round_the_end { STEP < 16 }
    requires takes_every_byte { F.IsAlwaysCallable replace }
    ensures each_byte { (h : ℕ → ℕ) → Replaces F.Fn replace h → s.new ≡ map (λ k. h (slice_index s.old (STEP * k % 16))) (range_with_len 0 16) }
{
    *s = [
        replace(s[0]),
        replace(s[STEP]),
        replace(s[STEP * 2 % 16]),
        replace(s[STEP * 3 % 16]),
        replace(s[STEP * 4 % 16]),
        replace(s[STEP * 5 % 16]),
        replace(s[STEP * 6 % 16]),
        replace(s[STEP * 7 % 16]),
        replace(s[STEP * 8 % 16]),
        replace(s[STEP * 9 % 16]),
        replace(s[STEP * 10 % 16]),
        replace(s[STEP * 11 % 16]),
        replace(s[STEP * 12 % 16]),
        replace(s[STEP * 13 % 16]),
        replace(s[STEP * 14 % 16]),
        replace(s[STEP * 15 % 16]),
    ];
}

// SubBytes, then ShiftRows.
pub fn sub_and_shift(s: &mut [u8; 16])
    ensures substituted_then_shifted { s.new ≡ shift_rows (sub_bytes s.old) }
{
    replace_shifted::<5, _>(s, sub_byte);
}

// InvShiftRows, then InvSubBytes.
pub fn shift_and_sub_back(s: &mut [u8; 16])
    ensures shifted_then_substituted_back { s.new ≡ inv_sub_bytes (inv_shift_rows s.old) }
{
    replace_shifted::<13, _>(s, inv_sub_byte);
}

// Replaces each byte by what `mix` makes of its column from it on, round the end.
fn mix_by<F: Fn(u8, u8, u8, u8) -> u8>(s: &mut [u8; 16], mix: F)
    requires takes_every_column { F.IsAlwaysCallable mix }
    ensures columns_mixed { (h : ℕ → ℕ → ℕ → ℕ → ℕ) → Mixes F.Fn mix h → s.new ≡ mix_by h s.old }
{
    *s = [
        mix(s[0], s[1], s[2], s[3]),
        mix(s[1], s[2], s[3], s[0]),
        mix(s[2], s[3], s[0], s[1]),
        mix(s[3], s[0], s[1], s[2]),
        mix(s[4], s[5], s[6], s[7]),
        mix(s[5], s[6], s[7], s[4]),
        mix(s[6], s[7], s[4], s[5]),
        mix(s[7], s[4], s[5], s[6]),
        mix(s[8], s[9], s[10], s[11]),
        mix(s[9], s[10], s[11], s[8]),
        mix(s[10], s[11], s[8], s[9]),
        mix(s[11], s[8], s[9], s[10]),
        mix(s[12], s[13], s[14], s[15]),
        mix(s[13], s[14], s[15], s[12]),
        mix(s[14], s[15], s[12], s[13]),
        mix(s[15], s[12], s[13], s[14]),
    ];
}

// The first byte of a column once it is mixed.
fn mixed(a: u8, b: u8, c: u8, d: u8) -> u8
    ensures sum_of_products { result ≡ mixed a b c d }
{
    xtime(a) ^ times_03(b) ^ c ^ d
}

// MixColumns.
pub fn mix_columns(s: &mut [u8; 16])
    ensures columns_mixed { s.new ≡ mix_columns s.old }
{
    mix_by(s, mixed);
}

// The byte a of a column, plus 04 times the sum of it and the byte c, two rows from it.
fn prepared(a: u8, c: u8) -> u8
    ensures plus_04_times_the_sum { result ≡ bit_xor a (xtime (xtime (bit_xor a c))) }
{
    a ^ xtime(xtime(a ^ c))
}

// InvMixColumns: once each column is prepared, it is mixed back by mixing it.
pub fn mix_columns_back(s: &mut [u8; 16])
    ensures columns_mixed_back { s.new ≡ inv_mix_columns s.old }
{
    mix_by(s, |a, _, c, _| prepared(a, c));
    mix_columns(s);
}
