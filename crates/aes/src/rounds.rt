// The rounds of the cipher and of the inverse cipher. The schedule has the round keys in a row, 16 bytes each.
ghost use Rattle.std.specs.Prelude.{◌≡◌};
ghost use Rattle.fips197.specs.State.{sub_bytes, shift_rows, mix_columns, add_round_key, inv_sub_bytes, inv_shift_rows, inv_mix_columns};
ghost use Rattle.aes.specs.Cipher.{forward, inverse};

use block::xor_over;
use fips197::{mix_columns, mix_columns_back, shift_and_sub_back, sub_and_shift};

// AddRoundKey.
#[tactic(auto, unfolding(fips197::specs::State::add_round_key))]
fn add_round_key(key: &[u8; 16], s: &mut [u8; 16])
    ensures round_key_added { s.new ≡ add_round_key key.now s.old }
{
    xor_over(key, s);
}

// A round of the cipher.
fn round(key: &[u8; 16], s: &mut [u8; 16])
    ensures one_round { s.new ≡ add_round_key key.now (mix_columns (shift_rows (sub_bytes s.old))) }
{
    sub_and_shift(s);
    mix_columns(s);
    add_round_key(key, s);
}

// The last round of the cipher, which does not mix the columns.
fn final_round(last_key: &[u8; 16], s: &mut [u8; 16])
    ensures last_round { s.new ≡ add_round_key last_key.now (shift_rows (sub_bytes s.old)) }
{
    sub_and_shift(s);
    add_round_key(last_key, s);
}

// The cipher, if the schedule has two round keys at least.
pub(crate) fn encipher(schedule: &[u8], s: &mut [u8; 16])
    ensures enciphered { s.new ≡ forward schedule.now s.old }
{
    if let [first, middle @ .., last] = schedule.as_chunks::<16>().0 {
        add_round_key(first, s);
        for key in middle {
            round(key, s);
        }
        final_round(last, s);
    }
}

// A round of the inverse cipher.
fn round_back(key: &[u8; 16], s: &mut [u8; 16])
    ensures one_round_back { s.new ≡ inv_mix_columns (add_round_key key.now (inv_sub_bytes (inv_shift_rows s.old))) }
{
    shift_and_sub_back(s);
    add_round_key(key, s);
    mix_columns_back(s);
}

// The last round of the inverse cipher.
fn final_round_back(key: &[u8; 16], s: &mut [u8; 16])
    ensures last_round_back { s.new ≡ add_round_key key.now (inv_sub_bytes (inv_shift_rows s.old)) }
{
    shift_and_sub_back(s);
    add_round_key(key, s);
}

// The inverse cipher, if the schedule has two round keys at least.
pub(crate) fn decipher(schedule: &[u8], s: &mut [u8; 16])
    ensures deciphered { s.new ≡ inverse schedule.now s.old }
{
    if let [first, middle @ .., last] = schedule.as_chunks::<16>().0 {
        add_round_key(last, s);
        for key in middle.iter().rev() {
            round_back(key, s);
        }
        final_round_back(first, s);
    }
}
