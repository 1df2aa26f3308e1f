// SHA-1: its compression function, which makes the rounds of a chain.
ghost use Rattle.std.specs.Prelude.{◌≡◌, ℕ, ◌<◌, ◌≤◌, length, slice_index, slice_index_or};
ghost use Rattle.std.proofs.Math.Path.{refl};
ghost use Rattle.chaining.specs.Turns.{turns};
ghost use Rattle.sha.specs.Sha1.{Parity, f, K, IsQuarter, initial, expanded, W, round, rounds, compressed};
ghost use Rattle.std.proofs.Common.{rules};

use chaining::{Chain, Compression, HashValue, block_words, choice, majority};

// The constants of the rounds, one for each quarter of them.
const ROUND_CONSTANTS: [u32; 4] = [0x5a827999, 0x6ed9eba1, 0x8f1bbcdc, 0xca62c1d6];

// The hash value before the first block.
const INITIAL_HASH_VALUE: [u32; 5] = [0x67452301, 0xefcdab89, 0x98badcfe, 0x10325476, 0xc3d2e1f0];

// SHA-1's compression function.
#[derive(Drop)]
pub struct Sha1Compression;

// The hash value of the blocks so far.
pub type Sha1Rounds = HashValue<Sha1Compression, 5>;

// SHA-1 of a message that comes in parts.
pub type Sha1 = Chain<Sha1Rounds>;

impl Compression<5> for Sha1Compression {
    ghost initial = { initial };

    ghost mixed = { λ v block. rounds (W block) v };

    ghost compressed = { compressed };

    ghost sums = { unfold compressed in λ v block. refl };

    ghost initial_count = { Prim.search rules };

    ghost nonempty = { Prim.search rules };

    ghost bounded = { Prim.search rules };

    fn initial_value() -> [u32; 5] {
        INITIAL_HASH_VALUE
    }

    fn mix(v: &mut [u32; 5], block: &[u8; 64]) {
        rounds(v, &schedule(block));
    }
}

// FIPS 180-4's Parity.
fn parity(x: u32, y: u32, z: u32) -> u32
    ensures odd_bits { result ≡ Parity x y z }
{
    x ^ y ^ z
}

// The word at place `t` of the message schedule, from 16 on, from words before it.
fn expanded(w: &[u32; 80], t: usize) -> u32
    requires behind_the_block { 16 ≤ t }
    requires within { t < 80 }
    ensures next_word { result ≡ expanded w.now t }
{
    (w[t - 3] ^ w[t - 8] ^ w[t - 14] ^ w[t - 16]).rotate_left(1)
}

// The message schedule of a block.
fn schedule(block: &[u8; 64]) -> [u32; 80]
    ensures all_words { result ≡ W block.now }
{
    let mut w = [0; 80];
    w[..16].copy_from_slice(&block_words(block));
    // Stays: the standard's recurrence gives each word by its place, from those at places before it.
    for t in 16..80 {
        w[t] = expanded(&w, t);
    }
    w
}

// One round on the working variables: `mixed` is what the function of the round's quarter gives of three of them.
fn round(v: &mut [u32; 5], mixed: u32, constant: u32, word: u32)
    ensures one_round { (quarter : ℕ) → mixed ≡ f quarter (slice_index_or v.old 1 0) (slice_index_or v.old 2 0) (slice_index_or v.old 3 0) → constant ≡ slice_index K quarter → v.new ≡ round quarter word v.old }
{
    let [a, b, c, d, e] = *v;
    let t = a
        .rotate_left(5)
        .wrapping_add(mixed)
        .wrapping_add(e)
        .wrapping_add(constant)
        .wrapping_add(word);
    *v = [t, a, b.rotate_left(30), c, d];
}

// The rounds of a quarter on the working variables, one with each of its words of the message schedule. The quarter gives the
// function that mixes three of the variables, and the constant.
fn quarter_rounds<F: Fn(u32, u32, u32) -> u32>(
    v: &mut [u32; 5],
    mixed: F,
    constant: u32,
    words: &[u32],
)
    requires callable { F.IsAlwaysCallable mixed }
    ensures a_round_each_word { (quarter : ℕ) → IsQuarter quarter (F.post mixed) constant → v.new ≡ turns (λ t. round quarter (slice_index words.now t)) (length words.now) v.old }
{
    for word in words {
        let [_, b, c, d, _] = *v;
        round(v, mixed(b, c, d), constant, *word);
    }
}

// The 80 rounds on the working variables, with the message schedule `w`.
fn rounds(v: &mut [u32; 5], w: &[u32; 80])
    ensures all_rounds { v.new ≡ rounds w.now v.old }
{
    // A function of another crate goes into a closure: the prover has its contract at calls only.
    quarter_rounds(v, |x, y, z| choice(x, y, z), ROUND_CONSTANTS[0], &w[..20]);
    quarter_rounds(v, parity, ROUND_CONSTANTS[1], &w[20..40]);
    quarter_rounds(
        v,
        |x, y, z| majority(x, y, z),
        ROUND_CONSTANTS[2],
        &w[40..60],
    );
    quarter_rounds(v, parity, ROUND_CONSTANTS[3], &w[60..]);
}
