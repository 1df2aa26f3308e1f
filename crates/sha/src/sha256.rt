// SHA-256: its compression function, which makes the rounds of a chain.
ghost use Rattle.std.specs.Prelude.{◌≡◌, ◌+◌, ◌<◌, ◌≤◌, slice_index};
ghost use Rattle.std.proofs.Math.Path.{refl};
ghost use Rattle.chaining.specs.Turns.{turns};
ghost use Rattle.sha.specs.Sha256.{Σ₀, Σ₁, σ₀, σ₁, K, initial, expanded, extended, W, round, rounds, compressed};
ghost use Rattle.std.proofs.Common.{rules};

use chaining::{Chain, Compression, HashValue, block_words, choice, majority};

// The constants of the 64 rounds.
const ROUND_CONSTANTS: [u32; 64] = [
    0x428a2f98, 0x71374491, 0xb5c0fbcf, 0xe9b5dba5, 0x3956c25b, 0x59f111f1, 0x923f82a4, 0xab1c5ed5,
    0xd807aa98, 0x12835b01, 0x243185be, 0x550c7dc3, 0x72be5d74, 0x80deb1fe, 0x9bdc06a7, 0xc19bf174,
    0xe49b69c1, 0xefbe4786, 0x0fc19dc6, 0x240ca1cc, 0x2de92c6f, 0x4a7484aa, 0x5cb0a9dc, 0x76f988da,
    0x983e5152, 0xa831c66d, 0xb00327c8, 0xbf597fc7, 0xc6e00bf3, 0xd5a79147, 0x06ca6351, 0x14292967,
    0x27b70a85, 0x2e1b2138, 0x4d2c6dfc, 0x53380d13, 0x650a7354, 0x766a0abb, 0x81c2c92e, 0x92722c85,
    0xa2bfe8a1, 0xa81a664b, 0xc24b8b70, 0xc76c51a3, 0xd192e819, 0xd6990624, 0xf40e3585, 0x106aa070,
    0x19a4c116, 0x1e376c08, 0x2748774c, 0x34b0bcb5, 0x391c0cb3, 0x4ed8aa4a, 0x5b9cca4f, 0x682e6ff3,
    0x748f82ee, 0x78a5636f, 0x84c87814, 0x8cc70208, 0x90befffa, 0xa4506ceb, 0xbef9a3f7, 0xc67178f2,
];

// The hash value before the first block.
const INITIAL_HASH_VALUE: [u32; 8] = [
    0x6a09e667, 0xbb67ae85, 0x3c6ef372, 0xa54ff53a, 0x510e527f, 0x9b05688c, 0x1f83d9ab, 0x5be0cd19,
];

// SHA-256's compression function.
#[derive(Drop)]
pub struct Sha256Compression;

// The hash value of the blocks so far.
pub type Sha256Rounds = HashValue<Sha256Compression, 8>;

// SHA-256 of a message that comes in parts.
pub type Sha256 = Chain<Sha256Rounds>;

impl Compression<8> for Sha256Compression {
    ghost initial = { initial };

    ghost mixed = { λ v block. rounds (W block) v };

    ghost compressed = { compressed };

    ghost sums = { unfold compressed in λ v block. refl };

    ghost initial_count = { Prim.search rules };

    ghost nonempty = { Prim.search rules };

    ghost bounded = { Prim.search rules };

    fn initial_value() -> [u32; 8] {
        INITIAL_HASH_VALUE
    }

    fn mix(v: &mut [u32; 8], block: &[u8; 64]) {
        rounds(v, &schedule(block));
    }
}

// The constants of the rounds.
fn round_constants() -> &'static [u32; 64]
    ensures of_the_standard { result.now ≡ K }
{
    &ROUND_CONSTANTS
}

// FIPS 180-4's Σ₀.
// Stays: this one and the three below are the standard's functions, a line each; one with three numbers would hide their names.
fn big_sigma0(x: u32) -> u32
    ensures mixed_bits { result ≡ Σ₀ x }
{
    x.rotate_right(2) ^ x.rotate_right(13) ^ x.rotate_right(22)
}

// FIPS 180-4's Σ₁.
fn big_sigma1(x: u32) -> u32
    ensures mixed_bits { result ≡ Σ₁ x }
{
    x.rotate_right(6) ^ x.rotate_right(11) ^ x.rotate_right(25)
}

// FIPS 180-4's σ₀.
fn small_sigma0(x: u32) -> u32
    ensures mixed_bits { result ≡ σ₀ x }
{
    x.rotate_right(7) ^ x.rotate_right(18) ^ (x >> 3)
}

// FIPS 180-4's σ₁.
fn small_sigma1(x: u32) -> u32
    ensures mixed_bits { result ≡ σ₁ x }
{
    x.rotate_right(17) ^ x.rotate_right(19) ^ (x >> 10)
}

// One round on the working variables, with its constant and its word of the message schedule.
fn round(v: &mut [u32; 8], k: u32, w: u32)
    ensures one_round { v.new ≡ round k w v.old }
{
    let [a, b, c, d, e, f, g, h] = *v;
    let t1 = h
        .wrapping_add(big_sigma1(e))
        .wrapping_add(choice(e, f, g))
        .wrapping_add(k)
        .wrapping_add(w);
    let t2 = big_sigma0(a).wrapping_add(majority(a, b, c));
    *v = [t1.wrapping_add(t2), a, b, c, d.wrapping_add(t1), e, f, g];
}

// The word at place `t` of the message schedule, from 16 on, from words before it.
fn expanded(w: &[u32; 64], t: usize) -> u32
    requires behind_the_block { 16 ≤ t }
    requires within { t < 64 }
    ensures next_word { result ≡ expanded w.now t }
{
    small_sigma1(w[t - 2])
        .wrapping_add(w[t - 7])
        .wrapping_add(small_sigma0(w[t - 15]))
        .wrapping_add(w[t - 16])
}

// Writes eight words of the message schedule from place `first` on: few enough for the compiler to write them out, so that each is
// at hand for the next but one.
fn extend_by_eight(w: &mut [u32; 64], first: usize)
    requires behind_the_block { 16 ≤ first }
    requires within { first + 8 ≤ 64 }
    ensures eight_words { w.new ≡ turns (λ t. extended (first + t)) 8 w.old }
{
    // Stays: the standard's recurrence gives each word by its place, from those at places before it.
    for t in first..first + 8 {
        w[t] = expanded(w, t);
    }
}

// The message schedule of a block.
fn schedule(block: &[u8; 64]) -> [u32; 64]
    ensures all_words { result ≡ W block.now }
{
    let mut w = [0; 64];
    w[..16].copy_from_slice(&block_words(block));
    for first in (16..64).step_by(8) {
        extend_by_eight(&mut w, first);
    }
    w
}

// Eight rounds on the working variables, with their constants and their words of the message schedule: few enough for the compiler
// to write them out, so that no word moves from one working variable to the next.
fn eight_rounds(v: &mut [u32; 8], constants: &[u32; 8], words: &[u32; 8])
    ensures eight_turns { v.new ≡ turns (λ t. round (slice_index constants.now t) (slice_index words.now t)) 8 v.old }
{
    for (constant, word) in constants.iter().zip(words) {
        round(v, *constant, *word);
    }
}

// The 64 rounds on the working variables, with the message schedule `w`.
fn rounds(v: &mut [u32; 8], w: &[u32; 64])
    ensures all_rounds { v.new ≡ rounds w.now v.old }
{
    let (constants, _) = round_constants().as_chunks::<8>();
    let (words, _) = w.as_chunks::<8>();
    for (constants, words) in constants.iter().zip(words) {
        eight_rounds(v, constants, words);
    }
}
