// Words of 32 bits: the functions that the hash functions share, the words of a block, and the bytes of words.
ghost use Rattle.std.specs.Prelude.{◌≡◌, ◌<◌, map, slice_index_or};
ghost use Rattle.std.specs.List.{range_with_len};
ghost use Rattle.octets.specs.Octets.{over};
ghost use Rattle.chaining.specs.Words.{Ch, Maj, block_word, word_bytes, added, ◌⊞◌};

use octets::copy_over;
use std::array;

// At each bit, `y`'s where `x` has 1, else `z`'s.
pub fn choice(x: u32, y: u32, z: u32) -> u32
    ensures chosen_bits { result ≡ Ch x y z }
{
    (x & y) ^ (!x & z)
}

// At each bit, what at least two of the three have.
pub fn majority(x: u32, y: u32, z: u32) -> u32
    ensures majority_bits { result ≡ Maj x y z }
{
    (x & y) ^ (x & z) ^ (y & z)
}

// The word at place `t` of a block, which has 16; past them 0.
pub fn block_word(block: &[u8; 64], t: usize) -> u32
    ensures most_significant_byte_first { result ≡ block_word block.now t }
{
    if t < 16 { word_at(block, t) } else { 0 }
}

// The word at one of the 16 places.
fn word_at(block: &[u8; 64], t: usize) -> u32
    requires { t < 16 }
    ensures most_significant_byte_first { result ≡ block_word block.now t }
{
    let (words, _) = block.as_chunks::<4>();
    u32::from_be_bytes(words[t])
}

// The 16 words of a block.
pub fn block_words(block: &[u8; 64]) -> [u32; 16]
    ensures each_of_its_place { result ≡ map (block_word block.now) (range_with_len 0 16) }
{
    array::from_fn(
        |t|
            ensures { result ≡ block_word block.entry.now t }
        { block_word(block, t) },
    )
}

// The sums of the words of two hash values, place by place.
pub(crate) fn sums<const N: usize>(v: &[u32; N], u: &[u32; N]) -> [u32; N]
    ensures place_by_place { result ≡ added N v.now u.now }
{
    array::from_fn(
        |i|
            requires { i < N }
            ensures { result ≡ slice_index_or v.entry.now i 0 ⊞ slice_index_or u.entry.now i 0 }
        { v[i].wrapping_add(u[i]) },
    )
}

// Writes the bytes of `words`, each most significant byte first, over the start of `out`, as far as `out` reaches.
pub(crate) fn write_words(words: &[u32], out: &mut [u8])
    ensures bytes_then_old { out.new ≡ over (word_bytes words.now) out.old }
{
    // Stays: the place of each word is counted; over `zip(out.chunks_mut(4))` no invariant can name what `out` holds by then.
    for (i, word) in words.iter().enumerate() {
        let at = out.len().min(4 * i);
        copy_over(&word.to_be_bytes(), &mut out[at..]);
    }
}
