// The rounds of a hash function from its compression function, whatever the number of words in its hash value.
ghost use Rattle.std.specs.Prelude.{◌≡◌, ℕ, ◌≤◌, List, length};
ghost use Rattle.chaining.specs.Words.{added};
ghost use Rattle.std.proofs.lemmas.List.FromFn.{length-map-range_with_len};
ghost use Rattle.std.proofs.Common.{◌∙◌, ap};

use crate::chaining::Rounds;
use crate::words::sums;
use std::marker::PhantomData;

// A compression function on hash values of N words: it mixes a block into the words, and the sum of the words before and after
// is the next hash value.
pub trait Compression<const N: usize> {
    // the hash value before the first block
    ghost initial: { List ℕ };

    // the words v, once a block is mixed in
    ghost mixed: { List ℕ → List ℕ → List ℕ };

    // the hash value after another, once a block is taken in
    ghost compressed: { List ℕ → List ℕ → List ℕ };

    // The hash value before the first block.
    fn initial_value() -> [u32; N]
        ensures the_initial_value { result ≡ initial };

    // Mixes a block into the words.
    fn mix(v: &mut [u32; N], block: &[u8; 64])
        ensures mixed_words { v.new ≡ mixed v.old block.now };

    ghost sums: { (v block : List ℕ) → compressed v block ≡ added N v (mixed v block) };

    ghost initial_count: { length initial ≡ N };

    ghost nonempty: { 1 ≤ N };

    ghost bounded: { N ≤ 16 };
}

// The hash value of the blocks so far, under the compression function `C`.
#[derive(Drop)]
pub struct HashValue<C, const N: usize> {
    words: [u32; N],
    function: PhantomData<C>,
}

impl<const N: usize, C: Compression<N>> Rounds for HashValue<C, N> {
    ghost initial = { C.Compression.initial };

    ghost turned = { C.Compression.compressed };

    ghost count = { N };

    ghost value = { λ held. held.words };

    ghost initial_count = { C.Compression.initial_count };

    ghost turned_count = { λ v block. ap length (C.Compression.sums v block) ∙ length-map-range_with_len _ 0 N };

    ghost nonempty = { C.Compression.nonempty };

    ghost bounded = { C.Compression.bounded };

    fn start() -> Self {
        HashValue {
            words: C::initial_value(),
            function: PhantomData,
        }
    }

    fn turn(&mut self, block: &[u8; 64]) {
        let mut mixed = self.words;
        C::mix(&mut mixed, block);
        self.words = sums(&self.words, &mixed);
    }

    fn words(&self) -> &[u32] {
        &self.words
    }

    fn word_count() -> usize {
        N
    }
}
