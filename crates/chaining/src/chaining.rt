// The digest of any message from a hash function's rounds on blocks of 64 bytes, as FIPS 180-4 chains and pads them.
ghost use Rattle.std.specs.Prelude.{◌≡◌, ℕ, ◌*◌, ◌%◌, ◌<◌, ◌≤◌, List, [], ◌++◌, length, if◌then◌else◌, nat_lt};
ghost use Rattle.std.proofs.Common.{ap, ◌∙◌, rules};
ghost use Rattle.octets.specs.Octets.{zeros};
ghost use Rattle.chaining.specs.Chaining.{marked, hashed, digest_after};
ghost use Rattle.chaining.specs.Words.{word_bytes};
ghost use Rattle.chaining.specs.Chained.{length-concluded};
ghost use Rattle.chaining.specs.WordBytes.{length-word_bytes, octets-word_bytes};

use crate::words::write_words;
use hmac::Hash;

// The hash value of the blocks so far. A hash function supplies this, and `Chain` the rest.
pub trait Rounds: Sized {
    // the hash value before the first block
    ghost initial: { List ℕ };

    // the hash value after another, once a block is taken in
    ghost turned: { List ℕ → List ℕ → List ℕ };

    // words in a hash value
    ghost count: { ℕ };

    // the hash value that is held
    ghost value: { Self → List ℕ };

    // The rounds before the first block.
    fn start() -> Self
        ensures the_initial_value { value result ≡ initial };

    // Takes in one block.
    fn turn(&mut self, block: &[u8; 64])
        ensures next_value { value self.new ≡ turned (value self.old) block.now };

    // The hash value that is held.
    fn words(&self) -> &[u32]
        ensures the_value { result.now ≡ value self.now };

    fn word_count() -> usize
        ensures told { result ≡ count };

    ghost initial_count: { length initial ≡ count };

    ghost turned_count: { (v block : List ℕ) → length (turned v block) ≡ count };

    ghost nonempty: { 1 ≤ count };

    ghost bounded: { count ≤ 16 };
}

// A digest under way: the hash value of the whole blocks so far, the block that is being filled, and the number of bytes
// absorbed, modulo 2 ^ 64. The block holds the last `total % 64` of them.
#[derive(Drop)]
pub struct Chain<R> {
    rounds: R,
    // Stays: the block has a fixed place and is filled in part, as the engine has no heap; how far, the count of bytes says.
    block: [u8; 64],
    total: u64,
}

impl<R: Rounds> Chain<R> {
    // Takes in as much of `part` as the block has room for, and gives what is left of it.
    fn take_in<'a>(&mut self, part: &'a [u8]) -> &'a [u8]
        ensures less_is_left { 0 < length part.now → length result.now < length part.now }
        ensures absorbed { (x : List ℕ) → digest_after R.turned R.value self.new (result.now ++ x) ≡ digest_after R.turned R.value self.old (part.now ++ x) }
    {
        let filled = (self.total % 64) as usize;
        let (taken, rest) = part.split_at(part.len().min(64 - filled));
        let end = filled + taken.len();
        self.block[filled..end].copy_from_slice(taken);
        self.total = self.total.wrapping_add(taken.len() as u64);
        if end == 64 {
            self.rounds.turn(&self.block);
        }
        rest
    }

    // Takes in the padding, so that the hash value is that of the whole message.
    fn pad(&mut self)
        ensures whole_message { word_bytes (R.value self.new.rounds) ≡ digest_after R.turned R.value self.old [] }
    {
        self.end_message();
        let bits = self.total.wrapping_mul(8);
        self.block[56..].copy_from_slice(&bits.to_be_bytes());
        self.rounds.turn(&self.block);
    }

    // Marks the end of the message. Where the count of bits does not fit after it, takes the block in and starts another.
    fn end_message(&mut self)
        ensures full_block_taken_in { R.value self.new.rounds ≡ (if nat_lt (self.old.total % 64) 56 then R.value self.old.rounds else R.turned (R.value self.old.rounds) (marked (self.old.total % 64) self.old.block)) }
        ensures end_marked { self.new.block ≡ (if nat_lt (self.old.total % 64) 56 then marked (self.old.total % 64) self.old.block else zeros 64) }
        ensures total_kept { self.new.total ≡ self.old.total }
    {
        let filled = (self.total % 64) as usize;
        mark_end(&mut self.block, filled);
        if filled >= 56 {
            self.rounds.turn(&self.block);
            self.block = [0; 64];
        }
    }
}

impl<R: Rounds + Drop> Hash for Chain<R> {
    ghost digest = { λ message. word_bytes (hashed R.Rounds.turned R.Rounds.initial message) };

    ghost after = { λ chain x. digest_after R.Rounds.turned R.Rounds.value chain x };

    ghost block = { 64 };

    ghost size = { 4 * R.Rounds.count };

    ghost sized = { λ x.
        length-word_bytes (hashed R.Rounds.turned R.Rounds.initial x)
        ∙ ap (λ k. 4 * k)
        (length-concluded R.Rounds.turned R.Rounds.count 0 R.Rounds.initial x R.Rounds.turned_count R.Rounds.initial_count) };

    ghost bytes = { λ x. octets-word_bytes (hashed R.Rounds.turned R.Rounds.initial x) };

    ghost nonempty = { Prim.search rules };

    ghost fitting = { Prim.search rules };

    ghost bounded = { Prim.search rules };

    fn new() -> Self {
        Chain {
            rounds: R::start(),
            block: [0; 64],
            total: 0,
        }
    }

    fn absorb(&mut self, part: &[u8]) {
        let mut rest = part;
        while !rest.is_empty() {
            rest = self.take_in(rest);
        }
    }

    fn finish(mut self, out: &mut [u8]) {
        self.pad();
        write_words(self.rounds.words(), out);
    }

    fn block_size() -> usize {
        64
    }

    fn digest_size() -> usize {
        4 * R::word_count()
    }
}

// Marks the end of a message that has the first `filled` bytes of `block`.
fn mark_end(block: &mut [u8; 64], filled: usize)
    requires room { filled < 64 }
    ensures end_marked { block.new ≡ marked filled block.old }
{
    block[filled] = 0x80;
    block[filled + 1..].fill(0);
}
