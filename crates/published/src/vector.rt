// A published vector, and how many are run.
ghost use Rattle.std.specs.Prelude.{◌≡◌, IfOk};
ghost use Rattle.published.specs.Vectors.{tallied};

use crate::input::Input;
use crate::tally::Tally;
use hmac::Hash;
use std::io;

// What a hash is given, and what is published of it: the answer, or the first bytes of it.
#[derive(Clone, Copy)]
pub struct Vector<I> {
    pub name: &'static str,
    pub input: I,
    pub published: &'static [u8],
}

// The longest answer that is published.
const LONGEST: usize = 32;

// Runs each vector under a hash, tells how it went, and counts it.
pub fn run<H: Hash, I: Input>(
    rt: &impl Print,
    tally: &mut Tally,
    vectors: &[Vector<I>],
) -> io::Result<()>
    ensures every_vector_counted { IfOk result (λ _. tally.new ≡ tallied (I.answered H.digest H.block) vectors.now tally.old) }
{
    for vector in vectors {
        // Stays: a room of the longest length, since a run takes no allocator and cannot run out of memory.
        let mut room = [0; LONGEST];
        let found = &mut room[..vector.published.len().min(LONGEST)];
        vector.input.answer::<H>(found);
        tally.compare(rt, vector.name, "", found, vector.published)?;
    }
    Ok(())
}
