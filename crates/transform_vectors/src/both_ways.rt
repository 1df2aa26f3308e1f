// Published vectors of a block cipher in a mode, run both ways.
use block::BlockCipher;
use octets::copy_over;
use published::Tally;
use std::io;

// The longest schedule of a key.
const SCHEDULE: usize = 240;

// The longest that is sealed.
const LONGEST: usize = 64;

// What a text is under a key and in a mode.
#[derive(Clone, Copy)]
pub(crate) struct Vector<M> {
    pub name: &'static str,
    pub key: &'static [u8],
    pub mode: M,
    pub plain: &'static [u8],
    pub sealed: &'static [u8],
}

// How a block cipher is used on a text, under the schedule of a key.
pub(crate) trait Mode {
    // what is said of the way back
    const BACK: &'static str;

    // Seals the first `text` bytes of `out` in place, and answers how many bytes are sealed, if it can.
    fn seal<B: BlockCipher>(&self, schedule: &[u8], text: usize, out: &mut [u8]) -> Option<usize>;

    // Opens `sealed` into the start of `out`, and answers the text's length, if it can.
    fn open<B: BlockCipher>(&self, schedule: &[u8], sealed: &[u8], out: &mut [u8]) -> Option<usize>;
}

// Runs each vector both ways, tells how it went, and counts it.
pub(crate) fn run<B: BlockCipher, M: Mode>(
    rt: &impl Print,
    tally: &mut Tally,
    vectors: &[Vector<M>],
) -> io::Result<()> {
    for vector in vectors {
        // Stays: rooms of the longest length, since a run takes no allocator and cannot run out of memory.
        let mut work = [0; SCHEDULE];
        let schedule = expanded::<B>(vector.key, &mut work);
        let mut out = [0; LONGEST];
        copy_over(vector.plain, &mut out);
        let sealed = vector
            .mode
            .seal::<B>(schedule, vector.plain.len(), &mut out);
        tally.compare(rt, vector.name, "", first(&out, sealed), vector.sealed)?;
        let opened = vector.mode.open::<B>(schedule, vector.sealed, &mut out);
        tally.compare(rt, vector.name, M::BACK, first(&out, opened), vector.plain)?;
    }
    Ok(())
}

// The schedule of a key, written into `work`; nothing where such keys are not taken.
fn expanded<'a, B: BlockCipher>(key: &[u8], work: &'a mut [u8]) -> &'a [u8] {
    let length = B::expand_key(key, work);
    first(work, length)
}

// The first `n` bytes; none where there is no such number, or there are fewer.
fn first(bytes: &[u8], n: Option<usize>) -> &[u8] {
    n.and_then(|n| bytes.get(..n)).unwrap_or(&[])
}
