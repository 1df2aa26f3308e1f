// The key expansion. A schedule is a row of words of four bytes, the first of which are the key's.
ghost use Rattle.std.specs.Prelude.{◌≡◌, ◌+◌, ◌-◌, ◌*◌, ◌/◌, ◌<◌, ◌≤◌, length, slice_index};
ghost use Rattle.octets.specs.Octets.{over, placed};
ghost use Rattle.block.specs.Xor.{xored};
ghost use Rattle.aes.specs.Schedule.{word, rot_word, sub_word, rcon_table, rcon, changed, next_word, expanded};

use block::xor_over;
use fips197::sub_byte;
use octets::copy_over;

// The round constants, from the first on.
const ROUND_CONSTANTS: [u8; 10] = [0x01, 0x02, 0x04, 0x08, 0x10, 0x20, 0x40, 0x80, 0x1b, 0x36];

// The round constant `j`, counted from 1.
fn round_constant(j: usize) -> u8
    requires from_one { 1 ≤ j }
    requires up_to_ten { j ≤ 10 }
    ensures of_the_table { result ≡ slice_index rcon_table (j - 1) }
{
    ROUND_CONSTANTS[j - 1]
}

// The word at place `i` of the schedule `w`.
// Stays: read byte by byte; over words copied whole, by `as_chunks`, the schedule of a key of 32 bytes takes half as long again.
fn word_at(w: &[u8], i: usize) -> [u8; 4]
    requires word_there { 4 * i + 4 ≤ length w.now }
    ensures the_word { result ≡ word w.now i }
{
    [w[4 * i], w[4 * i + 1], w[4 * i + 2], w[4 * i + 3]]
}

// SubWord.
fn sub_word(t: &[u8; 4]) -> [u8; 4]
    ensures each_byte { result ≡ sub_word t.now }
{
    [
        sub_byte(t[0]),
        sub_byte(t[1]),
        sub_byte(t[2]),
        sub_byte(t[3]),
    ]
}

// RotWord, then SubWord, then the round constant `j`.
fn turn_word(t: &[u8; 4], j: usize) -> [u8; 4]
    requires from_one { 1 ≤ j }
    requires up_to_ten { j ≤ 10 }
    ensures turned_and_summed { result ≡ xored (sub_word (rot_word t.now)) (rcon j) }
{
    [
        sub_byte(t[1]) ^ round_constant(j),
        sub_byte(t[2]),
        sub_byte(t[3]),
        sub_byte(t[0]),
    ]
}

// The place of a word behind the key, under a key of so many words that the round constants reach.
#[derive(Clone, Copy)]
struct Place {
    key_words: usize,
    word: usize,
    ghost four_words: { 4 ≤ key_words },
    ghost past_the_key: { key_words ≤ word },
    ghost constants_reach: { word < 11 * key_words },
}

impl Place {
    // What is added to an earlier word to give the word here, from the word `t` before it.
    #[tactic(auto, unfolding(crate::specs::Schedule::changed))]
    fn change(self, t: &[u8; 4]) -> [u8; 4]
        ensures as_its_place_asks { result ≡ changed self.key_words t.now self.word }
    {
        if self.word.is_multiple_of(self.key_words) {
            turn_word(t, self.word / self.key_words)
        } else if self.key_words > 6 && self.word % self.key_words == 4 {
            sub_word(t)
        } else {
            *t
        }
    }

    // The word here, from the words before it.
    #[tactic(auto, unfolding(crate::specs::Schedule::next_word))]
    fn next_word(self, w: &[u8]) -> [u8; 4]
        requires words_there { 4 * self.word ≤ length w.now }
        ensures next { result ≡ next_word self.key_words w.now self.word }
    {
        let mut next = word_at(w, self.word - self.key_words);
        xor_over(&self.change(&word_at(w, self.word - 1)), &mut next);
        next
    }

    // Writes the word here behind the words before it.
    #[tactic(auto, using(octets::proofs::Octets::placed_part))]
    fn add_word(self, work: &mut [u8])
        requires room { 4 * self.word + 4 ≤ length work.old }
        ensures word_behind { work.new ≡ placed (4 * self.word) (next_word self.key_words work.old self.word) work.old }
    {
        let next = self.next_word(work);
        work[4 * self.word..4 * self.word + 4].copy_from_slice(&next);
    }
}

// Writes the schedule of a key over the start of `work`.
pub(crate) fn expand(key: &[u8], work: &mut [u8])
    requires four_words { 16 ≤ length key.now }
    requires whole_words { length key.now ≡ 4 * (length key.now / 4) }
    requires room { 16 * (length key.now / 4 + 7) ≤ length work.old }
    ensures schedule_then_old { work.new ≡ over (expanded key.now) work.old }
{
    let key_words = key.len() / 4;
    copy_over(key, work);
    // Stays: the standard's recurrence gives each word by its place, from those at places before it.
    for word in key_words..4 * (key_words + 7) {
        Place { key_words, word }.add_word(work);
    }
}
