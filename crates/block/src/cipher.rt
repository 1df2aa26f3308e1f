// The interface of a block cipher.
ghost use Rattle.std.specs.Prelude.{◌≡◌, ℕ, ◌≤◌, List, length, Some, Option};
ghost use Rattle.octets.specs.Octets.{Octets};
ghost use Rattle.block.specs.Schedule.{room_for, written};

// The bytes in a block.
pub const BLOCK: usize = 16;

// Turns a block of 16 bytes into another under a key, and back. A key is first expanded into a schedule.
pub trait BlockCipher {
    // how long the schedule of a key of so many bytes is, where such keys are taken
    ghost scheduled: { ℕ → Option ℕ };

    // the schedule of a key
    ghost expanded: { List ℕ → List ℕ };

    // the forward cipher function under a schedule
    ghost forward: { List ℕ → List ℕ → List ℕ };

    // the inverse cipher function under a schedule
    ghost inverse: { List ℕ → List ℕ → List ℕ };

    // How long the schedule of a key of `key` bytes is, if such keys are taken.
    fn schedule_length(key: usize) -> Option<usize>
        ensures as_scheduled { result ≡ scheduled key };

    // Writes the schedule of a key over the start of `work` and answers its length, or answers none where such keys are
    // not taken or `work` is too short.
    // Stays: where a result borrows from `work`, no clause can say what `work` holds afterwards.
    fn expand_key(key: &[u8], work: &mut [u8]) -> Option<usize>
        ensures schedule_counted { result ≡ room_for (scheduled (length key.now)) (length work.old) }
        ensures schedule_then_old { work.new ≡ written (room_for (scheduled (length key.now)) (length work.old)) (expanded key.now) work.old };

    // Turns a block by the forward cipher function.
    fn encipher_block(schedule: &[u8], block: &mut [u8; 16])
        ensures forward_cipher { block.new ≡ forward schedule.now block.old };

    // Turns a block by the inverse cipher function.
    fn decipher_block(schedule: &[u8], block: &mut [u8; 16])
        ensures inverse_cipher { block.new ≡ inverse schedule.now block.old };

    ghost keys_are_short: { (n m : ℕ) → scheduled n ≡ Some m → n ≤ 32 };

    ghost schedules_are_short: { (n m : ℕ) → scheduled n ≡ Some m → m ≤ 240 };

    ghost expanding_gives_its_length: { (k : List ℕ) (m : ℕ) → scheduled (length k) ≡ Some m → length (expanded k) ≡ m };

    ghost expanding_gives_bytes: { (k : List ℕ) (m : ℕ) → scheduled (length k) ≡ Some m → Octets k → Octets (expanded k) };

    ghost forward_keeps_length: { (w b : List ℕ) → length b ≡ 16 → length (forward w b) ≡ 16 };

    ghost inverse_keeps_length: { (w b : List ℕ) → length b ≡ 16 → length (inverse w b) ≡ 16 };

    ghost forward_gives_bytes: { (w b : List ℕ) → Octets w → Octets b → length b ≡ 16 → Octets (forward w b) };

    ghost inverse_gives_bytes: { (w b : List ℕ) → Octets w → Octets b → length b ≡ 16 → Octets (inverse w b) };

    ghost inverse_undoes_forward: { (w b : List ℕ) → Octets w → Octets b → length b ≡ 16 → inverse w (forward w b) ≡ b };

    ghost forward_undoes_inverse: { (w b : List ℕ) → Octets w → Octets b → length b ≡ 16 → forward w (inverse w b) ≡ b };
}
