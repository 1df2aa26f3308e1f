// How long the padding is, writing it, and what an arriving text holds before it.
ghost use Rattle.std.specs.Prelude.{◌≡◌, ◌+◌, ◌-◌, ◌<◌, ◌≤◌, max, length};
ghost use Rattle.octets.specs.Octets.{same};
ghost use Rattle.padding.specs.Padding.{data_length, least_pad, pad_to, trailed, trailer, Lawful, LeastFill};
ghost use Rattle.padding.specs.Worked.{WorkedValues};

// The most bytes that a trailer has: 255 padding bytes, PAD LENGTH and a zero byte.
const LONGEST_TRAILER: usize = 257;

// The least number of padding bytes with which `n` data bytes fill whole units.
fn pad_to(unit: usize, n: usize) -> usize
    requires a_unit { 0 < unit }
    ensures by_the_formula { result ≡ pad_to unit n }
    ensures least_that_fills_units { LeastFill unit n result }
    ensures worked_values { WorkedValues }
{
    let left = unit - n % unit;
    if left < 2 { unit - 1 } else { left - 2 }
}

// The least number of padding bytes with which `n` data bytes fill whole units. A unit of 0 is taken as 1.
pub fn pad_length(n: usize, unit: usize) -> usize
    ensures by_the_formula { result ≡ least_pad unit n }
    ensures least_that_fills_units { LeastFill (max unit 1) n result }
    ensures worked_values { WorkedValues }
{
    pad_to(unit.max(1), n)
}

// Fills `rest` with the trailer of that length.
fn fill_trailer(rest: &mut [u8])
    requires a_trailer_has_that_length { (2 ≤ length rest.old) × (length rest.old ≤ LONGEST_TRAILER) }
    ensures the_trailer { rest.new ≡ trailer (length rest.old - 2) }
{
    let p = rest.len() - 2;
    for (i, byte) in rest[..p].iter_mut().enumerate() {
        *byte = i as u8 + 1;
    }
    rest[p] = p as u8;
    rest[p + 1] = 0;
}

// Writes the trailer over all of `text` but its first `n` bytes, the data. Where what is left has not 2 to 257 bytes, nothing is written.
pub fn write_trailer(text: &mut [u8], n: usize)
    ensures data_then_trailer { text.new ≡ trailed n text.old }
{
    let len = text.len();
    if len < 2 || len - 2 < n || len - 2 - n > 255 {
        return;
    }
    fill_trailer(&mut text[n..len]);
}

// Whether `rest` is the trailer of that length. Every byte is read, wherever the first difference is.
fn is_trailer(rest: &[u8]) -> bool
    requires a_trailer_has_that_length { (2 ≤ length rest.now) × (length rest.now ≤ LONGEST_TRAILER) }
    ensures whether_the_trailer { result ≡ same rest.now (trailer (length rest.now - 2)) }
{
    // Stays: compared byte by byte where it stands, since making the expected trailer beside it takes twice the time.
    let p = rest.len() - 2;
    let mut difference: u8 = 0;
    for (i, byte) in rest[..p].iter().enumerate() {
        difference |= byte ^ (i as u8 + 1);
    }
    difference |= rest[p] ^ p as u8;
    difference |= rest[p + 1];
    difference == 0
}

// How many bytes of `text` are data: those before the trailer that PAD LENGTH says. None where that trailer is not there.
#[tactic(auto, using(crate::proofs::Laws::lawful))]
pub fn data_length(text: &[u8]) -> Option<usize>
    ensures before_the_trailer { result ≡ data_length text.now }
    ensures inverse_to_padding { Lawful }
{
    let [.., pad_length, _] = text else {
        return None;
    };
    let size = *pad_length as usize + 2;
    let n = text.len().checked_sub(size)?;
    // Not from `n` on, though it is the same place: so the compiler knows how short the trailer is, and compares it faster.
    is_trailer(&text[text.len() - size..]).then_some(n)
}
