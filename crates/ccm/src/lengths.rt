// The lengths that go together.
ghost use Rattle.std.specs.Prelude.{◌≡◌, ◌*◌, ◌^◌, ◌≤◌, nat_lt};
ghost use Rattle.ccm.specs.Calls.{fits, sealable, openable};

// Whether the length of a text of `text` bytes is written in `size` bytes.
fn fits_in_bytes(text: usize, size: usize) -> bool
    requires at_most_eight { size ≤ 8 }
    ensures below_the_power { result ≡ nat_lt text (2 ^ (8 * size)) }
{
    size == 8 || text >> (8 * size) == 0
}

// Whether a nonce of `nonce` bytes, a check value of `check` bytes and a text of `text` bytes go together.
fn lengths_fit(nonce: usize, check: usize, text: usize) -> bool
    ensures whether_they_fit { result ≡ fits nonce check text }
{
    (7..=13).contains(&nonce)
        && (4..=16).contains(&check)
        && check.is_multiple_of(2)
        && fits_in_bytes(text, 15 - nonce)
}

// Whether a text of `text` bytes may be sealed in `out` bytes.
pub(crate) fn can_seal(nonce: usize, check: usize, text: usize, out: usize) -> bool
    ensures whether_it_may_be_sealed { result ≡ sealable nonce check text out }
{
    lengths_fit(nonce, check, text) && text <= out && check <= out - text
}

// Whether `sealed` bytes may be opened into `out` bytes.
pub(crate) fn can_open(nonce: usize, check: usize, sealed: usize, out: usize) -> bool
    ensures whether_it_may_be_opened { result ≡ openable nonce check sealed out }
{
    check <= sealed && lengths_fit(nonce, check, sealed - check) && sealed - check <= out
}
