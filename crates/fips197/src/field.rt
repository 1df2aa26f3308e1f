// Products of a byte with the fixed bytes of the mixed columns, in the field GF(2^8).
ghost use Rattle.std.specs.Prelude.{◌≡◌};
ghost use Rattle.fips197.specs.Field.{xtime, ◌•◌};

// A byte times x, which is the byte 02.
pub(crate) fn xtime(b: u8) -> u8
    ensures times_x { result ≡ xtime b }
    ensures product { result ≡ 0x02 • b }
{
    (b << 1) ^ ((b >> 7) * 0x1b)
}

// A byte times 03.
#[tactic(auto, using(crate::proofs::Products::product_3))]
pub(crate) fn times_03(b: u8) -> u8
    ensures product { result ≡ 0x03 • b }
{
    b ^ xtime(b)
}
