// The interface of an integrity algorithm, for suites that pair one with a cipher.
ghost use Rattle.std.specs.Prelude.{◌≡◌};
ghost use Rattle.octets.specs.Octets.{over};
ghost use Rattle.suite.specs.Integrity.{IntegrityMeaning, checked, IntegritySizesAreBounded, CheckValueHasItsSize};

#[derive(Clone, Copy, PartialEq, Eq, Debug)]
pub struct IntegritySizes {
    // the integrity key
    pub key: usize,
    // the check value
    pub check: usize,
}

// Computes a check value.
pub trait Integrity {
    ghost checks: { Self → IntegrityMeaning };

    // The sizes under a code, if it is served.
    fn sizes(&self, code: u32) -> Option<IntegritySizes>
        ensures as_served { result ≡ (checks self.now).serves code };

    // Writes the check value over head, vector and enciphered text over the start of `out`.
    fn check(&self, code: u32, key: &[u8], head: &[u8], vector: &[u8], text: &[u8], out: &mut [u8])
        ensures check_value_then_old { out.new ≡ over ((checks self.now).value code key.now (checked head.now vector.now text.now)) out.old };

    ghost integrity_sizes_are_bounded: { (s : Self) → IntegritySizesAreBounded (checks s) };

    ghost check_value_has_its_size: { (s : Self) → CheckValueHasItsSize (checks s) };
}
