// HMAC over any hash as an integrity algorithm.
ghost use Rattle.std.specs.Prelude.{◌≡◌, ℕ, ◌<◌, List, ◌++◌, length};
ghost use Rattle.std.proofs.Common.{ap, ◌∙◌, arith};
ghost use Rattle.hmac.specs.Hmac.{mac_after};
ghost use Rattle.algorithms.specs.HmacIntegrity.{hmac_integrity};
ghost use Rattle.algorithms.specs.HmacTerms.{served};
ghost use Rattle.hmac.specs.Hmac as SpecsHmac;
ghost use Rattle.hmac.proofs.CheckValue.{length-hmac, octets-hmac};
ghost use Rattle.std.proofs.ByRecursion.{All-take};
ghost use Rattle.std.proofs.lemmas.List.{length-take-le};
ghost use Rattle.suite.specs.declared.IntegritySizes.{IntegritySizes};

use hmac::{Hash, Hmac};
use std::marker::PhantomData;
use suite::{Integrity, IntegritySizes};

// The first bytes of the HMAC over the hash `H`, under one code.
#[derive_where(Clone, Copy)]
pub struct HmacIntegrity<H> {
    pub code: u32,
    pub sizes: IntegritySizes,
    pub hash: PhantomData<H>,
}

impl<H: Hash> HmacIntegrity<H> {
    // Serves under a code, with these sizes where they are possible.
    pub fn new(code: u32, sizes: IntegritySizes) -> HmacIntegrity<H>
        ensures its_code { result.code ≡ code }
        ensures its_sizes { result.sizes ≡ sizes }
    {
        HmacIntegrity {
            code,
            sizes,
            hash: PhantomData,
        }
    }
}

impl<H: Hash> Integrity for HmacIntegrity<H> {
    ghost checks = { λ s. hmac_integrity H.digest H.block H.size s.code s.sizes };

    ghost integrity_sizes_are_bounded = { λ s code z e.
        let t = served H.digest H.block H.size s.code s.sizes code z e in
        record { key = t.key; some_check = t.some_check; check = t.check } };

    ghost check_value_has_its_size = { λ s code z key message e.
        let t = served H.digest H.block H.size s.code s.sizes code z e in
        let v = SpecsHmac.hmac H.digest H.block key message in
        let own : s.sizes.check ≡ z.check = ap (λ (y : IntegritySizes). y.check) t.same_sizes in
        let long : length v ≡ H.size = length-hmac H.digest H.block H.size H.sized key message in (
          All-take (λ n. n < 256) s.sizes.check v (octets-hmac H.digest H.block H.bytes key message),
          length-take-le s.sizes.check v (omega (arith, t.digest)) ∙ own,
        ) };

    fn sizes(&self, code: u32) -> Option<IntegritySizes> {
        let sizes = self.sizes;
        let possible = sizes.key <= 32
            && 1 <= sizes.check
            && sizes.check <= 32
            && sizes.check <= H::digest_size();
        (code == self.code && possible).then_some(sizes)
    }

    fn check(
        &self,
        _code: u32,
        key: &[u8],
        head: &[u8],
        vector: &[u8],
        text: &[u8],
        out: &mut [u8],
    ) {
        let mut mac = Hmac::<H>::new(key);
        absorb_message(&mut mac, head, vector, text);
        let n = self.sizes.check.min(out.len());
        mac.finish(&mut out[..n]);
    }
}

// Absorbs what a check value covers: head, vector and enciphered text, in this order.
fn absorb_message<H: Hash>(mac: &mut Hmac<H>, head: &[u8], vector: &[u8], text: &[u8])
    ensures absorbed { (x : List ℕ) → mac_after H.after H.size mac.new x ≡ mac_after H.after H.size mac.old (head.now ++ (vector.now ++ (text.now ++ x))) }
{
    mac.absorb(head);
    mac.absorb(vector);
    mac.absorb(text);
}
