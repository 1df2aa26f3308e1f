// Two suites as one.
ghost use Rattle.bank.specs.Bank.{bank};
ghost use Rattle.bank.specs.BankLaws as laws;

use suite::{Fault, Inputs, Sizes, Suite, Triple};

// Serves the triples of both. Where both serve one, the first answers for it.
#[derive(Clone, Copy)]
pub struct Bank<A, B> {
    pub first: A,
    pub second: B,
}

impl<A: Suite, B: Suite> Suite for Bank<A, B> {
    ghost meaning = { λ s. bank (A.meaning s.first) (B.meaning s.second) };

    ghost sizes_are_bounded = { λ s.
        laws.sizes_are_bounded (A.meaning s.first) (B.meaning s.second)
        (A.sizes_are_bounded s.first)
        (B.sizes_are_bounded s.second) };

    ghost sealing_adds_the_check_value = { λ s.
        laws.sealing_adds_the_check_value (A.meaning s.first) (B.meaning s.second)
        (A.sealing_adds_the_check_value s.first)
        (B.sealing_adds_the_check_value s.second) };

    ghost sealing_gives_bytes = { λ s.
        laws.sealing-gives-bytes (A.meaning s.first) (B.meaning s.second)
        (A.sealing_gives_bytes s.first)
        (B.sealing_gives_bytes s.second) };

    ghost opening_undoes_sealing = { λ s.
        laws.opening-undoes-sealing (A.meaning s.first) (B.meaning s.second)
        (A.opening_undoes_sealing s.first)
        (B.opening_undoes_sealing s.second) };

    ghost what_opens_was_sealed = { λ s.
        laws.what_opens_was_sealed (A.meaning s.first) (B.meaning s.second)
        (A.what_opens_was_sealed s.first)
        (B.what_opens_was_sealed s.second) };

    ghost mismatch_when_no_text_seals = { λ s.
        laws.mismatch_when_no_text_seals (A.meaning s.first) (B.meaning s.second)
        (A.mismatch_when_no_text_seals s.first)
        (B.mismatch_when_no_text_seals s.second) };

    fn sizes(&self, triple: Triple) -> Option<Sizes> {
        self.first.sizes(triple).or(self.second.sizes(triple))
    }

    fn seal(
        &self,
        triple: Triple,
        inputs: Inputs<'_>,
        text: usize,
        out: &mut [u8],
        work: &mut [u8],
    ) -> Result<usize, Fault> {
        if self.first.sizes(triple).is_some() {
            self.first.seal(triple, inputs, text, out, work)
        } else {
            self.second.seal(triple, inputs, text, out, work)
        }
    }

    fn open(
        &self,
        triple: Triple,
        inputs: Inputs<'_>,
        sealed: &[u8],
        out: &mut [u8],
        work: &mut [u8],
    ) -> Result<usize, Fault> {
        if self.first.sizes(triple).is_some() {
            self.first.open(triple, inputs, sealed, out, work)
        } else {
            self.second.open(triple, inputs, sealed, out, work)
        }
    }
}
