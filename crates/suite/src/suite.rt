// The interface of a protection suite.
ghost use Rattle.std.specs.Prelude.{◌≡◌, ◌-◌, length};
ghost use Rattle.suite.specs.Meaning.{Meaning, given, sealing, opening, counted, output_after, work_after, check_size};
ghost use Rattle.suite.specs.Laws.{SizesAreBounded, SealingAddsTheCheckValue, SealingGivesBytes, OpeningUndoesSealing, WhatOpensWasSealed, MismatchWhenNoTextSeals};

use crate::fault::Fault;
use crate::inputs::Inputs;
use crate::sizes::Sizes;
use crate::triple::Triple;

// Seals texts and opens what was sealed, under each triple that it serves. No call changes the suite.
// Stays: a text is sealed where it stands, at the start of the output, since the engine has no heap; so its length is told beside it.
// Stays: a triple is asked for its sizes before the inputs are known, so the two are not one value.
pub trait Suite {
    ghost meaning: { Self → Meaning };

    // The sizes of a triple, if it is served.
    fn sizes(&self, triple: Triple) -> Option<Sizes>
        ensures as_served { result ≡ (meaning self.now).serves triple };

    // Seals the text that is the first `text` bytes of `out`: there and behind it stand the sealed bytes then, whose number is answered.
    fn seal(
        &self,
        triple: Triple,
        inputs: Inputs<'_>,
        text: usize,
        out: &mut [u8],
        work: &mut [u8],
    ) -> Result<usize, Fault>
        ensures sealed_bytes_counted { result ≡ counted (sealing (meaning self.now) triple (given inputs.entry) text out.old work.old) }
        ensures sealed_bytes_then_old { out.new ≡ output_after (sealing (meaning self.now) triple (given inputs.entry) text out.old work.old) 0 out.old }
        ensures work_bytes_zero { work.new ≡ work_after (sealing (meaning self.now) triple (given inputs.entry) text out.old work.old) work.old };

    // Opens `sealed` into the start of `out`, and answers the text's length.
    fn open(
        &self,
        triple: Triple,
        inputs: Inputs<'_>,
        sealed: &[u8],
        out: &mut [u8],
        work: &mut [u8],
    ) -> Result<usize, Fault>
        ensures text_counted { result ≡ counted (opening (meaning self.now) triple (given inputs.entry) sealed.now out.old work.old) }
        ensures text_or_zeros_then_old { out.new ≡ output_after (opening (meaning self.now) triple (given inputs.entry) sealed.now out.old work.old) (length sealed.now - check_size ((meaning self.now).serves triple)) out.old }
        ensures work_bytes_zero { work.new ≡ work_after (opening (meaning self.now) triple (given inputs.entry) sealed.now out.old work.old) work.old };

    ghost sizes_are_bounded: { (s : Self) → SizesAreBounded (meaning s) };

    ghost sealing_adds_the_check_value: { (s : Self) → SealingAddsTheCheckValue (meaning s) };

    ghost sealing_gives_bytes: { (s : Self) → SealingGivesBytes (meaning s) };

    ghost opening_undoes_sealing: { (s : Self) → OpeningUndoesSealing (meaning s) };

    ghost what_opens_was_sealed: { (s : Self) → WhatOpensWasSealed (meaning s) };

    ghost mismatch_when_no_text_seals: { (s : Self) → MismatchWhenNoTextSeals (meaning s) };
}
