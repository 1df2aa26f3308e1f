// A suite's own part, and the suite that it makes.
ghost use Rattle.std.specs.Prelude.{◌≡◌, ◌-◌, length, take, Some, Ok};
ghost use Rattle.std.specs.Option.{ok_or};
ghost use Rattle.octets.specs.Octets.{over};
ghost use Rattle.suite.specs.Fits.{Sealable, Openable};
ghost use Rattle.suite.specs.Meaning.{Meaning, given, counted, output_after};
ghost use Rattle.suite.specs.Laws.{SizesAreBounded, SealingAddsTheCheckValue, SealingGivesBytes, OpeningUndoesSealing, WhatOpensWasSealed};
ghost use Rattle.suite.specs.Mismatch.{mismatch_when_no_text_seals};
ghost use Rattle.suite.specs.declared.fault.Fault.TheVariants.{Mismatch};

use crate::fault::Fault;
use crate::inputs::Inputs;
use crate::sizes::{Sizes, WORK};
use crate::suite::Suite;
use crate::triple::Triple;
use crate::work::WorkGuard;

// What a suite does by itself. Where it serves the triple with these sizes and every length fits, the clauses of sealing and opening say
// the answer and every byte of the output. Elsewhere they say nothing but that an answer comes: `Suite` tests first.
pub trait Fitting {
    ghost meaning: { Self → Meaning };

    // The sizes of a triple, if it is served.
    fn sizes_served(&self, triple: Triple) -> Option<Sizes>
        ensures as_served { result ≡ (meaning self.now).serves triple };

    // Seals the text that is the first `text` bytes of `out`. The work area may hold anything of the keys afterwards.
    // Stays: what is served speaks of the suite, so a value of triple, sizes and inputs alone could not carry it.
    fn seal_fitting(
        &self,
        triple: Triple,
        sizes: Sizes,
        inputs: Inputs<'_>,
        text: usize,
        out: &mut [u8],
        work: &mut [u8],
    ) -> Result<usize, Fault>
        ensures sealed_bytes_counted { (meaning self.now).serves triple ≡ Some sizes → Sealable triple sizes (given inputs.entry) text (length out.old) (length work.old) → result ≡ Ok (length ((meaning self.now).sealed triple (given inputs.entry) (take text out.old))) }
        ensures sealed_bytes_then_old { (meaning self.now).serves triple ≡ Some sizes → Sealable triple sizes (given inputs.entry) text (length out.old) (length work.old) → out.new ≡ over ((meaning self.now).sealed triple (given inputs.entry) (take text out.old)) out.old };

    // Opens `sealed` into the start of `out`. The work area may hold anything of the keys afterwards.
    fn open_fitting(
        &self,
        triple: Triple,
        sizes: Sizes,
        inputs: Inputs<'_>,
        sealed: &[u8],
        out: &mut [u8],
        work: &mut [u8],
    ) -> Result<usize, Fault>
        ensures text_counted { (meaning self.now).serves triple ≡ Some sizes → Openable triple sizes (given inputs.entry) (length sealed.now) (length out.old) (length work.old) → result ≡ counted (ok_or ((meaning self.now).opened triple (given inputs.entry) sealed.now) Mismatch) }
        ensures text_or_zeros_then_old { (meaning self.now).serves triple ≡ Some sizes → Openable triple sizes (given inputs.entry) (length sealed.now) (length out.old) (length work.old) → out.new ≡ output_after (ok_or ((meaning self.now).opened triple (given inputs.entry) sealed.now) Mismatch) (length sealed.now - sizes.check) out.old };

    ghost sizes_are_bounded: { (s : Self) → SizesAreBounded (meaning s) };

    ghost sealing_adds_the_check_value: { (s : Self) → SealingAddsTheCheckValue (meaning s) };

    ghost sealing_gives_bytes: { (s : Self) → SealingGivesBytes (meaning s) };

    ghost opening_undoes_sealing: { (s : Self) → OpeningUndoesSealing (meaning s) };

    ghost what_opens_was_sealed: { (s : Self) → WhatOpensWasSealed (meaning s) };
}

// The tests of triple and lengths, and the guard over the work bytes, stand before the own part of each suite.
impl<P: Fitting> Suite for P {
    ghost meaning = { P.meaning };

    ghost sizes_are_bounded = { P.sizes_are_bounded };

    ghost sealing_adds_the_check_value = { P.sealing_adds_the_check_value };

    ghost sealing_gives_bytes = { P.sealing_gives_bytes };

    ghost opening_undoes_sealing = { P.opening_undoes_sealing };

    ghost what_opens_was_sealed = { P.what_opens_was_sealed };

    ghost mismatch_when_no_text_seals = { λ s. mismatch_when_no_text_seals (P.meaning s) (P.opening_undoes_sealing s) (P.what_opens_was_sealed s) };

    fn sizes(&self, triple: Triple) -> Option<Sizes> {
        self.sizes_served(triple)
    }

    fn seal(
        &self,
        triple: Triple,
        inputs: Inputs<'_>,
        text: usize,
        out: &mut [u8],
        work: &mut [u8],
    ) -> Result<usize, Fault> {
        let sizes = self.sizes_served(triple).ok_or(Fault::NotServed)?;
        if !sizes.fit_sealing(triple, inputs, text, out.len(), work.len()) {
            return Err(Fault::Size);
        }
        let guard = WorkGuard { area: work };
        self.seal_fitting(triple, sizes, inputs, text, out, &mut guard.area[0..WORK])
    }

    fn open(
        &self,
        triple: Triple,
        inputs: Inputs<'_>,
        sealed: &[u8],
        out: &mut [u8],
        work: &mut [u8],
    ) -> Result<usize, Fault> {
        let sizes = self.sizes_served(triple).ok_or(Fault::NotServed)?;
        if !sizes.fit_opening(triple, inputs, sealed.len(), out.len(), work.len()) {
            return Err(Fault::Size);
        }
        let guard = WorkGuard { area: work };
        self.open_fitting(triple, sizes, inputs, sealed, out, &mut guard.area[0..WORK])
    }
}
