// CCM under a key, a nonce and a head.
ghost use Rattle.std.specs.Prelude.{◌≡◌, ◌+◌, ◌-◌, ◌^◌, ◌<◌, ◌≤◌, true, length, take, is_some, Ok, IsOk, IfOk};
ghost use Rattle.std.specs.Option.{ok_or};
ghost use Rattle.octets.specs.Octets.{over};
ghost use Rattle.ccm.specs.Ccm.{sealed, opened};
ghost use Rattle.suite.specs.Meaning.{given, counted, output_after};
ghost use Rattle.suite.specs.declared.fault.Fault.TheVariants.{Mismatch};
ghost use Rattle.combined.specs.CcmSuite.{nonce};

use crate::faults::suite_fault;
use crate::nonce::{NONCE, SALT, VECTOR, joined};
use block::BlockCipher;
use std::marker::PhantomData;
use suite::{Fault, Inputs};

// The bytes of the check value.
pub(crate) const CHECK: usize = 16;

// What both directions start with: the key's schedule, which stands in the work area, the nonce, and the head.
#[derive(Drop)]
pub(crate) struct Keyed<'a, B> {
    pub schedule: &'a [u8],
    pub nonce: [u8; NONCE],
    pub head: &'a [u8],
    pub cipher: PhantomData<B>,
}

impl<'a, B: BlockCipher> Keyed<'a, B> {
    // Writes the schedule of the key over the start of `work`. Refused where key, salt, vector or work area has the wrong length.
    pub(crate) fn new(inputs: Inputs<'a>, work: &'a mut [u8]) -> Result<Keyed<'a, B>, Fault>
        ensures made_where_lengths_fit { is_some (B.scheduled (length (given inputs.entry).key)) ≡ true → length (given inputs.entry).salt ≡ 3 → length (given inputs.entry).vector ≡ 8 → 240 ≤ length work.old → IsOk result }
        ensures schedule_of_the_key { IfOk result (λ k. k.schedule.now ≡ B.expanded (given inputs.entry).key) }
        ensures salt_then_vector { IfOk result (λ k. k.nonce ≡ nonce (given inputs.entry)) }
        ensures same_head { IfOk result (λ k. k.head.now ≡ (given inputs.entry).head) }
    {
        if inputs.salt.len() != SALT || inputs.vector.len() != VECTOR {
            return Err(Fault::Size);
        }
        let schedule = B::expand_key(inputs.key, work).ok_or(Fault::Size)?;
        Ok(Keyed {
            schedule: &work[..schedule],
            nonce: joined(inputs.salt, inputs.vector),
            head: inputs.head,
            cipher: PhantomData,
        })
    }

    // Seals the text at the start of `out`.
    pub(crate) fn seal(&self, text: usize, out: &mut [u8]) -> Result<usize, Fault>
        ensures sealed_bytes_counted { text < 2 ^ 32 → text + 16 ≤ length out.old → result ≡ Ok (length (sealed (B.forward self.now.schedule.now) 16 self.now.nonce self.now.head.now (take text out.old))) }
        ensures sealed_bytes_then_old { text < 2 ^ 32 → text + 16 ≤ length out.old → out.new ≡ over (sealed (B.forward self.now.schedule.now) 16 self.now.nonce self.now.head.now (take text out.old)) out.old }
    {
        let answer = ccm::seal::<B>(self.schedule, &self.nonce, self.head, CHECK, text, out);
        answer.map_err(suite_fault)
    }

    // Opens `bytes` into the start of `out`.
    pub(crate) fn open(&self, bytes: &[u8], out: &mut [u8]) -> Result<usize, Fault>
        ensures text_counted { 16 ≤ length bytes.now → length bytes.now - 16 < 2 ^ 32 → length bytes.now - 16 ≤ length out.old → result ≡ counted (ok_or (opened (B.forward self.now.schedule.now) 16 self.now.nonce self.now.head.now bytes.now) Mismatch) }
        ensures text_or_zeros_then_old { 16 ≤ length bytes.now → length bytes.now - 16 < 2 ^ 32 → length bytes.now - 16 ≤ length out.old → out.new ≡ output_after (ok_or (opened (B.forward self.now.schedule.now) 16 self.now.nonce self.now.head.now bytes.now) Mismatch) (length bytes.now - 16) out.old }
    {
        let answer = ccm::open::<B>(self.schedule, &self.nonce, self.head, CHECK, bytes, out);
        answer.map_err(suite_fault)
    }
}
