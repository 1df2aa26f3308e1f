// Sealing: generation-encryption.
ghost use Rattle.std.specs.Prelude.{◌≡◌, ◌+◌, ◌≤◌, length, take};
ghost use Rattle.octets.specs.Octets.{over};
ghost use Rattle.ccm.specs.Ccm.{masked, check_value, sealed};
ghost use Rattle.ccm.specs.Calls.{sealing, counted, output_after};

use crate::fault::Fault;
use crate::lengths::can_seal;
use crate::packet::Packet;
use block::BlockCipher;
use std::marker::PhantomData;

// Seals the first `text` bytes of `out` there, with a check value of `check` bytes behind them, and answers how many bytes
// are sealed.
// Stays: a text is sealed where it stands, since the engine has no heap; so its length is told beside it.
pub fn seal<B: BlockCipher>(
    schedule: &[u8],
    nonce: &[u8],
    aad: &[u8],
    check: usize,
    text: usize,
    out: &mut [u8],
) -> Result<usize, Fault>
    ensures sealed_bytes_counted { result ≡ counted (sealing (B.forward schedule.now) check nonce.now aad.now text out.old) }
    ensures sealed_bytes_then_old { out.new ≡ output_after (sealing (B.forward schedule.now) check nonce.now aad.now text out.old) 0 out.old }
{
    if !can_seal(nonce.len(), check, text, out.len()) {
        return Err(Fault::Size);
    }
    // Stays: made here, where the lengths were tested, since what is tested beside them differs between the two directions.
    let packet = Packet::<B> {
        schedule,
        nonce,
        aad,
        check,
        cipher: PhantomData,
    };
    Ok(packet.seal(text, out))
}

impl<'a, B: BlockCipher> Packet<'a, B> {
    // Seals the first `text` bytes of `out`, and answers how many bytes are sealed.
    fn seal(&self, text: usize, out: &mut [u8]) -> usize
        requires room { text + self.now.check ≤ length out.old }
        ensures sealed_bytes_counted { result ≡ length (sealed (B.forward self.now.schedule.now) self.now.check self.now.nonce.now self.now.aad.now (take text out.old)) }
        ensures sealed_then_old { out.new ≡ over (sealed (B.forward self.now.schedule.now) self.now.check self.now.nonce.now self.now.aad.now (take text out.old)) out.old }
    {
        let (front, rest) = out.split_at_mut(text);
        self.seal_parts(front, &mut rest[..self.check]);
        text + self.check
    }

    // Masks `text`, and fills `value` with the check value over the text as it was, before it is masked.
    fn seal_parts(&self, text: &mut [u8], value: &mut [u8])
        requires as_long { length value.old ≡ self.now.check }
        ensures text_masked { text.new ≡ masked (B.forward self.now.schedule.now) self.now.nonce.now text.old }
        ensures check_value_of_the_text { value.new ≡ check_value (B.forward self.now.schedule.now) self.now.check self.now.nonce.now self.now.aad.now text.old }
    {
        self.write_check_value(text, value);
        self.mask(text);
    }
}
