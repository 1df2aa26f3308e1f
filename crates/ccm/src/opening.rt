// Opening: decryption-verification.
ghost use Rattle.std.specs.Prelude.{◌≡◌, ◌-◌, ◌≤◌, length, Ok, Err, if◌then◌else◌};
ghost use Rattle.std.specs.Option.{ok_or};
ghost use Rattle.octets.specs.Octets.{zeros, same};
ghost use Rattle.ccm.specs.Ccm.{masked, check_value, opened};
ghost use Rattle.ccm.specs.Calls.{opening, counted, output_after};
ghost use Rattle.ccm.specs.declared.fault.Fault.TheVariants.{Mismatch};

use crate::fault::Fault;
use crate::lengths::can_open;
use crate::packet::Packet;
use block::BlockCipher;
use std::marker::PhantomData;

// Opens sealed bytes into the start of `out` and answers how many bytes the text has. Where no text seals to them, as many
// bytes are zero.
pub fn open<B: BlockCipher>(
    schedule: &[u8],
    nonce: &[u8],
    aad: &[u8],
    check: usize,
    sealed: &[u8],
    out: &mut [u8],
) -> Result<usize, Fault>
    ensures text_counted { result ≡ counted (opening (B.forward schedule.now) check nonce.now aad.now sealed.now out.old) }
    ensures text_or_zeros_then_old { out.new ≡ output_after (opening (B.forward schedule.now) check nonce.now aad.now sealed.now out.old) (length sealed.now - check) out.old }
{
    if !can_open(nonce.len(), check, sealed.len(), out.len()) {
        return Err(Fault::Size);
    }
    // Stays: made here, where the lengths were tested, since what is tested beside them differs between the two directions.
    let packet = Packet::<B> {
        schedule,
        nonce,
        aad,
        check,
        cipher: PhantomData,
    };
    packet.open(sealed, out)
}

impl<'a, B: BlockCipher> Packet<'a, B> {
    // Opens `sealed` into the start of `out`, and answers how many bytes the text has.
    fn open(&self, sealed: &[u8], out: &mut [u8]) -> Result<usize, Fault>
        requires check_there { self.now.check ≤ length sealed.now }
        requires room { length sealed.now - self.now.check ≤ length out.old }
        ensures text_counted { result ≡ counted (ok_or (opened (B.forward self.now.schedule.now) self.now.check self.now.nonce.now self.now.aad.now sealed.now) Mismatch) }
        ensures text_or_zeros_then_old { out.new ≡ output_after (ok_or (opened (B.forward self.now.schedule.now) self.now.check self.now.nonce.now self.now.aad.now sealed.now) Mismatch) (length sealed.now - self.now.check) out.old }
    {
        let text = sealed.len() - self.check;
        let (masked, value) = sealed.split_at(text);
        self.open_parts(masked, value, &mut out[..text])
    }

    // Unmasks `text` into `out`, which is as long, and answers how many bytes that are. Where the check value over what comes out is not `value`, nothing of it is left.
    fn open_parts(&self, text: &[u8], value: &[u8], out: &mut [u8]) -> Result<usize, Fault>
        requires as_long { length out.old ≡ length text.now }
        ensures refused_where_the_check_value_is_wrong { result ≡ (if same value.now (check_value (B.forward self.now.schedule.now) self.now.check self.now.nonce.now self.now.aad.now (masked (B.forward self.now.schedule.now) self.now.nonce.now text.now)) then Ok (length text.now) else Err Mismatch) }
        ensures text_or_zeros { out.new ≡ (if same value.now (check_value (B.forward self.now.schedule.now) self.now.check self.now.nonce.now self.now.aad.now (masked (B.forward self.now.schedule.now) self.now.nonce.now text.now)) then masked (B.forward self.now.schedule.now) self.now.nonce.now text.now else zeros (length text.now)) }
    {
        out.copy_from_slice(text);
        self.mask(out);
        if !self.is_checked(out, value) {
            out.fill(0);
            return Err(Fault::Mismatch);
        }
        Ok(out.len())
    }
}
