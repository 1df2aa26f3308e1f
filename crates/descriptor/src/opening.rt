// Opening a descriptor.
ghost use Rattle.std.specs.Prelude.{◌≡◌, ◌≤◌, length, take, IfOk, Ok};
ghost use Rattle.layout.specs.Frame.{framed, InARow};
ghost use Rattle.descriptor.specs.Opening.{frame_opening, parts_opening, text_opening, opening, answer, data_after, work_after, with_label, unpadding};
ghost use Rattle.descriptor.specs.Laws.{SealingOf};
ghost use Rattle.descriptor.specs.Text.{data_of};

use crate::fault::Fault;
use crate::protection::Protection;
use crate::served::Served;
use layout::{Frame, Parts, Span, read_frame};
use octets::{bytes_are_octets, zero_first};
use padding::data_length;
use suite::Suite;

// What an opened descriptor carried, and how many bytes of data it holds.
#[derive(Clone, Copy, PartialEq, Eq, Debug)]
pub struct Opened {
    pub sai: u32,
    pub sqn: u64,
    pub length: usize,
}

// Opens the descriptor that stands at `place` of `list`: its data stand at the start of `data` then.
pub fn open<S: Suite>(
    suite: &S,
    under: Protection<'_>,
    list: &[u8],
    place: usize,
    span: Span,
    data: &mut [u8],
    work: &mut [u8],
) -> Result<Opened, Fault>
    ensures label_and_data_length_answered { result ≡ with_label (framed list.now place span) (answer (opening (S.meaning suite.now) under.entry list.now «data».old work.old place span)) }
    ensures data_then_zeros_then_old { «data».new ≡ data_after (opening (S.meaning suite.now) under.entry list.now «data».old work.old place span) «data».old }
    ensures work_bytes_zero { work.new ≡ work_after (opening (S.meaning suite.now) under.entry list.now «data».old work.old place span) work.old }
    ensures what_opens_was_sealed { IfOk result (λ o. ((f : Frame) → framed list.now place span ≡ Ok f → SealingOf (S.meaning suite.now) under.entry list.now f (take o.length «data».new))) }
{
    let frame = read_frame(list, place, span)?;
    let length = open_frame(suite, under, list, frame, data, work)?;
    Ok(Opened {
        sai: frame.sai,
        sqn: frame.sqn,
        length,
    })
}

// Opens the descriptor of a frame that was read from `list`.
pub fn open_frame<S: Suite>(
    suite: &S,
    under: Protection<'_>,
    list: &[u8],
    frame: Frame,
    data: &mut [u8],
    work: &mut [u8],
) -> Result<usize, Fault>
    ensures data_length_answered { result ≡ answer (frame_opening (S.meaning suite.now) under.entry list.now «data».old work.old frame) }
    ensures data_then_zeros_then_old { «data».new ≡ data_after (frame_opening (S.meaning suite.now) under.entry list.now «data».old work.old frame) «data».old }
    ensures work_bytes_zero { work.new ≡ work_after (frame_opening (S.meaning suite.now) under.entry list.now «data».old work.old frame) work.old }
    ensures what_opens_was_sealed { IfOk result (λ n. SealingOf (S.meaning suite.now) under.entry list.now frame (take n «data».new)) }
{
    bytes_are_octets(list);
    let served = Served::ask(suite, under)?;
    if list.len() < frame.end {
        return Err(Fault::Layout(layout::Fault::Length));
    }
    let sizes = served.sizes;
    let parts = frame.parts(sizes.vector, sizes.check, sizes.unit, sizes.encrypts)?;
    served.open_parts(list, frame, parts, data, work)
}

impl<'a, S: Suite> Served<'a, S> {
    // Opens the descriptor whose parts stand at these places of `list`.
    fn open_parts(
        &self,
        list: &[u8],
        frame: Frame,
        parts: Parts,
        data: &mut [u8],
        work: &mut [u8],
    ) -> Result<usize, Fault>
        requires in_a_row { InARow frame self.now.sizes.vector self.now.sizes.check parts }
        requires in_the_list { frame.end ≤ length list.now }
        ensures data_length_answered { result ≡ answer (parts_opening (S.meaning self.now.suite.now) self.now.under list.now «data».old work.old self.now.sizes frame (Ok parts)) }
        ensures data_then_zeros_then_old { «data».new ≡ data_after (parts_opening (S.meaning self.now.suite.now) self.now.under list.now «data».old work.old self.now.sizes frame (Ok parts)) «data».old }
        ensures work_bytes_zero { work.new ≡ work_after (parts_opening (S.meaning self.now.suite.now) self.now.under list.now «data».old work.old self.now.sizes frame (Ok parts)) work.old }
    {
        let Parts {
            vector,
            protected,
            end,
            ..
        } = parts;
        self.open_text(
            &list[frame.head..vector],
            &list[vector..protected],
            &list[protected..end],
            data,
            work,
        )
    }

    // Opens sealed bytes with the suite, and takes the padding off.
    fn open_text(
        &self,
        head: &[u8],
        vector: &[u8],
        sealed: &[u8],
        data: &mut [u8],
        work: &mut [u8],
    ) -> Result<usize, Fault>
        ensures data_length_answered { result ≡ answer (text_opening (S.meaning self.now.suite.now) self.now.under self.now.sizes head.now vector.now sealed.now «data».old work.old) }
        ensures data_then_zeros_then_old { «data».new ≡ data_after (text_opening (S.meaning self.now.suite.now) self.now.under self.now.sizes head.now vector.now sealed.now «data».old work.old) «data».old }
        ensures work_bytes_zero { work.new ≡ work_after (text_opening (S.meaning self.now.suite.now) self.now.under self.now.sizes head.now vector.now sealed.now «data».old work.old) work.old }
    {
        bytes_are_octets(head);
        bytes_are_octets(vector);
        bytes_are_octets(sealed);
        let inputs = self.under.inputs(head, vector);
        let text = self
            .suite
            .open(self.under.triple, inputs, sealed, data, work)?;
        self.unpad(text, data)
    }

    // The data of the text that is the first `text` bytes of `data`, with zeros behind them; zeros alone where the padding is wrong.
    fn unpad(&self, text: usize, data: &mut [u8]) -> Result<usize, Fault>
        requires text_stands_there { text ≤ length «data».old }
        ensures data_length_answered { result ≡ answer (unpadding (data_of self.now.sizes (take text «data».old)) text) }
        ensures data_then_zeros_then_old { «data».new ≡ data_after (unpadding (data_of self.now.sizes (take text «data».old)) text) «data».old }
    {
        if !self.sizes.encrypts {
            return Ok(text);
        }
        match data_length(&data[0..text]) {
            Some(n) => {
                zero_first(text - n, &mut data[n..text]);
                Ok(n)
            }
            None => {
                zero_first(text, data);
                Err(Fault::Padding)
            }
        }
    }
}
