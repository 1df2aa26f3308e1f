// Where a descriptor in a list begins and ends, and its SAI and SQN.
ghost use Rattle.std.specs.Prelude.{◌≡◌, ◌+◌, ◌≤◌, length, IfOk};
ghost use Rattle.layout.specs.Frame.{framed, parted, reach, InARow, Within};

use crate::fault::Fault;
use crate::form::{Form, HEAD_LEN, Span};
use octets::Number;

#[derive(Clone, Copy, Drop)]
pub struct Frame {
    pub form: Form,
    // the place of the SAI in the list
    pub head: usize,
    // where the descriptor ends in the list
    pub end: usize,
    pub sai: u32,
    pub sqn: u64,
}

// How many bytes the descriptor at `place` has.
fn descriptor_len(list: &[u8], place: usize, span: Span) -> usize
    requires has_a_length { place + 2 ≤ length list.now }
    ensures { result ≡ reach list.now place span }
{
    match span {
        Span::Long => 2 + u16::read(list, place).unwrap() as usize,
        Span::Short(len) => len,
    }
}

// The frame of the descriptor at `place`.
pub fn read_frame(list: &[u8], place: usize, span: Span) -> Result<Frame, Fault>
    ensures as_framed { result ≡ framed list.now place span }
    ensures within_the_list { IfOk result (Within list.now) }
{
    let form = span.form();
    let least = form.lead() + HEAD_LEN;
    let left = list.len().saturating_sub(place);
    if left < least {
        return Err(Fault::Cut);
    }
    let len = descriptor_len(list, place, span);
    if len < least || left < len {
        return Err(Fault::Length);
    }
    let head = place + form.lead();
    Ok(Frame {
        form,
        head,
        end: place + len,
        sai: u32::read(list, head).unwrap(),
        sqn: u64::read(list, head + 4).unwrap(),
    })
}

// The places in the list where the parts of a descriptor begin, and where it ends.
#[derive(Clone, Copy, Drop)]
pub struct Parts {
    pub vector: usize,
    pub protected: usize,
    pub check: usize,
    pub end: usize,
}

impl Frame {
    // The parts of the descriptor, under a suite with these sizes. A unit of 0 is taken as 1.
    // Stays: the definitions speak of both, and a text in clear has a unit too, which an `Option` of it would not tell.
    pub fn parts(
        &self,
        vector_len: usize,
        check_len: usize,
        unit: usize,
        encrypts: bool,
    ) -> Result<Parts, Fault>
        ensures as_parted { result ≡ parted self.now vector_len check_len unit encrypts }
        ensures in_a_row { IfOk result (InARow self.now vector_len check_len) }
    {
        let len = self.end.saturating_sub(self.head);
        if len < HEAD_LEN
            || len - HEAD_LEN < vector_len
            || len - HEAD_LEN - vector_len < check_len
        {
            return Err(Fault::Parts);
        }
        let protected_len = len - HEAD_LEN - vector_len - check_len;
        if protected_len % unit.max(1) != 0 || encrypts && protected_len == 0 {
            return Err(Fault::Parts);
        }
        let vector = self.head + HEAD_LEN;
        let protected = vector + vector_len;
        Ok(Parts {
            vector,
            protected,
            check: protected + protected_len,
            end: self.end,
        })
    }
}
