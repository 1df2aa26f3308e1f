// Making a descriptor.
ghost use Rattle.std.specs.Prelude.{◌≡◌, ◌+◌, ◌≤◌, length, take, IfOk, Ok};
ghost use Rattle.octets.specs.Octets.{over, wiped};
ghost use Rattle.layout.specs.Layout.{head_of, lead};
ghost use Rattle.layout.specs.Refusals.{first_fit, judged};
ghost use Rattle.descriptor.specs.Laws.{OpensTo};
ghost use Rattle.descriptor.specs.Making.{making, answer, output_after, work_after, make_tests, made_length, made_bytes, keys_fit, lead_of, front, Makeable};
ghost use Rattle.descriptor.specs.Worked.{WorkedLengths};
ghost use Rattle.descriptor.specs.Text.{text_length, text_of};

use crate::fault::Fault;
use crate::protection::Protection;
use crate::served::Served;
use layout::Form;
use octets::{bytes_are_octets, copy_over};
use padding::{pad_length, write_trailer};
use suite::{HEAD, Suite, WORK};

// The most bytes that a descriptor may have.
pub const LONGEST: usize = 65535;

// What a descriptor carries in clear: its form, the SAI that it goes to, and its number.
#[derive(Clone, Copy)]
pub struct Label {
    pub form: Form,
    pub sai: u32,
    pub sqn: u64,
}

// Makes `data` into a descriptor at the start of `out`, and answers its length.
pub fn make<'a, S: Suite>(
    suite: &S,
    under: Protection<'a>,
    label: Label,
    vector: &'a [u8],
    data: &[u8],
    out: &mut [u8],
    work: &mut [u8],
) -> Result<usize, Fault>
    ensures length_answered { result ≡ answer (making (S.meaning suite.now) under.entry label vector.now «data».now out.old work.old) }
    ensures descriptor_then_old { out.new ≡ output_after (making (S.meaning suite.now) under.entry label vector.now «data».now out.old work.old) out.old }
    ensures work_bytes_zero { work.new ≡ work_after (making (S.meaning suite.now) under.entry label vector.now «data».now out.old work.old) work.old }
    ensures opens_to_its_data { IfOk result (λ n. OpensTo (S.meaning suite.now) under.entry label «data».now (take n out.new)) }
{
    bytes_are_octets(vector);
    bytes_are_octets(data);
    let served = Served::ask(suite, under)?;
    served.admit(label.form, vector, data, out, work)?;
    served.make_fitting(label, vector, data, out, work)
}

// What stands before the SAI in the long form.
fn long_lead(total: usize) -> [u8; 4]
    requires a_length { (4 ≤ total) × (total ≤ 65535) }
    ensures length_then_zeros { result ≡ lead_of Form.Long total }
{
    let [high, low] = ((total - 2) as u16).to_be_bytes();
    [high, low, 0, 0]
}

// SAI and SQN, as the check value covers them.
fn head_of(label: Label) -> [u8; HEAD]
    ensures sai_then_sqn { result ≡ head_of label.sai label.sqn }
{
    let mut head = [0; HEAD];
    head[..4].copy_from_slice(&label.sai.to_be_bytes());
    head[4..].copy_from_slice(&label.sqn.to_be_bytes());
    head
}

// Writes what stands before the protected part.
fn write_front(label: Label, total: usize, vector: &[u8], out: &mut [u8])
    requires fits { (lead label.form + 12 + length vector.now ≤ length out.old) × ((4 ≤ total) × (total ≤ 65535)) }
    ensures front_then_old { out.new ≡ over (front label total vector.now) out.old }
{
    let at = label.form.lead();
    if let Form::Long = label.form {
        out[..at].copy_from_slice(&long_lead(total));
    }
    out[at..at + HEAD].copy_from_slice(&head_of(label));
    out[at + HEAD..at + HEAD + vector.len()].copy_from_slice(vector);
}

impl<'a, S: Suite> Served<'a, S> {
    // Whether keys and salt have the sizes that the suite tells.
    fn keys_fit(&self) -> bool
        ensures whether_they_fit { result ≡ keys_fit self.now.under self.now.sizes }
    {
        let Served { under, sizes, .. } = *self;
        under.key.len() == under.triple.key
            && under.salt.len() == sizes.salt
            && under.integrity.len() == sizes.integrity
    }

    // The length that the text of `n` data bytes has.
    fn text_length(&self, n: usize) -> usize
        requires small { n ≤ 65535 }
        ensures as_padded { result ≡ text_length self.now.sizes n }
        ensures no_more_than_a_unit_longer { result ≤ n + 17 }
    {
        if self.sizes.encrypts {
            n + pad_length(n, self.sizes.unit) + 2
        } else {
            n
        }
    }

    // The length that a descriptor of `n` data bytes has.
    fn made_length(&self, form: Form, n: usize) -> usize
        requires small { n ≤ 65535 }
        ensures all_its_parts { result ≡ made_length form self.now.sizes n }
        ensures worked_lengths { WorkedLengths }
    {
        form.lead() + HEAD + self.sizes.vector + self.text_length(n) + self.sizes.check
    }

    // The first refusal that fits, if one does.
    fn admit(
        &self,
        form: Form,
        vector: &[u8],
        data: &[u8],
        out: &[u8],
        work: &[u8],
    ) -> Result<(), Fault>
        ensures first_that_fits { result ≡ judged (first_fit (make_tests self.now.under form self.now.sizes (length vector.now) (length «data».now) (length out.now) (length work.now))) tt }
    {
        if work.len() < WORK || !self.keys_fit() {
            return Err(Fault::Suite(suite::Fault::Size));
        }
        if vector.len() != self.sizes.vector {
            return Err(Fault::Vector);
        }
        if LONGEST < data.len() {
            return Err(Fault::TooLong);
        }
        let total = self.made_length(form, data.len());
        if LONGEST < total {
            return Err(Fault::TooLong);
        }
        if out.len() < total {
            return Err(Fault::Output);
        }
        Ok(())
    }

    // Fills `text` with the text of the data.
    fn write_text(&self, data: &[u8], text: &mut [u8])
        requires fits { length text.old ≡ text_length self.now.sizes (length «data».now) }
        ensures text_of_the_data { text.new ≡ text_of self.now.sizes «data».now }
    {
        copy_over(data, text);
        if self.sizes.encrypts {
            write_trailer(text, data.len());
        }
    }

    // Writes the descriptor, of which all lengths fit.
    fn make_fitting(
        &self,
        label: Label,
        vector: &[u8],
        data: &[u8],
        out: &mut [u8],
        work: &mut [u8],
    ) -> Result<usize, Fault>
        requires fits { Makeable self.now.under label.form self.now.sizes (length vector.now) (length «data».now) (length out.old) (length work.old) }
        ensures length_answered { result ≡ Ok (length (made_bytes (S.meaning self.now.suite.now) self.now.under label vector.now «data».now out.old work.old self.now.sizes)) }
        ensures descriptor_then_old { out.new ≡ over (made_bytes (S.meaning self.now.suite.now) self.now.under label vector.now «data».now out.old work.old self.now.sizes) out.old }
        ensures work_bytes_zero { work.new ≡ wiped 240 work.old }
    {
        let Served {
            suite,
            under,
            sizes,
        } = *self;
        let text = self.text_length(data.len());
        let start = label.form.lead() + HEAD + sizes.vector;
        let total = start + text + sizes.check;
        write_front(label, total, vector, out);
        self.write_text(data, &mut out[start..start + text]);
        let head = head_of(label);
        let inputs = under.inputs(&head, vector);
        suite.seal(under.triple, inputs, text, &mut out[start..total], work)?;
        Ok(total)
    }
}
