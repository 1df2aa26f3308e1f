// A descriptor with its fields named.
use crate::bytes::Hex;
use layout::Form;
use std::{fmt, io};
use suite::{HEAD, Sizes};

// A field of a descriptor: its name, where it begins, and its bytes.
#[derive(Clone, Copy)]
struct Field<'a> {
    name: &'static str,
    place: usize,
    bytes: &'a [u8],
}

impl<'a> Field<'a> {
    // The field of the bytes from one place to another; none where the descriptor does not reach so far.
    fn new(name: &'static str, descriptor: &'a [u8], place: usize, end: usize) -> Self {
        Field {
            name,
            place,
            bytes: descriptor.get(place..end).unwrap_or(&[]),
        }
    }
}

impl fmt::Display for Field<'_> {
    fn fmt<W: fmt::Write>(&self, f: &mut fmt::Formatter<W>) -> fmt::Result {
        let Field { name, place, bytes } = *self;
        write!(f, "     {place:>2}  {name:<18}  {}", Hex(bytes))
    }
}

// A line for each field: its place, its name and its bytes. The head stands last, as the one thing that it is to the suite.
pub(crate) fn tell_fields(
    rt: &impl Print,
    form: Form,
    sizes: Sizes,
    descriptor: &[u8],
) -> io::Result<()> {
    if let Form::Long = form {
        rt.println(Field::new("DESCRIPTOR LENGTH", descriptor, 0, 2))?;
        rt.println(Field::new("reserved", descriptor, 2, 4))?;
    }
    let sai = form.lead();
    let sqn = sai + 4;
    let vector = sai + HEAD;
    let protected = vector.saturating_add(sizes.vector);
    let end = descriptor.len();
    let check = end.saturating_sub(sizes.check);
    for field in [
        Field::new("SAI", descriptor, sai, sqn),
        Field::new("SQN", descriptor, sqn, vector),
        Field::new("vector", descriptor, vector, protected),
        Field::new("protected part", descriptor, protected, check),
        Field::new("check value", descriptor, check, end),
        Field::new("head, as one", descriptor, sai, vector),
    ] {
        rt.println(field)?;
    }
    Ok(())
}
