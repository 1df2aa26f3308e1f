// The job: one descriptor of the bank made, opened, damaged and opened again.
use padding::pad_length;
use std::io;
use suite::{Sizes, Suite};
use workbench::{Lesson, tell_bytes};

// What is said of the check value.
const REMARK: &str =
    "Its check value is over the head (SAI and SQN), the vector and what is protected.";

// One lesson, from the data to the damaged copy.
pub(crate) fn tell_lesson<S: Suite>(rt: &impl Print, suite: &S, lesson: Lesson) -> io::Result<()> {
    println!(rt; "\n{}\n", lesson.title)?;
    let Some(sizes) = suite.sizes(lesson.protection.triple) else {
        return rt.println("   The bank does not serve this triple.");
    };
    tell_text(rt, sizes, lesson.plain)?;
    lesson.tell(rt, suite, sizes, REMARK, 18)
}

// The data, and what is sealed of them.
fn tell_text(rt: &impl Print, sizes: Sizes, plain: &[u8]) -> io::Result<()> {
    rt.println("1. The data.")?;
    tell_bytes(rt, "Data:", plain)?;
    if !sizes.encrypts {
        return rt.println(
            "     They are the protected part as they are: the suite does not encrypt.",
        );
    }
    let padding = pad_length(plain.len(), sizes.unit);
    let sealed = plain.len().saturating_add(padding).saturating_add(2);
    println!(rt;
        "     Padded to units of {}: p is {padding}, so {padding} padding bytes, PAD LENGTH and a zero byte make e {sealed}.",
        sizes.unit
    )
}
