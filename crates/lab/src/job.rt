// The job: one descriptor under ENCR_NULL, in each form, made, opened, damaged and opened again.
use descriptor::Protection;
use layout::Form;
use suite::{Fault, Suite, Triple};
use suites::{AUTH_HMAC_SHA2_256_128, ENCR_NULL};
use workbench::{Lesson, tell_bytes};

// ENCR_NULL has no encryption key, no salt and no vector.
const LONG: Lesson = Lesson {
    title: "Long form",
    form: Form::Long,
    protection: Protection {
        triple: Triple {
            encryption: ENCR_NULL,
            integrity: AUTH_HMAC_SHA2_256_128,
            key: 0,
        },
        key: &[],
        salt: &[],
        integrity: b"an integrity key for the lesson.",
    },
    vector: &[],
    plain: b"hello",
};

pub(crate) const LESSONS: [Lesson; 2] = [
    LONG,
    Lesson {
        title: "Short form",
        form: Form::Short,
        ..LONG
    },
];

// What is said of the check value.
const REMARK: &str =
    "Its check value is over head, vector and protected part; the head is SAI and SQN.";

// One form of the descriptor, from the data to the damaged copy.
pub(crate) fn tell_form<S: Suite>(
    rt: &impl Print,
    suite: &S,
    lesson: Lesson,
) -> anyhow::Result<()> {
    println!(rt;
        "\n{}\n\n1. The data. They are the protected part as they are, since ENCR_NULL does not encrypt.",
        lesson.title
    )?;
    tell_bytes(rt, "Data:", lesson.plain)?;
    let sizes = suite
        .sizes(lesson.protection.triple)
        .ok_or(Fault::NotServed)?;
    lesson.tell(rt, suite, sizes, REMARK, 8)?;
    Ok(())
}
