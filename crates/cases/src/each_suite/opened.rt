// What was sealed, opened, under each suite.
use super::padded::each_padding;
use super::triples::SERVED;
use crate::calls::{Call, filled, first, first_mut, used, wiped};
use std::process::Abort;
use std::test::Fail;
use suite::{Fault, Suite};
use suites::standard_bank;

// A text of bytes 7 is sealed at the start of `out`.
fn seals<S: Suite>(rt: &impl Abort, suite: &S, call: Call, out: &mut [u8; 64]) {
    let mut work = used();
    let answer = suite.seal(call.triple, call.inputs(), call.text, out, &mut work);
    assert_eq!(rt; answer, Ok(call.sealed()));
    assert!(rt; work == wiped());
}

// Opening what is sealed gives this answer, and leaves the text's length of `byte` and then old ones.
fn opens<S: Suite>(
    rt: &impl Abort,
    suite: &S,
    call: Call,
    sealed: &[u8],
    answer: Result<usize, Fault>,
    byte: u8,
) {
    let mut out = filled(0, 0);
    let mut work = used();
    let found = suite.open(
        call.triple,
        call.inputs(),
        first(sealed, call.sealed()),
        first_mut(&mut out, call.text),
        &mut work,
    );
    assert_eq!(rt; found, answer);
    assert!(rt; out == filled(call.text, byte));
    assert!(rt; work == wiped());
}

// It opens to the text, and is a mismatch once a bit of the byte `at` is turned.
fn opens_unless_damaged<S: Suite>(rt: &impl Abort, suite: &S, call: Call, at: usize) {
    let mut bytes = filled(call.text, 7);
    seals(rt, suite, call, &mut bytes);
    opens(rt, suite, call, &bytes, Ok(call.text), 7);
    bytes[at.min(63)] ^= 1;
    opens(rt, suite, call, &bytes, Err(Fault::Mismatch), 0);
}

// Damage in the first byte of the text, and in the first byte of the check value.
fn each_opens_unless_damaged<S: Suite>(rt: &impl Abort, suite: &S) -> Result<(), Fail> {
    for triple in SERVED {
        let sizes = suite.sizes(triple).ok_or(Fault::NotServed)?;
        let call = Call::fitting(triple, sizes);
        for at in [0, 32] {
            opens_unless_damaged(rt, suite, call, at);
        }
    }
    Ok(())
}

fn every_text<S: Suite>(rt: &impl Abort, suite: &S) -> Result<(), Fail> {
    each_opens_unless_damaged(rt, suite)?;
    each_padding(rt, suite);
    Ok(())
}

#[test]
fn texts(rt: HostRuntime) -> Result<(), Fail> {
    every_text(&rt, &standard_bank())
}
