// Descriptors that arrive with a padding of their own, under AES-CBC with AUTH_HMAC_SHA2_256_128.
use crate::calls::{Call, OLD, used, wiped};
use descriptor::{Fault, Opened, Protection, open};
use layout::Span;
use octets::copy_over;
use std::process::Abort;
use suite::{Suite, Triple};
use suites::{AES_CBC, AUTH_HMAC_SHA2_256_128};

const CALL: Call = Call {
    triple: Triple {
        encryption: AES_CBC,
        integrity: AUTH_HMAC_SHA2_256_128,
        key: 16,
    },
    key: 16,
    salt: 0,
    integrity: 32,
    head: 12,
    vector: 16,
    text: 32,
    check: 16,
    short: 0,
    work: 240,
};

// SAI, SQN and vector of the short form are bytes 7; 32 bytes of text and the check value follow.
const FRONT: usize = 28;

const TOTAL: usize = 76;

// A text of 5 data bytes 1 and 25 bytes of padding, PAD LENGTH and the zero byte, with one byte changed.
fn text(at: usize, change: u8) -> [u8; 32] {
    let mut text = [1; 32];
    for (byte, number) in text[5..30].iter_mut().zip(1..=25) {
        *byte = number;
    }
    text[30] = 25;
    text[31] = 0;
    text[at.min(31)] ^= change;
    text
}

// Bytes 7 for keys.
fn under() -> Protection<'static> {
    let inputs = CALL.inputs();
    Protection {
        triple: CALL.triple,
        key: inputs.key,
        salt: inputs.salt,
        integrity: inputs.integrity,
    }
}

// Seals a text under a vector of bytes 7 into the end of a list.
fn seal_behind<S: Suite>(rt: &impl Abort, suite: &S, text: &[u8], list: &mut [u8]) {
    copy_over(text, list);
    let mut work = used();
    let answer = suite.seal(CALL.triple, CALL.inputs(), CALL.text, list, &mut work);
    assert_eq!(rt; answer, Ok(48));
}

// What opening the descriptor of a text answers, and what it leaves in a data buffer of 34 bytes.
fn opens<S: Suite>(
    rt: &impl Abort,
    suite: &S,
    text: [u8; 32],
    answer: Result<Opened, Fault>,
    left: [u8; 34],
) {
    let mut list = [7; TOTAL];
    seal_behind(rt, suite, &text, &mut list[FRONT..TOTAL]);
    let mut buffer = [OLD; 34];
    let mut area = used();
    let found = open(
        suite,
        under(),
        &list,
        0,
        Span::Short(TOTAL),
        &mut buffer,
        &mut area,
    );
    assert_eq!(rt; found, answer);
    assert!(rt; buffer == left);
    assert!(rt; area == wiped());
}

// Five data bytes with p 25 are taken: data, then zeros, then old bytes.
fn takes_more_padding<S: Suite>(rt: &impl Abort, suite: &S) {
    let mut left = [OLD; 34];
    copy_over(&[0; 32], &mut left);
    copy_over(&[1; 5], &mut left);
    let answer = Ok(Opened {
        sai: 0x0707_0707,
        sqn: 0x0707_0707_0707_0707,
        length: 5,
    });
    opens(rt, suite, text(0, 0), answer, left);
}

// A padding byte, PAD LENGTH or the zero byte is wrong: zeros where the text would stand.
fn refuses_wrong_padding<S: Suite>(rt: &impl Abort, suite: &S) {
    let mut left = [OLD; 34];
    copy_over(&[0; 32], &mut left);
    for at in [5, 29, 30, 31] {
        opens(rt, suite, text(at, 1), Err(Fault::Padding), left);
    }
}

// What arrives padded in a way of its own.
pub(crate) fn each_padding<S: Suite>(rt: &impl Abort, suite: &S) {
    takes_more_padding(rt, suite);
    refuses_wrong_padding(rt, suite);
}
