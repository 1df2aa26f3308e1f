// What the examples bring to a call, and how they look at what is left.
use std::process::Abort;
use suite::{Fault, HEAD, Inputs, Sizes, Suite, Triple, WORK};

// What old bytes of an output and of a work area are before a call.
pub(crate) const OLD: u8 = 0xaa;

pub(crate) const USED: u8 = 0xee;

// Bytes of 7 for keys, head, vector and text.
pub(crate) const SEVENS: [u8; 64] = [7; 64];

// What a call of a suite brings: a triple, and lengths.
#[derive(Clone, Copy)]
pub(crate) struct Call {
    pub triple: Triple,
    pub key: usize,
    pub salt: usize,
    pub integrity: usize,
    pub head: usize,
    pub vector: usize,
    pub text: usize,
    pub check: usize,
    // how many bytes the output has less than are needed
    pub short: usize,
    pub work: usize,
}

impl Call {
    // Lengths that fit, with a text of 32 bytes.
    pub(crate) fn fitting(triple: Triple, sizes: Sizes) -> Self {
        Call {
            triple,
            key: triple.key,
            salt: sizes.salt,
            integrity: sizes.integrity,
            head: HEAD,
            vector: sizes.vector,
            text: 32,
            check: sizes.check,
            short: 0,
            work: WORK,
        }
    }

    pub(crate) fn inputs(self) -> Inputs<'static> {
        Inputs {
            key: first(&SEVENS, self.key),
            salt: first(&SEVENS, self.salt),
            integrity: first(&SEVENS, self.integrity),
            head: first(&SEVENS, self.head),
            vector: first(&SEVENS, self.vector),
        }
    }

    // The bytes of text and check value.
    pub(crate) fn sealed(self) -> usize {
        self.text.saturating_add(self.check)
    }

    // Sealing a text of these bytes is refused, and changes no byte.
    pub(crate) fn seal_refused<S: Suite>(self, rt: &impl Abort, suite: &S, byte: u8, fault: Fault) {
        let mut out = filled(self.text, byte);
        let mut work = used();
        let answer = suite.seal(
            self.triple,
            self.inputs(),
            self.text,
            first_mut(&mut out, self.sealed().saturating_sub(self.short)),
            first_mut(&mut work, self.work),
        );
        assert_eq!(rt; answer, Err(fault));
        assert!(rt; out == filled(self.text, byte));
        assert!(rt; work == used());
    }
}

// The first `n` bytes, or all where they are fewer.
pub(crate) fn first(bytes: &[u8], n: usize) -> &[u8] {
    &bytes[..n.min(bytes.len())]
}

pub(crate) fn first_mut(bytes: &mut [u8], n: usize) -> &mut [u8] {
    let n = n.min(bytes.len());
    &mut bytes[..n]
}

// A buffer of 64 bytes of which the first `n` are `byte` and the rest are old.
pub(crate) fn filled(n: usize, byte: u8) -> [u8; 64] {
    let mut out = old();
    first_mut(&mut out, n).fill(byte);
    out
}

// An output, and a work area of 241 bytes, before a call.
pub(crate) fn old() -> [u8; 64] {
    [OLD; 64]
}

pub(crate) fn used() -> [u8; 241] {
    [USED; 241]
}

// The work area after a call that was begun.
pub(crate) fn wiped() -> [u8; 241] {
    let mut work = [0; 241];
    work[240] = USED;
    work
}
