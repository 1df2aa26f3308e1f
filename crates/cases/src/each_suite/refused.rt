// Calls that are refused, under each suite. A refusal changes no byte.
use super::triples::{SERVED, UNSERVED};
use crate::calls::{Call, SEVENS, filled, first, first_mut, used};
use std::process::Abort;
use std::test::Fail;
use suite::{Fault, Suite};
use suites::standard_bank;

// Opening bytes 7 is refused.
fn open_refused<S: Suite>(rt: &impl Abort, suite: &S, call: Call, fault: Fault) {
    let mut out = filled(0, 7);
    let mut work = used();
    let answer = suite.open(
        call.triple,
        call.inputs(),
        first(&SEVENS, call.sealed()),
        first_mut(&mut out, call.text.saturating_sub(call.short)),
        first_mut(&mut work, call.work),
    );
    assert_eq!(rt; answer, Err(fault));
    assert!(rt; out == filled(0, 7));
    assert!(rt; work == used());
}

fn both_refused<S: Suite>(rt: &impl Abort, suite: &S, call: Call, fault: Fault) {
    call.seal_refused(rt, suite, 7, fault);
    open_refused(rt, suite, call, fault);
}

// Each length that is wrong by one, and an output that is one byte short.
fn wrong_by_one(call: Call) -> [Call; 8] {
    [
        Call {
            key: call.key.wrapping_add(1),
            ..call
        },
        Call {
            salt: call.salt.wrapping_add(1),
            ..call
        },
        Call {
            integrity: call.integrity.wrapping_add(1),
            ..call
        },
        Call { head: 11, ..call },
        Call { head: 13, ..call },
        Call {
            vector: call.vector.wrapping_add(1),
            ..call
        },
        Call { work: 239, ..call },
        Call { short: 1, ..call },
    ]
}

// Lengths that are wrong by one, and a text that has no whole units.
fn sizes_refused<S: Suite>(rt: &impl Abort, suite: &S) -> Result<(), Fail> {
    for triple in SERVED {
        let sizes = suite.sizes(triple).ok_or(Fault::NotServed)?;
        let call = Call::fitting(triple, sizes);
        for wrong in wrong_by_one(call) {
            both_refused(rt, suite, wrong, Fault::Size);
        }
        if sizes.unit > 1 {
            both_refused(rt, suite, Call { text: 31, ..call }, Fault::Size);
        }
    }
    Ok(())
}

// A triple that is not served is refused as such, though the work area is too short.
fn triples_refused<S: Suite>(rt: &impl Abort, suite: &S) {
    for triple in UNSERVED {
        let call = Call {
            triple,
            key: triple.key,
            salt: 0,
            integrity: 20,
            head: 12,
            vector: 16,
            text: 32,
            check: 12,
            short: 1,
            work: 239,
        };
        both_refused(rt, suite, call, Fault::NotServed);
    }
}

fn every_refusal<S: Suite>(rt: &impl Abort, suite: &S) -> Result<(), Fail> {
    sizes_refused(rt, suite)?;
    triples_refused(rt, suite);
    Ok(())
}

#[test]
fn refusals(rt: HostRuntime) -> Result<(), Fail> {
    every_refusal(&rt, &standard_bank())
}
