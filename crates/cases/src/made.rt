// Making a descriptor.
use crate::calls::{OLD, SEVENS, first, first_mut, old, used, wiped};
use crate::under::{EMPTY, LONG, SERVED, UNSERVED};
use descriptor::{Fault, Label, Protection, make};
use layout::Form;
use octets::copy_over;
use std::process::Abort;
use std::test::Fail;
use suite::{Suite, Triple};
use suites::null_hmac_sha2_256_128;

const DATA: [u8; 5] = [1, 2, 3, 4, 5];

// What making brings: the form, a triple, and lengths.
#[derive(Clone, Copy)]
struct Making {
    form: Form,
    triple: Triple,
    key: usize,
    salt: usize,
    integrity: usize,
    vector: usize,
    out: usize,
    work: usize,
}

const FITTING: Making = Making {
    form: Form::Long,
    triple: SERVED,
    key: 0,
    salt: 0,
    integrity: 32,
    vector: 0,
    out: 37,
    work: 240,
};

fn label(form: Form) -> Label {
    Label {
        form,
        sai: 0x8000_0102,
        sqn: 9,
    }
}

fn protection(call: Making) -> Protection<'static> {
    Protection {
        triple: call.triple,
        key: first(&SEVENS, call.key),
        salt: first(&SEVENS, call.salt),
        integrity: first(&SEVENS, call.integrity),
    }
}

// Making is refused, and changes no byte.
fn refused<S: Suite>(rt: &impl Abort, suite: &S, call: Making, data: &[u8], fault: Fault) {
    let mut out = old();
    let mut work = used();
    let answer = make(
        suite,
        protection(call),
        label(call.form),
        first(&SEVENS, call.vector),
        data,
        first_mut(&mut out, call.out),
        first_mut(&mut work, call.work),
    );
    assert_eq!(rt; answer, Err(fault));
    assert!(rt; out == old());
    assert!(rt; work == used());
}

// In the order of the tests: the first that fits is the answer.
#[test]
fn refused_calls(rt: HostRuntime) {
    let size = Fault::Suite(suite::Fault::Size);
    let unserved = Making {
        triple: UNSERVED[0],
        work: 239,
        ..FITTING
    };
    refused(
        &rt,
        &null_hmac_sha2_256_128(),
        unserved,
        &DATA,
        Fault::Suite(suite::Fault::NotServed),
    );
    for (call, fault) in [
        (
            Making {
                integrity: 31,
                ..FITTING
            },
            size,
        ),
        (
            Making {
                work: 239,
                vector: 1,
                out: 0,
                ..FITTING
            },
            size,
        ),
        (
            Making {
                vector: 1,
                out: 0,
                ..FITTING
            },
            Fault::Vector,
        ),
        (Making { out: 36, ..FITTING }, Fault::Output),
        (
            Making {
                form: Form::Short,
                out: 32,
                ..FITTING
            },
            Fault::Output,
        ),
    ] {
        refused(&rt, &null_hmac_sha2_256_128(), call, &DATA, fault);
    }
}

// The data are made into `descriptor`, with old bytes behind it.
fn makes<S: Suite>(rt: &impl Abort, suite: &S, form: Form, data: &[u8], descriptor: &[u8]) {
    let mut out = [OLD; 40];
    let mut work = used();
    let under = protection(FITTING);
    let answer = make(suite, under, label(form), &[], data, &mut out, &mut work);
    assert_eq!(rt; answer, Ok(descriptor.len()));
    let mut expected = [OLD; 40];
    copy_over(descriptor, &mut expected);
    assert!(rt; out == expected);
    assert!(rt; work == wiped());
}

#[test]
fn made_bytes(rt: HostRuntime) {
    let suite = null_hmac_sha2_256_128();
    makes(&rt, &suite, Form::Long, &DATA, &LONG);
    makes(&rt, &suite, Form::Short, &DATA, &LONG[4..37]);
    makes(&rt, &suite, Form::Short, &[], &EMPTY);
}

#[test]
fn too_long(rt: HostRuntime) -> Result<(), Fail> {
    let data = vec![in rt.alloc(); 0; 65_504]?;
    refused(
        &rt,
        &null_hmac_sha2_256_128(),
        FITTING,
        &data,
        Fault::TooLong,
    );
    Ok(())
}
