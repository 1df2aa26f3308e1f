// Opening a descriptor.
use crate::calls::{OLD, old, used, wiped};
use crate::under::{EMPTY, LONG, SERVED, UNSERVED};
use descriptor::{Fault, Opened, Protection, open};
use layout::Span;
use std::process::Abort;
use suite::Suite;
use suites::null_hmac_sha2_256_128;

const KEY: [u8; 32] = [7; 32];

const UNDER: Protection<'static> = Protection {
    triple: SERVED,
    key: &[],
    salt: &[],
    integrity: &KEY,
};

const FIVE: [u8; 8] = [1, 2, 3, 4, 5, OLD, OLD, OLD];

// The answer where the descriptor opens to `length` bytes of data.
fn found(length: usize) -> Result<Opened, Fault> {
    Ok(Opened {
        sai: 0x8000_0102,
        sqn: 9,
        length,
    })
}

// A list with a descriptor in it, and what it is opened under.
#[derive(Clone, Copy)]
struct Arrived<'a> {
    under: Protection<'a>,
    list: &'a [u8],
    place: usize,
    span: Span,
}

const WHOLE: Arrived<'static> = Arrived {
    under: UNDER,
    list: &LONG,
    place: 0,
    span: Span::Long,
};

// Opening gives this answer, after which the buffer is `data` and the work area `area`.
fn opens<S: Suite>(
    rt: &impl Abort,
    suite: &S,
    arrived: Arrived<'_>,
    answer: Result<Opened, Fault>,
    data: [u8; 8],
    area: [u8; 241],
) {
    let Arrived {
        under,
        list,
        place,
        span,
    } = arrived;
    let mut out = [OLD; 8];
    let mut work = used();
    assert_eq!(rt;
        open(suite, under, list, place, span, &mut out, &mut work),
        answer
    );
    assert!(rt; out == data);
    assert!(rt; work == area);
}

// Opening is refused, and changes no byte.
fn refused<S: Suite>(rt: &impl Abort, suite: &S, arrived: Arrived<'_>, fault: Fault) {
    opens(rt, suite, arrived, Err(fault), [OLD; 8], used());
}

// The descriptor at place 9 of a list.
fn between_old_bytes() -> [u8; 64] {
    let mut list = old();
    list[9..46].copy_from_slice(&LONG);
    list
}

#[test]
fn opened_data(rt: HostRuntime) {
    let suite = null_hmac_sha2_256_128();
    let list = between_old_bytes();
    let mut reserved = LONG;
    reserved[2] = 0xff;
    reserved[3] = 0xff;
    let cases: [(&[u8], usize, Span); 5] = [
        (&LONG, 0, Span::Long),
        (&LONG, 4, Span::Short(33)),
        (&list, 9, Span::Long),
        (&list, 13, Span::Short(33)),
        (&reserved, 0, Span::Long),
    ];
    for (list, place, span) in cases {
        let arrived = Arrived {
            under: UNDER,
            list,
            place,
            span,
        };
        opens(&rt, &suite, arrived, found(5), FIVE, wiped());
    }
    let empty = Arrived {
        list: &EMPTY,
        span: Span::Short(28),
        ..WHOLE
    };
    opens(&rt, &suite, empty, found(0), [OLD; 8], wiped());
}

#[test]
fn not_in_the_list(rt: HostRuntime) {
    let cases: [(usize, Span, layout::Fault); 9] = [
        (26, Span::Long, layout::Fault::Cut),
        (usize::MAX, Span::Long, layout::Fault::Cut),
        (38, Span::Short(33), layout::Fault::Cut),
        // the bytes 00 09 of the SQN as DESCRIPTOR LENGTH
        (14, Span::Long, layout::Fault::Length),
        (4, Span::Short(11), layout::Fault::Length),
        (4, Span::Short(34), layout::Fault::Length),
        (4, Span::Short(usize::MAX), layout::Fault::Length),
        (4, Span::Short(12), layout::Fault::Parts),
        (4, Span::Short(27), layout::Fault::Parts),
    ];
    for (place, span, fault) in cases {
        let arrived = Arrived {
            place,
            span,
            ..WHOLE
        };
        refused(&rt, &null_hmac_sha2_256_128(), arrived, fault.into());
    }
}

// Zeros stand where the data would.
#[test]
fn no_turned_bit_opens(rt: HostRuntime) {
    let answer = Err(Fault::Suite(suite::Fault::Mismatch));
    let data = [0, 0, 0, 0, 0, OLD, OLD, OLD];
    // Stays: the loop goes over places, not over bytes: each time one byte of a fresh copy is damaged.
    for place in 4..37 {
        let mut list = LONG;
        list[place] ^= 0x10;
        let damaged = Arrived {
            list: &list,
            ..WHOLE
        };
        opens(
            &rt,
            &null_hmac_sha2_256_128(),
            damaged,
            answer,
            data,
            wiped(),
        );
    }
}

// The triple is looked at before the key, and nothing is altered.
#[test]
fn refused_by_the_suite(rt: HostRuntime) {
    let short_key = Protection {
        integrity: &KEY[0..31],
        ..UNDER
    };
    let unserved = Protection {
        triple: UNSERVED[0],
        ..short_key
    };
    for (under, fault) in [
        (unserved, suite::Fault::NotServed),
        (short_key, suite::Fault::Size),
    ] {
        let arrived = Arrived { under, ..WHOLE };
        refused(&rt, &null_hmac_sha2_256_128(), arrived, fault.into());
    }
}
