// Sealing under ENCR_NULL with AUTH_HMAC_SHA2_256_128.
use crate::calls::{Call, OLD};
use crate::under::{SERVED, UNSERVED};
use suite::Fault;
use suites::null_hmac_sha2_256_128;

const SEALING: Call = Call {
    triple: SERVED,
    key: 0,
    salt: 0,
    integrity: 32,
    head: 12,
    vector: 0,
    text: 5,
    check: 16,
    short: 0,
    work: 240,
};

// Each length that is wrong by one, and each room that is one byte short.
#[test]
fn wrong_sizes(rt: HostRuntime) {
    for call in [
        Call { key: 1, ..SEALING },
        Call { salt: 1, ..SEALING },
        Call {
            integrity: 31,
            ..SEALING
        },
        Call {
            head: 11,
            ..SEALING
        },
        Call {
            head: 13,
            ..SEALING
        },
        Call {
            vector: 1,
            ..SEALING
        },
        Call {
            short: 1,
            ..SEALING
        },
        Call {
            work: 239,
            ..SEALING
        },
    ] {
        call.seal_refused(&rt, &null_hmac_sha2_256_128(), OLD, Fault::Size);
    }
}

// A triple that is not served is refused as such, though lengths are wrong too.
#[test]
fn unserved_comes_first(rt: HostRuntime) {
    for triple in UNSERVED {
        let call = Call {
            triple,
            work: 239,
            ..SEALING
        };
        call.seal_refused(&rt, &null_hmac_sha2_256_128(), OLD, Fault::NotServed);
    }
}
