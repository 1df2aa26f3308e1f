// Padding: how long it is, and which texts end with one.
use padding::{data_length, pad_length, write_trailer};

#[test]
fn least_padding(rt: HostRuntime) {
    for (unit, n, p) in [
        (16, 0, 14),
        (16, 5, 9),
        (16, 14, 0),
        (16, 15, 15),
        (16, 16, 14),
        (4, 0, 2),
        (4, 2, 0),
        (4, 3, 3),
        (1, 5, 0),
        (0, 5, 0),
    ] {
        assert_eq!(rt; pad_length(n, unit), p);
    }
}

#[test]
fn short_texts(rt: HostRuntime) {
    let cases: [(&[u8], Option<usize>); 10] = [
        (&[], None),
        (&[0], None),
        (&[0, 0], Some(0)),
        // PAD LENGTH passes the text's start
        (&[1, 0], None),
        (&[1, 1, 0], Some(0)),
        (&[7, 1, 2, 2, 0], Some(1)),
        // a wrong byte of padding
        (&[7, 2, 2, 2, 0], None),
        (&[7, 1, 1, 2, 0], None),
        // a wrong PAD LENGTH
        (&[7, 1, 2, 3, 0], None),
        // the last byte is not zero
        (&[7, 1, 2, 2, 1], None),
    ];
    for (text, n) in cases {
        assert_eq!(rt; data_length(text), n);
    }
}

// A text of 258 bytes.
fn nines() -> [u8; 258] {
    [9; 258]
}

#[test]
fn longest_trailer(rt: HostRuntime) {
    let mut text = nines();
    write_trailer(&mut text, 0);
    assert!(rt; text == nines(), "no trailer has 258 bytes");
    write_trailer(&mut text, 1);
    assert_eq!(rt; text[0], 9);
    assert_eq!(rt; text[255], 255);
    assert_eq!(rt; text[256], 255);
    assert_eq!(rt; text[257], 0);
    assert_eq!(rt; data_length(&text), Some(1));
    assert_eq!(rt;
        data_length(&text[2..258]),
        None,
        "one byte of padding is missing"
    );
}
