//! Names by a table, and the places of their refusals. The table `body` of `wasm_tables` has the spellings of numbers.

use std::process::Abort;
use wasm_ops::{Cursor, Fault, Refusal};

// A window over all of a row's bytes.
fn whole<'a>(rt: &impl Abort, bytes: &'a [u8]) -> Cursor<'a> {
    assert!(rt; bytes.len() < 100);
    Cursor::new(bytes, 0, bytes.len() as u32)
}

// What is found takes all of a row's bytes, and a refusal leaves the cursor at the first one.
fn expect_place(rt: &impl Abort, cursor: &Cursor<'_>, found: bool) {
    if found {
        assert!(rt; cursor.is_at_end());
    } else {
        assert_eq!(rt; cursor.at(), 0);
    }
}

// The number and the place of a refusal.
fn refused<T>(why: Refusal, place: u32) -> Result<T, (u8, u32)> {
    numbered(Err(why.at(place)))
}

// An answer, with the number and the place of a refusal.
fn numbered<T>(answer: Result<T, Fault>) -> Result<T, (u8, u32)> {
    answer.map_err(|fault| (fault.number, fault.place))
}

#[test]
fn names(rt: HostRuntime) {
    let rows: [(&[u8], Result<(u32, u32), (u8, u32)>); 11] = [
        (&[0], Ok((1, 0))),
        (&[6, b'_', b's', b't', b'a', b'r', b't'], Ok((1, 6))),
        (&[0x82, 0x00, 0xC3, 0xA9], Ok((2, 2))),
        (&[4, 0xF0, 0x9D, 0x84, 0x9E], Ok((1, 4))),
        (&[0x80], refused(Refusal::CutShort, 1)),
        (
            &[0xFF, 0xFF, 0xFF, 0xFF, 0x1F],
            refused(Refusal::LebSpare, 0),
        ),
        (&[3, b'a', b'b'], refused(Refusal::CutShort, 3)),
        (&[2, 0xC3, 0x28], refused(Refusal::NotUtf8, 1)),
        // An overlong form, half of a surrogate pair and a character that the text cuts.
        (&[0x82, 0x00, 0xC0, 0x80], refused(Refusal::NotUtf8, 2)),
        (&[3, 0xED, 0xA0, 0x80], refused(Refusal::NotUtf8, 1)),
        (&[1, 0xC3, 0xA9], refused(Refusal::NotUtf8, 1)),
    ];
    for (bytes, want) in rows {
        let mut cursor = whole(&rt, bytes);
        assert_eq!(rt; numbered(cursor.name()), want, "{bytes:?}");
        expect_place(&rt, &cursor, want.is_ok());
    }
}

// The places count from the first byte, and nothing behind the window is read.
#[test]
fn windows(rt: HostRuntime) {
    let bytes = [0x11, 0x22, 0x05, 0x80, 0x01, 0xAA, 0x80, 0x00];
    let mut cursor = Cursor::new(&bytes, 2, 7);
    assert_eq!(rt; numbered(cursor.byte()), Ok(0x05));
    assert_eq!(rt; numbered(cursor.u32_leb()), Ok(128));
    assert_eq!(rt; cursor.at(), 5);
    assert_eq!(rt; numbered(cursor.take(3)), refused(Refusal::CutShort, 7));
    assert_eq!(rt; numbered(cursor.take(1)), Ok([0xAA].as_slice()));
    assert_eq!(rt; numbered(cursor.s64_leb()), refused(Refusal::CutShort, 7));
    assert_eq!(rt; numbered(cursor.byte()), Ok(0x80));
    assert!(rt; cursor.is_at_end());
    assert_eq!(rt; numbered(cursor.byte()), refused(Refusal::CutShort, 7));
    assert_eq!(rt; numbered(cursor.name()), refused(Refusal::CutShort, 7));
    assert_eq!(rt; cursor.at(), 7);
}
