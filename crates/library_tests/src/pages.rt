//! What a page takes, by values written out by hand, in rooms of many sizes and with each of its
//! calls cut in turn.

use outside::{Cut, Page, Sink};
use std::alloc::{AllocError, Global};
use std::process::Abort;
use std::test::Fail;

// A cut of a call, by its number and what it lets pass. Of two cuts of one call the first stands.
fn cuts(alloc: Global, cut: Option<(u64, u64)>) -> Result<Vec<Cut>, AllocError> {
    match cut {
        None => Ok(Vec::new(alloc)),
        Some((call, passes)) => {
            Vec::from_slice(alloc, &[Cut { call, passes }, Cut { call, passes: 7 }])
        }
    }
}

fn expect_write(rt: &impl Abort, page: &mut Page, piece: &str, passes: bool) {
    let faults = page.faults();
    let result = page.write(piece.as_bytes());
    assert_eq!(rt; result.is_ok(), passes, "{piece}");
    assert_eq!(rt;
        page.faults(),
        faults.saturating_add(u64::from(!passes)),
        "{piece}"
    );
}

// Writes "one", "two" and "three" to a page: which of the three pass, and what is taken.
fn expect_taken(
    rt: &impl Abort,
    alloc: Global,
    room: u64,
    cut: Option<(u64, u64)>,
    passes: [bool; 3],
    taken: &str,
) -> Result<(), AllocError> {
    let mut page = Page::new(alloc, room, cuts(alloc, cut)?)?;
    assert_eq!(rt; page.faults(), 0);
    expect_write(rt, &mut page, "one", passes[0]);
    expect_write(rt, &mut page, "two", passes[1]);
    expect_write(rt, &mut page, "three", passes[2]);
    assert_eq!(rt; page.bytes(), taken.as_bytes(), "{room} at {cut:?}");
    expect_write(rt, &mut page, "", true);
    drop(page);
    Ok(())
}

#[test]
fn takes_what_fits_in_its_room(rt: HostRuntime) -> Result<(), Fail> {
    expect_taken(&rt, rt.alloc(), 0, None, [false, false, false], "")?;
    expect_taken(&rt, rt.alloc(), 3, None, [true, false, false], "one")?;
    expect_taken(&rt, rt.alloc(), 5, None, [true, false, false], "onetw")?;
    expect_taken(&rt, rt.alloc(), 6, None, [true, true, false], "onetwo")?;
    expect_taken(&rt, rt.alloc(), 7, None, [true, true, false], "onetwot")?;
    expect_taken(&rt, rt.alloc(), 11, None, [true, true, true], "onetwothree")?;
    Ok(())
}

#[test]
fn takes_what_passes_its_cuts(rt: HostRuntime) -> Result<(), Fail> {
    expect_taken(
        &rt,
        rt.alloc(),
        11,
        Some((0, 0)),
        [false, true, true],
        "twothree",
    )?;
    expect_taken(
        &rt,
        rt.alloc(),
        11,
        Some((0, 2)),
        [false, true, true],
        "ontwothree",
    )?;
    expect_taken(
        &rt,
        rt.alloc(),
        11,
        Some((0, 9)),
        [false, true, true],
        "onetwothree",
    )?;
    expect_taken(
        &rt,
        rt.alloc(),
        11,
        Some((1, 0)),
        [true, false, true],
        "onethree",
    )?;
    expect_taken(
        &rt,
        rt.alloc(),
        11,
        Some((1, 1)),
        [true, false, true],
        "onetthree",
    )?;
    expect_taken(
        &rt,
        rt.alloc(),
        11,
        Some((2, 4)),
        [true, true, false],
        "onetwothre",
    )?;
    Ok(())
}
