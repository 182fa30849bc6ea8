// The words of a row.
use outside_links::Cut;
use std::alloc::{AllocError, AllocFailed, Global};

/// The line is no row, or what it needs was not to be had.
#[derive(Drop)]
pub(crate) struct NoRow;

impl From<AllocError> for NoRow {
    ghost from_gives = { λ _ _. Unit {0} };

    fn from(_error: AllocError) -> NoRow {
        NoRow
    }
}

impl<T: Drop> From<AllocFailed<T>> for NoRow {
    ghost from_gives = { λ _ _. Unit {0} };

    fn from(_error: AllocFailed<T>) -> NoRow {
        NoRow
    }
}

/// The number that a word spells.
pub(crate) fn number_in(word: &str) -> Result<u64, NoRow> {
    match word.parse::<u64>() {
        Ok(number) => Ok(number),
        Err(_) => Err(NoRow),
    }
}

/// The numbers of a list.
pub(crate) fn numbers_in(alloc: Global, word: &str) -> Result<Vec<u64>, NoRow> {
    let mut numbers = Vec::new(alloc);
    for part in word.split(',') {
        if part != "-" && numbers.push(number_in(part)?).is_err() {
            return Err(NoRow);
        }
    }
    Ok(numbers)
}

/// The cut that a word spells, if it does.
fn cut_in(part: &str) -> Result<Cut, NoRow> {
    let (call, passes) = part.split_once(':').unwrap_or((part, ""));
    Ok(Cut {
        call: number_in(call)?,
        passes: number_in(passes)?,
    })
}

/// The cuts of a list.
pub(crate) fn cuts_in(alloc: Global, word: &str) -> Result<Vec<Cut>, NoRow> {
    let mut cuts = Vec::new(alloc);
    for part in word.split(',') {
        if part != "-" && cuts.push(cut_in(part)?).is_err() {
            return Err(NoRow);
        }
    }
    Ok(cuts)
}

/// The pieces of a list.
pub(crate) fn pieces_in(alloc: Global, word: &str) -> Result<Vec<Vec<u8>>, NoRow> {
    let mut pieces = Vec::new(alloc);
    for part in word.split(',') {
        if part != "-" {
            let piece = Vec::from_slice(alloc, part.as_bytes())?;
            if pieces.push(piece).is_err() {
                return Err(NoRow);
            }
        }
    }
    Ok(pieces)
}

/// How a flag is printed.
pub(crate) fn mark_of(flag: bool) -> &'static str {
    if flag { "yes" } else { "no" }
}

/// Says a word. What can't be printed is missed by whoever compares what was.
pub(crate) fn say(rt: &impl Print, word: &str) {
    let _ = print!(rt; " {word}");
}
