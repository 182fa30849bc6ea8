//! What a command is handed: files and outputs in memory, and its words.

use crate::cases::Asked;
use outside::{Cut, Page, Shelf, Text};
use std::alloc::Global;

/// The most bytes that an output takes.
const ROOM: u64 = 1 << 20;

/// The most bytes of a file.
const MOST_BYTES: usize = 1 << 21;

/// All that a command is handed but its gate.
#[derive(Drop)]
pub struct Outside {
    pub words: Vec<String>,
    pub lib: Shelf,
    pub out: Page,
    pub notes: Page,
}

impl Outside {
    /// What a command is handed over the files that the block lays, if its line says it.
    pub fn new(alloc: Global, block: &str, asked: &Asked<'_>) -> Option<Outside> {
        let words = words_of(alloc, asked.words)?;
        let Some(lib) = shelf_of(alloc, block, asked.read) else {
            drop(words);
            return None;
        };
        let Some(out) = page_of(alloc, asked.out) else {
            drop(words);
            drop(lib);
            return None;
        };
        let Some(notes) = page_of(alloc, asked.notes) else {
            drop(words);
            drop(lib);
            drop(out);
            return None;
        };
        Some(Outside {
            words,
            lib,
            out,
            notes,
        })
    }
}

/// The words between blanks.
fn words_of(alloc: Global, line: &str) -> Option<Vec<String>> {
    let mut words = Vec::new(alloc);
    for word in line.split(' ') {
        words.push(String::from_str(alloc, word).ok()?).ok()?;
    }
    Some(words)
}

/// An output of which this call fails.
pub fn page_of(alloc: Global, cut: &str) -> Option<Page> {
    let mut cuts = Vec::new(alloc);
    if cut != "-" {
        let (call, passes) = cut.split_once(':')?;
        cuts.push(Cut {
            call: call.parse().ok()?,
            passes: passes.parse().ok()?,
        })
        .ok()?;
    }
    Page::new(alloc, ROOM, cuts).ok()
}

/// The files that the block lays, of which this call fails.
fn shelf_of(alloc: Global, block: &str, read: &str) -> Option<Shelf> {
    let mut failing = Vec::new(alloc);
    if read != "-" {
        failing.push(read.parse::<u64>().ok()?).ok()?;
    }
    let files = files_of(alloc, block)?;
    Some(Shelf::new(files, failing))
}

/// The files that the block lays.
fn files_of(alloc: Global, block: &str) -> Option<Vec<(Text, Vec<u8>)>> {
    let mut files = Vec::new(alloc);
    for line in block.lines() {
        if let Some(laid) = line.strip_prefix("file ") {
            files.push(file_of(alloc, laid)?).ok()?;
        }
    }
    Some(files)
}

/// The file with a name and bytes.
fn file_of(alloc: Global, laid: &str) -> Option<(Text, Vec<u8>)> {
    let (name, spelling) = laid.split_once(' ')?;
    let bytes = bytes_of(alloc, spelling)?;
    match String::from_str(alloc, name) {
        Ok(name) => Some((Text::new(name), bytes)),
        Err(_) => {
            drop(bytes);
            None
        }
    }
}

/// The bytes of parts.
fn bytes_of(alloc: Global, spelling: &str) -> Option<Vec<u8>> {
    let mut bytes = Vec::new(alloc);
    if spelling != "-" {
        for part in spelling.split('+') {
            add_part(alloc, &mut bytes, part)?;
        }
    }
    Some(bytes)
}

/// Appends one part.
fn add_part(alloc: Global, bytes: &mut Vec<u8>, part: &str) -> Option<()> {
    let (count, digits) = part.split_once('*').unwrap_or(("1", part));
    let piece = hex::decode(alloc, digits).ok()?;
    add_repeated(bytes, count.parse().ok()?, &piece)
}

/// Appends so many times the same bytes, up to the most.
fn add_repeated(bytes: &mut Vec<u8>, count: usize, piece: &[u8]) -> Option<()> {
    for _ in 0..count {
        if MOST_BYTES < bytes.len() {
            return None;
        }
        bytes.extend_from_slice(piece).ok()?;
    }
    Some(())
}
