//! The items of a connection's bytes, and the texts of replies, a case a line.
//!
//! `open PIECE PIECE ..` feeds the pieces to a front, and `ended PIECE ..` ends the stream behind them.
//! A piece is parts joined by `+`, each in hexadecimal, or `COUNT*HEXADECIMAL` for so many times the same.
//! `times COUNT STEP PIECE` feeds a piece so many times, in parts of `step` bytes, and asks how many items come.
//! `reply OUTCOME VALUE head|whole keep|close` asks for a reply.
//!
//! `tests/http_table.py` makes the cases of its tables and of a reader that was written apart from this one.

use http_front::{Front, Item, Method, Outcome, Refusal, reply_text};
use std::alloc::{AllocError, Global};
use std::io;

/// The most bytes of a piece.
const MOST_BYTES: usize = 1 << 21;

/// The type of each reply's body where the function itself replied.
const CONTENT_TYPE: &str = "text/html";

/// What a line asks for that has no answer.
enum Failed {
    /// The line is no case.
    NoCase,
    NoMemory,
}

impl From<AllocError> for Failed {
    ghost from_gives = { λ _ _. Unit {0} };

    fn from(_error: AllocError) -> Failed {
        Failed::NoMemory
    }
}

/// Appends so many times the same bytes, up to the most.
fn push_repeated(piece: &mut Vec<u8>, count: usize, bytes: &[u8]) -> Result<(), Failed> {
    for _ in 0..count {
        if MOST_BYTES < piece.len() {
            return Err(Failed::NoCase);
        }
        piece.extend_from_slice(bytes)?;
    }
    Ok(())
}

/// Appends one part of a piece.
fn push_part(alloc: Global, piece: &mut Vec<u8>, part: &str) -> Result<(), Failed> {
    let (count, digits) = match part.split_once('*') {
        Some((count, digits)) => {
            let Ok(count) = count.parse::<usize>() else {
                return Err(Failed::NoCase);
            };
            (count, digits)
        }
        None => (1, part),
    };
    let Ok(bytes) = hex::decode(alloc, digits) else {
        return Err(Failed::NoCase);
    };
    push_repeated(piece, count, &bytes)
}

/// The bytes of a piece.
fn piece_of(alloc: Global, word: &str) -> Result<Vec<u8>, Failed> {
    let mut piece = Vec::new(alloc);
    for part in word.split('+') {
        push_part(alloc, &mut piece, part)?;
    }
    Ok(piece)
}

/// A number that tells bodies apart.
fn mark_of(body: &[u8]) -> u32 {
    let mut mark: u32 = 0;
    for b in body {
        mark = mark.wrapping_mul(31).wrapping_add(u32::from(*b));
    }
    mark
}

fn ending(keep: bool) -> &'static str {
    if keep { "keep" } else { "close" }
}

/// Prints an item.
fn print_item(rt: &impl Print, item: &Item) -> io::Result<()> {
    match item {
        Item::Request(ask) => {
            let method = match ask.method {
                Method::Get => "GET",
                Method::Head => "HEAD",
                Method::Post => "POST",
            };
            let path = ask.path.as_str();
            let ending = ending(ask.keep);
            let length = ask.body.len();
            let mark = mark_of(ask.body.as_slice());
            print!(rt; " {method} {path} {ending} {length}:{mark};")
        }
        Item::Fault { number, head, keep } => {
            let head = if *head { "head" } else { "whole" };
            let ending = ending(*keep);
            print!(rt; " {number} {head} {ending};")
        }
    }
}

fn print_items(rt: &impl Print, items: &[Item]) -> io::Result<()> {
    for item in items {
        print_item(rt, item)?;
    }
    Ok(())
}

fn push_all(items: &mut Vec<Item>, others: Vec<Item>) -> Result<(), AllocError> {
    for item in others {
        items.push(item)?;
    }
    Ok(())
}

/// The items of the pieces, and of the end of the stream behind them.
fn items_of(alloc: Global, pieces: &str, ended: bool) -> Result<Vec<Item>, Failed> {
    let mut front = Front::new(alloc);
    let mut items = Vec::new(alloc);
    if !pieces.is_empty() {
        for word in pieces.split(' ') {
            let piece = piece_of(alloc, word)?;
            push_all(&mut items, front.feed(&piece)?)?;
        }
    }
    if ended {
        push_all(&mut items, front.finish()?)?;
    }
    Ok(items)
}

/// How many items a piece gives that is fed so many times, in parts of `step` bytes.
fn count_of(alloc: Global, count: usize, step: usize, piece: &[u8]) -> Result<usize, Failed> {
    if step == 0 {
        return Err(Failed::NoCase);
    }
    let mut front = Front::new(alloc);
    let mut all: usize = 0;
    for _ in 0..count {
        for part in piece.chunks(step) {
            all = all.wrapping_add(front.feed(part)?.len());
        }
    }
    Ok(all)
}

/// The number of items that a line asks for.
fn counted(alloc: Global, words: &str) -> Result<usize, Failed> {
    let Some((count, words)) = words.split_once(' ') else {
        return Err(Failed::NoCase);
    };
    let Some((step, word)) = words.split_once(' ') else {
        return Err(Failed::NoCase);
    };
    let Ok(count) = count.parse::<usize>() else {
        return Err(Failed::NoCase);
    };
    let Ok(step) = step.parse::<usize>() else {
        return Err(Failed::NoCase);
    };
    let piece = piece_of(alloc, word)?;
    count_of(alloc, count, step, &piece)
}

/// The reply that is told by its outcome.
fn told_reply(
    alloc: Global,
    outcome: &str,
    value: &str,
    head: bool,
    keep: bool,
) -> Result<Vec<u8>, Failed> {
    match outcome {
        "bytes" => {
            let body = piece_of(alloc, value)?;
            Ok(reply_text(alloc, Outcome::Bytes(&body), CONTENT_TYPE, head, keep)?)
        }
        "exit" => match value.parse::<u32>() {
            Ok(code) => {
                if code == 0 {
                    return Err(Failed::NoCase);
                }
                Ok(reply_text(alloc, Outcome::Exit(code), CONTENT_TYPE, head, keep)?)
            }
            Err(_) => Err(Failed::NoCase),
        },
        "trap" => Ok(reply_text(
            alloc,
            Outcome::Trap("unreachable"),
            CONTENT_TYPE,
            head,
            keep,
        )?),
        "spent" => Ok(reply_text(alloc, Outcome::Spent, CONTENT_TYPE, head, keep)?),
        "refused" => match value.parse::<u8>() {
            Ok(number) => {
                if number < 1 || 10 < number {
                    return Err(Failed::NoCase);
                }
                Ok(reply_text(alloc, Outcome::Refused(number), CONTENT_TYPE, head, keep)?)
            }
            Err(_) => Err(Failed::NoCase),
        },
        _ => Err(Failed::NoCase),
    }
}

/// The reply that a line asks for, in hexadecimal.
fn reply_of(alloc: Global, words: &str) -> Result<String, Failed> {
    let Some((outcome, words)) = words.split_once(' ') else {
        return Err(Failed::NoCase);
    };
    let Some((value, words)) = words.split_once(' ') else {
        return Err(Failed::NoCase);
    };
    let Some((head, keep)) = words.split_once(' ') else {
        return Err(Failed::NoCase);
    };
    let text = told_reply(alloc, outcome, value, head == "head", keep == "keep")?;
    Ok(hex::encode(alloc, &text)?)
}

/// Prints why a line has no answer.
fn print_failure(rt: &impl Print, failed: Failed) -> io::Result<()> {
    match failed {
        Failed::NoCase => println!(rt; " no case"),
        Failed::NoMemory => println!(rt; " no memory"),
    }
}

/// Prints what a line asks for.
fn print_line(rt: &impl Print, alloc: Global, line: &str) -> io::Result<()> {
    let (kind, words) = line.split_once(' ').unwrap_or((line, ""));
    if kind == "reply" {
        return match reply_of(alloc, words) {
            Ok(text) => println!(rt; " {text}"),
            Err(failed) => print_failure(rt, failed),
        };
    }
    if kind == "times" {
        return match counted(alloc, words) {
            Ok(count) => println!(rt; " {count}"),
            Err(failed) => print_failure(rt, failed),
        };
    }
    match items_of(alloc, words, kind == "ended") {
        Ok(items) => {
            print_items(rt, &items)?;
            println!(rt; "")
        }
        Err(failed) => print_failure(rt, failed),
    }
}

/// Prints what each line asks for.
pub fn print_all(rt: &(impl Print + AllocGlobal), cases: &str) -> io::Result<()> {
    for line in cases.lines() {
        print_line(rt, rt.alloc(), line)?;
    }
    Ok(())
}
