//! The search for the head of a request in the bytes that have come.
ghost use Rattle.std.specs.Prelude.{◌≡◌, ◌==◌, ◌+◌, ◌≤◌, ◌++◌, length, None, IfOk};
ghost use Rattle.std.specs.List.{list_any};
ghost use Rattle.http_items.specs.Heads.{head_in};
ghost use Rattle.http_front.specs.Searches.{Parses, Finds};

use crate::headings::Opening;
use crate::parsed::Heading;
use httparse::Status;
use httparse::spans::{EMPTY_HEADER_SPAN, parse_request};
use std::alloc::{AllocError, Global};

/// The most bytes that a head may have.
pub const MOST_HEAD: usize = 8192;

/// The most lines that a head may have.
pub const MOST_LINES: usize = 128;

/// What a search found.
#[derive(Drop)]
pub enum Search {
    /// What the head opens, and how many bytes it has.
    Found(Opening, usize),

    /// There is no head so far. These are the bytes.
    Missing(Vec<u8>),
}

/// What the head in front of the bytes opens, and how many bytes it has.
fn parse(alloc: Global, text: &[u8]) -> Result<Option<(Opening, usize)>, AllocError>
    requires { length text.now ≤ 8192 }
    ensures { IfOk result (Parses text.now) }
{
    let mut lines = [EMPTY_HEADER_SPAN; MOST_LINES];
    match parse_request(text, &mut lines) {
        Ok(Status::Complete(head)) => {
            let written = lines.split_at(head.headers).0;
            let heading = Heading {
                buf: text,
                method: head.method.of(text),
                target: head.path.of(text),
                minor: head.version,
                lines: written,
            };
            let opening = heading.opening(alloc)?;
            Ok(Some((opening, head.len)))
        }
        Ok(Status::Partial) => Ok(None),
        Err(_) => Ok(None),
    }
}

/// The bytes held and those taken behind them.
fn joined(alloc: Global, mut held: Vec<u8>, taken: &[u8]) -> Result<Vec<u8>, AllocError>
    ensures { IfOk result (λ all. all.items ≡ held.items ++ taken.now) }
{
    if held.is_empty() {
        Vec::from_slice(alloc, taken)
    } else {
        held.extend_from_slice(taken)?;
        Ok(held)
    }
}

fn has_line_feed(bytes: &[u8]) -> bool
    ensures { result ≡ list_any (λ b. b == 10) bytes.now }
{
    bytes.iter().any(|b| *b == b'\n')
}

/// Looks for a head in the bytes held, in which there is none, and those taken behind them. A head ends in a line feed, so nothing is parsed where none was taken; and where nothing is held the bytes are parsed in their place.
pub fn find_head(alloc: Global, held: Vec<u8>, taken: &[u8]) -> Result<Search, AllocError>
    requires missing { head_in held.items ≡ None }
    requires within { length held.items + length taken.now ≤ 8192 }
    ensures { IfOk result (Finds (held.items ++ taken.now)) }
{
    if has_line_feed(taken) {
        if held.is_empty() {
            let found = parse(alloc, taken)?;
            match found {
                Some((opening, length)) => Ok(Search::Found(opening, length)),
                None => {
                    let all = joined(alloc, held, taken)?;
                    Ok(Search::Missing(all))
                }
            }
        } else {
            let all = joined(alloc, held, taken)?;
            let found = parse(alloc, all.as_slice())?;
            match found {
                Some((opening, length)) => Ok(Search::Found(opening, length)),
                None => Ok(Search::Missing(all)),
            }
        }
    } else {
        let unparsed = joined(alloc, held, taken)?;
        Ok(Search::Missing(unparsed))
    }
}
