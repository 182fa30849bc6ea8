//! The heading of a request where it stands in the bytes that have come.
ghost use Rattle.std.specs.Prelude.{length, All};
ghost use Rattle.httparse.specs.Spans.{IsHeaderWithin};

use httparse::spans::HeaderSpan;

/// A request but for its body, as it stands in the bytes `buf`.
#[derive(Clone, Copy)]
pub struct Heading<'a> {
    pub buf: &'a [u8],
    pub method: &'a [u8],
    pub target: &'a [u8],
    pub minor: u8,
    pub lines: &'a [HeaderSpan],
    ghost within: { All (IsHeaderWithin (length buf.now)) lines.now },
}
