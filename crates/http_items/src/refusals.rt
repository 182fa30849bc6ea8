//! Why a request is refused, by name and by number.
ghost use Rattle.std.specs.Prelude.{◌≡◌, ◌≤◌};
ghost use Rattle.http_items.specs.Refusals.{number_of, refusal_numbered, text_of};

use std::fmt::{self, Display, Formatter, Write};

/// Why a request is refused. Each refusal has a number, by which an item names it, and a text, which
/// is the body of its reply.
#[derive(Clone, Copy)]
pub enum Refusal {
    /// There is no head in the first 8,192 bytes, or in those before the end of the stream.
    BadHead,

    /// A request of HTTP/1.1 has no Host line, or several (RFC 9112 section 3.2).
    BadHost,

    /// The body has a transfer coding (RFC 9112 section 6.1).
    TransferCoding,

    /// Content-Length stands twice, or its value is not one or more digits (RFC 9110 section 8.6).
    BadLength,

    /// The body is longer than 1,048,576 bytes.
    TooLarge,

    /// The stream ended before the body did (RFC 9112 section 8).
    CutBody,

    /// The target is neither a path nor an `http` URI (RFC 9112 section 3.2).
    BadTarget,

    /// The method is not GET, HEAD or POST (RFC 9110 section 15.5.6).
    BadMethod,

    /// No route has this path.
    NoRoute,

    /// The tenant has used up what it is admitted to.
    AdmissionSpent,
}

impl Refusal {
    /// The number, from 1 to 10.
    pub fn number(self) -> u8
        ensures { result ≡ number_of self }
    {
        match self {
            Refusal::BadHead => 1,
            Refusal::BadHost => 2,
            Refusal::TransferCoding => 3,
            Refusal::BadLength => 4,
            Refusal::TooLarge => 5,
            Refusal::CutBody => 6,
            Refusal::BadTarget => 7,
            Refusal::BadMethod => 8,
            Refusal::NoRoute => 9,
            Refusal::AdmissionSpent => 10,
        }
    }

    /// The refusal with a number.
    pub fn numbered(number: u8) -> Refusal
        requires first { 1 ≤ number }
        requires last { number ≤ 10 }
        ensures { result ≡ refusal_numbered number }
    {
        match number {
            1 => Refusal::BadHead,
            2 => Refusal::BadHost,
            3 => Refusal::TransferCoding,
            4 => Refusal::BadLength,
            5 => Refusal::TooLarge,
            6 => Refusal::CutBody,
            7 => Refusal::BadTarget,
            8 => Refusal::BadMethod,
            9 => Refusal::NoRoute,
            _ => Refusal::AdmissionSpent,
        }
    }

    /// The text that a client reads.
    pub fn text(self) -> &'static str
        ensures { result.now ≡ text_of self }
    {
        match self {
            Refusal::BadHead => "bad request: head",
            Refusal::BadHost => "bad request: host",
            Refusal::TransferCoding => "not implemented: transfer coding",
            Refusal::BadLength => "bad request: content length",
            Refusal::TooLarge => "payload too large",
            Refusal::CutBody => "bad request: cut body",
            Refusal::BadTarget => "bad request: target",
            Refusal::BadMethod => "method not allowed",
            Refusal::NoRoute => "no route",
            Refusal::AdmissionSpent => "admission spent",
        }
    }
}

/// The text that the reply has as its body (`text`).
impl Display for Refusal {
    fn fmt<W: Write>(&self, f: &mut Formatter<W>) -> fmt::Result {
        f.write_str(self.text())
    }
}
