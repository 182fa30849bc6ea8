//! What becomes of a request by its heading: the method, the target, the version and the lines.
ghost use Rattle.std.specs.Prelude.{◌≡◌, ◌≤◌, length, map, All, IfOk, true};
ghost use Rattle.std.specs.Char.{is_ascii_digit};
ghost use Rattle.std.specs.List.{list_all};
ghost use Rattle.std.specs.Str.Parse.{digits_value};
ghost use Rattle.httparse.specs.Spans.{IsHeaderWithin, header_bytes};
ghost use Rattle.http_items.specs.Headings.{told_size, size_within, size_of, has_host, body_size, method_of, asks_head, is_kept, due_of, due_to_head, due_keeps, opening_of};
ghost use Rattle.http_items.specs.Headings as definitions;
ghost use Rattle.http_items.specs.Items.{heard};
ghost use Rattle.http_front.specs.Views.{occurrence_seen, heading_seen, due_seen, opening_seen, heard_of};

use crate::items::{Ask, Item};
use crate::parsed::Heading;
use crate::targets::path_of;
use http_items::{Method, Refusal};
use http1::fields::KnownFields;
use http1::text::eq_ignore_case;
use httparse::spans::HeaderSpan;
use outside::Text;
use std::alloc::{AllocError, Global};

/// The most bytes that a body may have.
const MOST_BODY: usize = 1_048_576;

/// How often a line stands among others, and its value where it stands once.
#[derive(Clone, Copy)]
pub enum Occurrence<'a> {
    Missing,
    Once(&'a [u8]),
    Repeated,
}

/// The lines of a name, whose case does not count.
fn named<'a>(buf: &'a [u8], lines: &[HeaderSpan], name: &[u8]) -> Occurrence<'a>
    requires { All (IsHeaderWithin (length buf.now)) lines.now }
    ensures { occurrence_seen result ≡ definitions.named name.now (map (header_bytes buf.now) lines.now) }
{
    let [line, others @ ..] = lines else {
        return Occurrence::Missing;
    };
    let more = named(buf, others, name);
    if eq_ignore_case(line.name.of(buf), name) {
        match more {
            Occurrence::Missing => Occurrence::Once(line.value.of(buf)),
            Occurrence::Once(_) => Occurrence::Repeated,
            Occurrence::Repeated => Occurrence::Repeated,
        }
    } else {
        more
    }
}

/// What a request comes to as soon as its body is whole.
#[derive(Drop)]
pub enum Due {
    Serve {
        method: Method,
        path: Text,
        keep: bool,
    },
    Refuse {
        refusal: Refusal,
        head: bool,
        keep: bool,
    },
}

/// What a head opens: a refusal at once, or a body of this size, and then what is due.
#[derive(Drop)]
pub enum Opening {
    Refused { refusal: Refusal, head: bool },
    Awaits { due: Due, size: usize },
}

fn are_digits(value: &[u8]) -> bool
    ensures { result ≡ list_all is_ascii_digit value.now }
{
    value.iter().all(|b| b.is_ascii_digit())
}

fn is_number(value: &[u8]) -> bool
    ensures { result ≡ definitions.is_number value.now }
{
    if 0 < value.len() {
        are_digits(value)
    } else {
        false
    }
}

/// The size that digits tell.
fn size_in(digits: &[u8]) -> Result<usize, Refusal>
    requires { list_all is_ascii_digit digits.now ≡ true }
    ensures { result ≡ size_within (digits_value 10 digits.now) }
{
    let mut size = 0;
    let mut rest = digits;
    while let [digit, others @ ..] = rest {
        if size > MOST_BODY {
            return Err(Refusal::TooLarge);
        }
        size = size * 10 + usize::from(*digit - b'0');
        rest = others;
    }
    if size > MOST_BODY {
        Err(Refusal::TooLarge)
    } else {
        Ok(size)
    }
}

/// The size that a Content-Length tells (RFC 9110 section 8.6).
fn told_size(value: &[u8]) -> Result<usize, Refusal>
    ensures { result ≡ told_size value.now }
{
    if is_number(value) {
        size_in(value)
    } else {
        Err(Refusal::BadLength)
    }
}

impl Occurrence<'_> {
    fn is_missing(self) -> bool
        ensures { result ≡ definitions.is_missing (occurrence_seen self.entry) }
    {
        match self {
            Occurrence::Missing => true,
            Occurrence::Once(_) => false,
            Occurrence::Repeated => false,
        }
    }

    fn is_once(self) -> bool
        ensures { result ≡ definitions.is_once (occurrence_seen self.entry) }
    {
        match self {
            Occurrence::Missing => false,
            Occurrence::Once(_) => true,
            Occurrence::Repeated => false,
        }
    }

    /// The size of a body by the lines that tell it.
    fn size(self) -> Result<usize, Refusal>
        ensures { result ≡ size_of (occurrence_seen self.entry) }
    {
        match self {
            Occurrence::Missing => Ok(0),
            Occurrence::Once(value) => told_size(value),
            Occurrence::Repeated => Err(Refusal::BadLength),
        }
    }
}

/// The method, if it is one that is served.
fn method_of(name: &[u8]) -> Option<Method>
    ensures { result ≡ method_of name.now }
{
    if name == b"GET".as_slice() {
        Some(Method::Get)
    } else if name == b"HEAD".as_slice() {
        Some(Method::Head)
    } else if name == b"POST".as_slice() {
        Some(Method::Post)
    } else {
        None
    }
}

impl<'a> Heading<'a> {
    fn named(self, name: &[u8]) -> Occurrence<'a>
        ensures { occurrence_seen result ≡ definitions.named name.now (heading_seen self.entry).lines }
    {
        named(self.buf, self.lines, name)
    }

    fn has_host(self) -> bool
        ensures { result ≡ has_host (heading_seen self.entry) }
    {
        if self.minor == 1 {
            self.named(b"host").is_once()
        } else {
            true
        }
    }

    /// The size of the body, or why the request is refused at once.
    fn body_size(self) -> Result<usize, Refusal>
        ensures { result ≡ body_size (heading_seen self.entry) }
    {
        if !self.has_host() {
            return Err(Refusal::BadHost);
        }
        if !self.named(b"transfer-encoding").is_missing() {
            return Err(Refusal::TransferCoding);
        }
        self.named(b"content-length").size()
    }

    fn asks_head(self) -> bool
        ensures { result ≡ asks_head (heading_seen self.entry) }
    {
        self.method == b"HEAD".as_slice()
    }

    #[tactic(auto, unfolding(http1::specs::Fields::known_fields))]
    fn is_kept(self) -> bool
        ensures { result ≡ is_kept (heading_seen self.entry) }
    {
        if self.minor == 1 {
            !KnownFields::from_spans(self.buf, self.lines).close
        } else {
            false
        }
    }

    /// What is due once the body is whole.
    fn due(self, alloc: Global) -> Result<Due, AllocError>
        ensures { IfOk result (λ due. due_seen due ≡ due_of (heading_seen self.entry)) }
    {
        let Some(path) = path_of(alloc, self.target)? else {
            return Ok(Due::Refuse {
                refusal: Refusal::BadTarget,
                head: self.asks_head(),
                keep: false,
            });
        };
        let keep = self.is_kept();
        match method_of(self.method) {
            Some(method) => Ok(Due::Serve { method, path, keep }),
            None => Ok(Due::Refuse {
                refusal: Refusal::BadMethod,
                head: self.asks_head(),
                keep,
            }),
        }
    }

    /// What the head opens.
    #[tactic(auto, unfolding(http_items::specs::Headings::opening_of))]
    pub fn opening(self, alloc: Global) -> Result<Opening, AllocError>
        ensures { IfOk result (λ opening. opening_seen opening ≡ opening_of (heading_seen self.entry)) }
    {
        match self.body_size() {
            Err(refusal) => Ok(Opening::Refused {
                refusal,
                head: self.asks_head(),
            }),
            Ok(size) => Ok(Opening::Awaits {
                due: self.due(alloc)?,
                size,
            }),
        }
    }
}

impl Due {
    /// The reply to what is due has no body.
    pub fn to_head(&self) -> bool
        ensures { result ≡ due_to_head (due_seen self.now) }
    {
        match self {
            Due::Serve { method, .. } => match *method {
                Method::Get => false,
                Method::Head => true,
                Method::Post => false,
            },
            Due::Refuse { head, .. } => *head,
        }
    }

    /// The connection is kept after what is due.
    pub fn keeps(&self) -> bool
        ensures { result ≡ due_keeps (due_seen self.now) }
    {
        match self {
            Due::Serve { keep, .. } => *keep,
            Due::Refuse { keep, .. } => *keep,
        }
    }

    /// What was due, with the body.
    pub fn with_body(self, body: Vec<u8>) -> Item
        ensures { heard_of result ≡ heard (due_seen self) body.items }
    {
        match self {
            Due::Serve { method, path, keep } => Item::Request(Ask {
                method,
                path,
                keep,
                body,
            }),
            Due::Refuse {
                refusal,
                head,
                keep,
            } => Item::Fault {
                number: refusal.number(),
                head,
                keep,
            },
        }
    }
}
