//! The text of a reply.
ghost use Rattle.std.specs.Prelude.{◌≡◌, ◌++◌, Some, length, OnOk, IfOk};
ghost use Rattle.http.specs.StatusCode.{reason_phrase};
ghost use Rattle.http_front.specs.Reply.{refusal_status, status_of, phrase_of, content_type_of, body_of, status_line, header_line, allow_line, close_line, head_of, sent, reply_of};
ghost use Rattle.http_front.specs.Reported.{IsOutcome, reported};

use http::StatusCode;
use http_items::Refusal;
use itoa::Buffer;
use std::alloc::{AllocError, Global};

/// What became of a request.
#[derive(Clone, Copy)]
pub enum Outcome<'a> {
    /// The function replied with these bytes, and so ended by itself or with exit code 0.
    Bytes(&'a [u8]),

    /// The function ended with this exit code, which is not 0.
    Exit(u32),

    /// A trap stopped the function. This is the trap's text.
    Trap(&'static str),

    /// The function spent its budget before its end.
    Spent,

    /// No function ran. The number, from 1 to 10, is that of the refusal.
    Refused(u8),
}

/// Room for the lines of a head: the longest phrase, a length of 20 digits, the Allow and Connection lines.
const HEAD_ROOM: usize = 144;

const PLAIN_TEXT: &str = "text/plain";

/// The empty line between head and body.
const END_OF_HEAD: &[u8] = b"\r\n";

/// What a reply says, before it is laid out as text.
#[derive(Clone, Copy)]
struct Reply<'a> {
    status: StatusCode,
    content_type: &'a str,
    /// The first part of the body.
    label: &'static str,
    /// The rest of the body.
    detail: &'a [u8],
}

/// The status that a refusal is told by.
fn refusal_status(refusal: Refusal) -> StatusCode
    ensures status { result ≡ refusal_status refusal }
    ensures phrase { reason_phrase result ≡ Some (phrase_of result) }
{
    match refusal {
        Refusal::BadHead => StatusCode::BAD_REQUEST,
        Refusal::BadHost => StatusCode::BAD_REQUEST,
        Refusal::TransferCoding => StatusCode::NOT_IMPLEMENTED,
        Refusal::BadLength => StatusCode::BAD_REQUEST,
        Refusal::TooLarge => StatusCode::PAYLOAD_TOO_LARGE,
        Refusal::CutBody => StatusCode::BAD_REQUEST,
        Refusal::BadTarget => StatusCode::BAD_REQUEST,
        Refusal::BadMethod => StatusCode::METHOD_NOT_ALLOWED,
        Refusal::NoRoute => StatusCode::NOT_FOUND,
        Refusal::AdmissionSpent => StatusCode::SERVICE_UNAVAILABLE,
    }
}

impl<'a> Reply<'a> {
    /// The reply that reports an outcome. `content_type` is that of the route, and `digits` is room for an exit code.
    fn new(outcome: Outcome<'a>, content_type: &'a str, digits: &'a mut Buffer) -> Reply<'a>
        requires { IsOutcome outcome }
        ensures status { result.status ≡ status_of (reported outcome.entry) }
        ensures phrase { reason_phrase result.status ≡ Some (phrase_of result.status) }
        ensures content_type { result.content_type.now
            ≡ content_type_of (reported outcome.entry) content_type.now }
        ensures body { result.label.now ++ result.detail.now ≡ body_of (reported outcome.entry) }
    {
        match outcome {
            Outcome::Bytes(bytes) => Reply {
                status: StatusCode::OK,
                content_type,
                label: "",
                detail: bytes,
            },
            Outcome::Exit(code) => Reply {
                status: StatusCode::INTERNAL_SERVER_ERROR,
                content_type: PLAIN_TEXT,
                label: "exit: ",
                detail: digits.format(code).as_bytes(),
            },
            Outcome::Trap(cause) => Reply {
                status: StatusCode::INTERNAL_SERVER_ERROR,
                content_type: PLAIN_TEXT,
                label: "trap: ",
                detail: cause.as_bytes(),
            },
            Outcome::Spent => Reply {
                status: StatusCode::GATEWAY_TIMEOUT,
                content_type: PLAIN_TEXT,
                label: "budget spent",
                detail: &[],
            },
            Outcome::Refused(number) => {
                let refusal = Refusal::numbered(number);
                Reply {
                    status: refusal_status(refusal),
                    content_type: PLAIN_TEXT,
                    label: refusal.text(),
                    detail: &[],
                }
            }
        }
    }
}

/// The phrase beside a status code that has one.
fn phrase(status: StatusCode) -> &'static str
    requires { reason_phrase status ≡ Some (phrase_of status) }
    ensures { result.now ≡ phrase_of status }
{
    status.canonical_reason().unwrap_or("")
}

/// Appends the first line of a reply.
fn push_status_line(text: &mut Vec<u8>, status: StatusCode) -> Result<(), AllocError>
    requires { reason_phrase status ≡ Some (phrase_of status) }
    ensures { OnOk result (text.new.items ≡ text.old.items ++ status_line status) }
{
    let mut digits = Buffer::new();
    text.extend_from_slice(b"HTTP/1.1 ")?;
    text.extend_from_slice(digits.format(status.as_u16()).as_bytes())?;
    text.extend_from_slice(b" ")?;
    text.extend_from_slice(phrase(status).as_bytes())?;
    text.extend_from_slice(b"\r\n")?;
    Ok(())
}

/// Appends one line of a head.
fn push_header_line(text: &mut Vec<u8>, name: &str, value: &str) -> Result<(), AllocError>
    ensures { OnOk result (text.new.items ≡ text.old.items ++ header_line name.now value.now) }
{
    text.extend_from_slice(name.as_bytes())?;
    text.extend_from_slice(b": ")?;
    text.extend_from_slice(value.as_bytes())?;
    text.extend_from_slice(b"\r\n")
}

/// Appends the methods that there are, where the method was refused.
fn push_allow_line(text: &mut Vec<u8>, status: StatusCode) -> Result<(), AllocError>
    ensures { OnOk result (text.new.items ≡ text.old.items ++ allow_line status) }
{
    if status.as_u16() == 405 {
        push_header_line(text, "Allow", "GET, HEAD, POST")
    } else {
        Ok(())
    }
}

/// Appends the word that ends the connection, unless it is kept.
fn push_close_line(text: &mut Vec<u8>, keep: bool) -> Result<(), AllocError>
    ensures { OnOk result (text.new.items ≡ text.old.items ++ close_line keep) }
{
    if keep {
        Ok(())
    } else {
        push_header_line(text, "Connection", "close")
    }
}

/// Appends the head of a reply whose body has `size` bytes.
fn push_head(
    text: &mut Vec<u8>,
    status: StatusCode,
    content_type: &str,
    size: usize,
    keep: bool,
) -> Result<(), AllocError>
    requires { reason_phrase status ≡ Some (phrase_of status) }
    ensures { OnOk result (text.new.items
        ≡ text.old.items ++ head_of status content_type.now size keep) }
{
    let mut digits = Buffer::new();
    push_status_line(text, status)?;
    push_allow_line(text, status)?;
    push_header_line(text, "Content-Type", content_type)?;
    push_header_line(text, "Content-Length", digits.format(size))?;
    push_close_line(text, keep)?;
    text.extend_from_slice(END_OF_HEAD)?;
    Ok(())
}

/// Appends the body, which a reply to HEAD leaves out.
fn push_body(text: &mut Vec<u8>, label: &str, detail: &[u8], head: bool) -> Result<(), AllocError>
    ensures { OnOk result (text.new.items ≡ text.old.items ++ sent head (label.now ++ detail.now)) }
{
    if head {
        Ok(())
    } else {
        text.extend_from_slice(label.as_bytes())?;
        text.extend_from_slice(detail)
    }
}

/// The text of the reply to one request (RFC 9112 sections 2.1 and 4).
///
/// `content_type` is the route's, which the reply has where the function itself replied. It is
/// copied as it is, so the caller keeps line ends out of it. `head` says that the request was a
/// HEAD, whose reply has the length of the body and not the body (RFC 9110 section 9.3.2). `keep`
/// says that the connection is kept after the reply.
///
/// The only error is want of memory, of which all is taken at once.
pub fn reply_text(
    alloc: Global,
    outcome: Outcome,
    content_type: &str,
    head: bool,
    keep: bool,
) -> Result<Vec<u8>, AllocError>
    requires { IsOutcome outcome }
    ensures { IfOk result (λ text. text.items
        ≡ reply_of (reported outcome.entry) content_type.now head keep) }
{
    let mut digits = Buffer::new();
    let reply = Reply::new(outcome, content_type, &mut digits);
    let size = reply.label.len() + reply.detail.len();
    let room = HEAD_ROOM
        .saturating_add(reply.content_type.len())
        .saturating_add(if head { 0 } else { size });
    let mut text = Vec::with_capacity(alloc, room)?;
    push_head(&mut text, reply.status, reply.content_type, size, keep)?;
    push_body(&mut text, reply.label, reply.detail, head)?;
    Ok(text)
}
