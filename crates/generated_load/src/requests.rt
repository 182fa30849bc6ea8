//! A request of the load.
ghost use Rattle.std.specs.Prelude.{◌≡◌, ◌<◌, ◌%◌, ◌^◌, ◌++◌, OnOk, IfOk};
ghost use Rattle.generated_load.specs.Requests.{path_at, body_size, body_of, head_of, request_of};

use std::alloc::{AllocError, Global};

/// Of the routes, the path of the one whose number what is drawn ends in.
fn path(drawn: u64) -> &'static str
    ensures { result.now ≡ path_at (drawn % 4) }
{
    match drawn % 4 {
        0 => "/nil",
        1 => "/trap",
        2 => "/loop",
        _ => "/echo",
    }
}

/// The head of a request with a body of this size.
fn head(alloc: Global, path: &str, size: u64) -> Result<Vec<u8>, AllocError>
    ensures { IfOk result (λ bytes. bytes.items ≡ head_of path.now size) }
{
    let text = format!(in alloc;
        "POST {path} HTTP/1.1\r\nHost: soak\r\nContent-Length: {size}\r\n\r\n"
    )?;
    Ok(text.into_bytes())
}

/// Adds the body behind the head.
fn add_body(bytes: &mut Vec<u8>, drawn: u64, size: u64) -> Result<(), AllocError>
    requires drawn { drawn < 2 ^ 31 }
    requires size { size ≡ body_size drawn }
    ensures { OnOk result (bytes.new.items ≡ bytes.old.items ++ body_of drawn) }
{
    for place in 0..size {
        bytes.push(((drawn + place) % 256) as u8)?;
    }
    Ok(())
}

/// The bytes of the request for which this was drawn (RFC 9112): a POST with a body of 0 to 1,999 bytes.
pub(crate) fn request(alloc: Global, drawn: u64) -> Result<Vec<u8>, AllocError>
    requires { drawn < 2 ^ 31 }
    ensures { IfOk result (λ bytes. bytes.items ≡ request_of drawn) }
{
    let size = drawn / 4 % 2000;
    let mut bytes = head(alloc, path(drawn), size)?;
    add_body(&mut bytes, drawn, size)?;
    Ok(bytes)
}
