//! The replies of a connection, and the text of all.
ghost use Rattle.std.specs.Prelude.{◌≡◌, [], ◌++◌, ◌<◌, length, replicate, IfOk, OnOk, slice_index_or, slice_set};
ghost use Rattle.recorded_runner.specs.ReplayText.{answers_magic, connection_text};
ghost use Rattle.recorded_runner.specs.Joined.{joined_from};

use std::alloc::{AllocError, Global};
use std::marker::Model;

/// The replies of a connection, in order, joined. Contracts see their bytes.
#[derive(Drop)]
pub(crate) struct Replies {
    bytes: Vec<u8>,
}

impl Model for Replies {
    ghost use Rattle.std.specs.Prelude.{List, ℕ};

    ghost Value = { List ℕ };

    ghost view = { λ replies. replies.bytes.items };
}

// SLA1
const MAGIC: [u8; 4] = [0x53, 0x4C, 0x41, 0x31];

// The numbers of 32 bits.
const WIDTH: u64 = 1 << 32;

/// No replies yet, for each of so many connections.
pub(crate) fn no_replies(alloc: Global, connections: u32) -> Result<Vec<Replies>, AllocError>
    ensures { IfOk result (λ replies. replies.items ≡ replicate connections []) }
{
    let mut replies = Vec::with_capacity(alloc, connections as usize)?;
    for _ in 0..connections {
        replies.push(Replies {
            bytes: Vec::new(alloc),
        })?;
    }
    Ok(replies)
}

/// Adds a reply to those of a connection.
pub(crate) fn add_reply(
    replies: &mut Vec<Replies>,
    link: u32,
    reply: &[u8],
) -> Result<(), AllocError>
    requires { link < length replies.old.items }
    ensures { OnOk result (replies.new.items ≡ slice_set replies.old.items link (slice_index_or replies.old.items link [] ++ reply.now)) }
{
    replies[link as usize].bytes.extend_from_slice(reply)
}

/// The text of all replies, connection by connection.
pub(crate) fn text_of(alloc: Global, replies: &[Replies]) -> Result<Vec<u8>, AllocError>
    requires few { length replies.now < 4294967296 }
    ensures { IfOk result (λ text. text.items ≡ answers_magic ++ joined_from 0 replies.now) }
{
    let mut text = Vec::new(alloc);
    text.extend_from_slice(&MAGIC)?;
    let mut link = 0;
    for one in replies {
        add_connection(&mut text, link, one.bytes.as_slice())?;
        link += 1;
    }
    Ok(text)
}

/// Adds a connection: its number, the length of its replies in the 32 bits that the format has for it, and the replies.
fn add_connection(text: &mut Vec<u8>, link: u32, replies: &[u8]) -> Result<(), AllocError>
    ensures { OnOk result (text.new.items ≡ text.old.items ++ connection_text link replies.now) }
{
    let length = (replies.len() as u64 % WIDTH) as u32;
    text.extend_from_slice(&link.to_le_bytes())?;
    text.extend_from_slice(&length.to_le_bytes())?;
    text.extend_from_slice(replies)
}
