//! The records of a recording.
ghost use Rattle.std.specs.Prelude.{◌≡◌};

use std::marker::Model;

/// Bytes that arrived together on a connection, maybe none. Contracts see them as a list.
#[derive(Drop)]
pub struct Piece {
    bytes: Vec<u8>,
}

impl Model for Piece {
    ghost use Rattle.std.specs.Prelude.{List, ℕ};

    ghost Value = { List ℕ };

    ghost view = { λ piece. piece.bytes.items };
}

impl Piece {
    /// The piece of these bytes.
    pub fn new(bytes: Vec<u8>) -> Self
        ensures { result ≡ bytes.items }
    {
        Piece { bytes }
    }

    /// The bytes, in order.
    pub fn as_slice(&self) -> &[u8]
        ensures { result.now ≡ self.now }
    {
        self.bytes.as_slice()
    }
}

/// What a record says of its connection.
#[derive(Drop)]
pub enum Event {
    /// It begins, and is that of a tenant: the tenant's index in the configuration.
    Begins(u32),

    /// A piece arrives on it.
    Arrives(Piece),

    /// The peer closes it.
    Closes,
}

/// A record of a recording.
#[derive(Drop)]
pub struct Record {
    /// The moment, in milliseconds.
    pub moment: u32,

    /// The connection: how many connections began before it.
    pub link: u32,

    /// What the record says of the connection.
    pub event: Event,
}
