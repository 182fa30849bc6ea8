//! Where a connection stands between two pieces of its bytes. In each state nothing more is due.
ghost use Rattle.std.specs.Prelude.{◌≡◌, ◌<◌, length, None};
ghost use Rattle.http_items.specs.Heads.{head_in};

use crate::headings::Due;

/// The bytes so far of a head whose end has not come.
#[derive(Drop)]
pub struct Held {
    pub bytes: Vec<u8>,
    ghost no_head: { head_in bytes.items ≡ None },
    ghost below: { length bytes.items < 8192 },
}

/// What has come so far of a body.
#[derive(Drop)]
pub struct Body {
    pub due: Due,
    pub size: usize,
    pub got: Vec<u8>,
    ghost short: { length got.items < size },
}

#[derive(Drop)]
pub enum State {
    Reading(Held),
    Gathering(Body),

    /// An item closed the connection.
    Over,

    /// Memory was wanting.
    Failed,
}
