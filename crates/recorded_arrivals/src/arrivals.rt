//! Items where they arrive.

use http_front::Item;

/// An item of a connection, once it is complete.
#[derive(Drop)]
pub struct Arrival {
    /// The connection: how many connections began before it.
    pub link: u32,

    /// The moment of the piece that completes the item, in milliseconds; that of the last record where the end of the stream does.
    pub moment: u32,

    /// A request, whose body has at most 1 MiB, or a refusal.
    pub item: Item,
}
