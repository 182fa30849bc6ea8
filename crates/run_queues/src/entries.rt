//! What a run queue holds.

/// A stopped request that waits for its next turn, as its worker last saw it.
///
/// The entry is a note and no claim: whoever wants to run the request claims its place on the board, which refuses where the entry is out of date.
#[derive(Clone, Copy, Debug, PartialEq, Eq)]
pub struct Entry {
    /// The place of the request on the board.
    pub place: u32,
    /// The moment by which its answer is due, in milliseconds.
    pub deadline: u64,
    /// How many turns it has had.
    pub turns: u64,
}
