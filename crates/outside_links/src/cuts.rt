// A write that is cut.

/// A call of `write` that fails, by its number counted from 0, and how many bytes it lets pass
/// before it fails.
#[derive(Clone, Copy)]
pub struct Cut {
    /// The number of the call.
    pub call: u64,
    /// How many of its bytes are taken at most.
    pub passes: u64,
}
