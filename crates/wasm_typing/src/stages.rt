//! How far the walk over a body has come.

/// What is known of a body behind an operator.
#[derive(Clone, Copy)]
pub(crate) enum Stage {
    /// The walk goes on behind it.
    Inside,

    /// The body has ended with it.
    Over,
}
