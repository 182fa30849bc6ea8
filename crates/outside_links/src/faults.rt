// The one way in which a call fails.

/// A call on the outside of a server failed.
///
/// It carries no reason. That a fault happened is seen by the count of faults of the object that
/// the call was made on.
#[derive(Clone, Copy, Debug, PartialEq, Eq)]
pub struct Failed;
