// The one way in which a call on the outside fails.

/// A call on the outside failed.
///
/// It carries no reason. That a fault happened is seen by the count of faults of the object that
/// the call was made on.
#[derive(Clone, Copy, Debug, PartialEq, Eq)]
pub struct Failed;
