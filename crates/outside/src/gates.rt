// What a worker passes before each turn.

/// A place that a worker passes before each turn, so that a test can hold workers back and let
/// them go in an order of its own.
pub trait Gate: Send + Sync + 'static {
    /// Called by the worker of this number before it runs a turn of the job at this place, with
    /// the number of that turn.
    ///
    /// It tells nothing and returns.
    fn pass(&self, worker: u32, place: u32, turn: u64);
}

/// The gate of the program: each call returns at once.
#[derive(Clone, Copy, Debug, PartialEq, Eq)]
pub struct OpenGate;

impl Gate for OpenGate {
    fn pass(&self, _worker: u32, _place: u32, _turn: u64) {}
}
