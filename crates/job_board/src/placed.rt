//! What may stand at a place.
ghost use Rattle.std.specs.Prelude.{◌≡◌, ℕ, ◌<◌, ◌^◌};

use crate::words::Kind;

/// A job that stands at a place of a board, in one of three kinds.
///
/// `belongs q request job` says that the job is the request's after its turns of q operators each: not begun, stopped on the way, or over with its answer. The board passes it on from put to claim, and reads nothing of it.
pub trait Placed: Drop {
    ghost use Rattle.job_board.specs.declared.words.Kind.{Kind};
    ghost use Rattle.job_board.specs.declared.words.Kind.TheVariants.{Waiting};

    /// What a job is to answer.
    type Request;

    ghost place_of: { Self → ℕ };

    ghost kind_of: { Self → Kind };

    ghost turns_of: { Self → ℕ };

    ghost request_of: { Self → Self.Request };

    ghost belongs: { (quantum : ℕ) → Self.Request → Self → Type 0 };

    /// The number of its place on its board.
    fn place(&self) -> u32
        ensures { result ≡ place_of self.now };

    /// Whether it waits, was stopped, or is over.
    fn kind(&self) -> Kind
        ensures { result ≡ kind_of self.now };

    /// How many turns it has had.
    fn turns(&self) -> u64
        ensures turns { result ≡ turns_of self.now }
        ensures few { result < 2 ^ 61 };

    // A job that waits belongs to its own request, whatever the quantum.
    ghost waits: { (quantum : ℕ) (job : Self) → kind_of job ≡ Waiting → belongs quantum (request_of job) job };
}
