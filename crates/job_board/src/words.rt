//! What a place's word tells.
ghost use Rattle.std.specs.Prelude.{◌≡◌, ◌<◌, ◌^◌};
ghost use Rattle.job_board.specs.Words.{number, numbered, code_of, word_of, resting, held_state, held_of, IsResting};

/// What has become of a job.
#[derive(Clone, Copy, Debug, PartialEq, Eq)]
pub enum Kind {
    /// It has not begun.
    Waiting,
    /// It has begun, and was stopped.
    Suspended,
    /// It is over.
    Answered,
}

/// What stands at a place.
#[derive(Clone, Copy, Debug, PartialEq, Eq)]
pub enum State {
    /// Nothing. Only a board that was made vacant has such places.
    Vacant,
    /// A job that has not begun.
    Waiting,
    /// A job that was stopped.
    Suspended,
    /// A job that is over.
    Answered,
    /// A pass holds the place, and found a job of this kind there.
    Held(Kind),
}

/// What a place's word told at some moment: what stood there, and how many turns its job had had.
///
/// Where the place is held, the turns are those that the holder found. The word is stored in 64 bits, as eight times the turns and the number of the state (0 to 6, in the order of `State` with `Held` of each kind last).
#[derive(Clone, Copy, Debug, PartialEq, Eq)]
pub struct Word {
    /// The turns of the job, fewer than 2^61. Nothing that is vacant or waits has had one.
    pub turns: u64,
    /// What stands at the place.
    pub state: State,
}

impl Kind {
    // The state of a job of this kind that nobody holds.
    pub(crate) fn at_rest(self) -> State
        ensures { result ≡ resting self }
    {
        match self {
            Kind::Waiting => State::Waiting,
            Kind::Suspended => State::Suspended,
            Kind::Answered => State::Answered,
        }
    }
}

impl State {
    fn number(self) -> u64
        ensures number { result ≡ number self }
        ensures below { result < 8 }
    {
        match self {
            State::Vacant => 0,
            State::Waiting => 1,
            State::Suspended => 2,
            State::Answered => 3,
            State::Held(Kind::Waiting) => 4,
            State::Held(Kind::Suspended) => 5,
            State::Held(Kind::Answered) => 6,
        }
    }

    fn numbered(number: u64) -> State
        ensures { result ≡ numbered number }
    {
        match number {
            0 => State::Vacant,
            1 => State::Waiting,
            2 => State::Suspended,
            3 => State::Answered,
            4 => State::Held(Kind::Waiting),
            5 => State::Held(Kind::Suspended),
            _ => State::Held(Kind::Answered),
        }
    }

    // What a claim lays down where it found this state.
    fn held(self) -> State
        requires { IsResting self }
        ensures { result ≡ held_state self }
    {
        match self {
            State::Waiting => State::Held(Kind::Waiting),
            State::Suspended => State::Held(Kind::Suspended),
            _ => State::Held(Kind::Answered),
        }
    }
}

impl Word {
    // The word as it is stored.
    pub(crate) fn code(self) -> u64
        requires { self.turns < 2 ^ 61 }
        ensures { result ≡ code_of self }
    {
        self.turns * 8 + self.state.number()
    }

    // The word that is stored so.
    pub(crate) fn of(code: u64) -> Word
        ensures { result ≡ word_of code }
    {
        Word {
            turns: code / 8,
            state: State::numbered(code % 8),
        }
    }

    // The word that a claim lays down where it found this one.
    pub(crate) fn held(self) -> Word
        requires { IsResting self.state }
        ensures { result ≡ held_of self }
    {
        Word {
            turns: self.turns,
            state: self.state.held(),
        }
    }
}
