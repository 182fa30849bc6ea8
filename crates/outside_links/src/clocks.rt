// Moments.
ghost use Rattle.std.specs.Prelude.{◌≡◌, ℕ, Option, Some, IfSome};

/// A clock, which answers moments in milliseconds.
///
/// A clock may tell the one moment that each call answers. Of each clock it is known besides
/// which moments its calls gave: only a call of `now` gives one.
pub trait Clock: Send + Sync + 'static {
    // The one moment, where the clock tells it.
    ghost moment: { Self → Option ℕ };

    // A call of `now` gave this moment.
    ghost gave: { Self → ℕ → Type 0 };

    /// The moment, in milliseconds from a start of the clock's own.
    ///
    /// A later call may answer an earlier moment: whoever needs an order takes the greater.
    fn now(&self) -> u64
        ensures given { gave self.now result }
        ensures told { IfSome (moment self.now) (λ moment. result ≡ moment) };

    // What was given is what the clock tells, where it does.
    ghost tells: { (clock : Self) (given : ℕ)
        → gave clock given → IfSome (moment clock) (λ moment. given ≡ moment) };
}

/// A clock that stands at one moment.
#[derive(Clone, Copy)]
pub struct FixedClock {
    /// The moment that each call answers, in milliseconds.
    pub moment: u64,
}

impl Clock for FixedClock {
    ghost moment = { λ clock. Some clock.moment };

    ghost gave = { λ clock given. given ≡ clock.moment };

    ghost tells = { λ clock given gave. gave };

    fn now(&self) -> u64 {
        self.moment
    }
}
