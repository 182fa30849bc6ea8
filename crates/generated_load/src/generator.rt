//! The generator of the load.
ghost use Rattle.std.specs.Prelude.{◌≡◌, ◌<◌, ◌^◌};
ghost use Rattle.generated_load.specs.Generator.{next_state, drawn_at};

/// By what the state is multiplied from step to step, and what is added then. D. E. Knuth gives both, for words of 64 bits (MMIX).
const MULTIPLIER: u64 = 6_364_136_223_846_793_005;

const INCREMENT: u64 = 1_442_695_040_888_963_407;

/// A linear congruential generator, modulo 2^64.
#[derive(Drop)]
pub(crate) struct Generator {
    state: u64,
}

impl Generator {
    /// The generator at its first state.
    pub(crate) fn new(start: u64) -> Self
        ensures { result.state ≡ start }
    {
        Generator { state: start }
    }

    /// Takes a step, and answers the state without its lowest 33 bits: the low bits of such states repeat early.
    pub(crate) fn draw(&mut self) -> u64
        ensures steps { self.new.state ≡ next_state self.old.state }
        ensures drawn { result ≡ drawn_at self.new.state }
        ensures small { result < 2 ^ 31 }
    {
        self.state = self.state.wrapping_mul(MULTIPLIER).wrapping_add(INCREMENT);
        self.state >> 33
    }
}
