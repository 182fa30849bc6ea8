//! Traps: how a function may end without a result (WebAssembly Core 1.0, section 4.2.2).
ghost use Rattle.std.specs.Prelude.{◌≡◌};
ghost use Rattle.wasm_ops.specs.Traps.{trap_text};

/// Why a run was ended by a trap.
#[derive(Clone, Copy, Debug)]
pub enum Trap {
    /// The operator `unreachable`.
    Unreachable,

    /// A division or a remainder by 0.
    DivideByZero,

    /// The quotient of the least number by -1.
    IntegerOverflow,

    /// An access past the end of the memory.
    OutOfBounds,

    /// An indirect call past the end of the table.
    UndefinedElement,

    /// An indirect call of an element that was never set.
    UninitializedElement,

    /// An indirect call of a function of another type.
    TypeMismatch,

    /// A call beyond the limit of frames or cells.
    StackExhausted,
}

impl Trap {
    /// What a reply says of the trap.
    pub fn text(&self) -> &'static str
        ensures { result.now ≡ trap_text self.now }
    {
        match self {
            Trap::Unreachable => "unreachable",
            Trap::DivideByZero => "integer divide by zero",
            Trap::IntegerOverflow => "integer overflow",
            Trap::OutOfBounds => "out of bounds memory access",
            Trap::UndefinedElement => "undefined element",
            Trap::UninitializedElement => "uninitialized element",
            Trap::TypeMismatch => "indirect call type mismatch",
            Trap::StackExhausted => "call stack exhausted",
        }
    }
}
