//! How a module is not valid (WebAssembly Core 1.0, chapter 3).
ghost use Rattle.std.specs.Prelude.{◌≡◌};
ghost use Rattle.wasm_meaning.specs.ValidityRules.{rule_number};

/// A rule of validation, which is named by how it is broken.
#[derive(Clone, Copy)]
pub enum Rule {
    /// There is an item with each index that is named, and a table or a memory where an operator needs one.
    UnknownIndex,

    /// An operand is of the type that its operator takes.
    OperandType,

    /// There is an operand for each that an operator takes, and none is left over at the end of a block.
    StackHeight,

    /// The alignment of a load or a store is no greater than the access.
    BadAlign,

    /// A branch goes to a label that encloses it.
    LabelDepth,

    /// An `if` with a result has an `else`.
    IfWithoutElse,

    /// A global that is set is mutable.
    ImmutableGlobal,

    /// No two exports have one name.
    DoubleExport,

    /// There is at most one memory.
    TwoMemories,

    /// There is at most one table.
    TwoTables,

    /// The least size of a table or a memory is at most its greatest, and both sizes of a memory at most 65,536 pages.
    MemoryLimits,

    /// The start function takes no parameter and has no result.
    StartType,

    /// All labels of a `br_table` take the same.
    BranchTypes,

    /// A constant is of the type of its global, or an `i32` where it is an offset.
    ConstantType,
}

impl Rule {
    /// The number by which a refusal tells that the rule is broken: 30 to 43.
    pub fn number(self) -> u8
        ensures { result ≡ rule_number self }
    {
        match self {
            Rule::UnknownIndex => 30,
            Rule::OperandType => 31,
            Rule::StackHeight => 32,
            Rule::BadAlign => 33,
            Rule::LabelDepth => 34,
            Rule::IfWithoutElse => 35,
            Rule::ImmutableGlobal => 36,
            Rule::DoubleExport => 37,
            Rule::TwoMemories => 38,
            Rule::TwoTables => 39,
            Rule::MemoryLimits => 40,
            Rule::StartType => 41,
            Rule::BranchTypes => 42,
            Rule::ConstantType => 43,
        }
    }
}

/// A rule that a body breaks, and where.
#[derive(Clone, Copy)]
pub struct Violation {
    /// The rule.
    pub rule: Rule,

    /// The place of the operator in the body's `ops`.
    pub place: u32,
}

/// The first rule that a module breaks, and where.
#[derive(Clone, Copy)]
pub struct Broken {
    /// The number of the rule.
    pub number: u8,

    /// The number of the body that breaks it, if it is one: bodies count from 0, without the imported functions.
    pub function: Option<u32>,

    /// In a body, the place of the operator in its `ops`. Elsewhere the index of the item in its list, and 0 for the start function.
    pub item: u32,
}
