//! Refusals of bytes, by name and by number.
ghost use Rattle.std.specs.Prelude.{◌≡◌};
ghost use Rattle.wasm_ops.specs.Refusals.{number_of, fault_at};

use std::fmt::{self, Display, Formatter, Write};

/// Why bytes are refused as a module or as a part of one. Each refusal has a number, by which a reply names it.
#[derive(Clone, Copy, Debug)]
pub enum Refusal {
    /// The bytes end within an item.
    CutShort,

    /// A number in LEB128 goes on behind the last byte that it may have.
    LebTooLong,

    /// The last byte that a number in LEB128 may have sets bits that the number does not have.
    LebSpare,

    /// A name is no UTF-8.
    NotUtf8,

    /// A float operator.
    FloatOperator,

    /// A byte in the place of an operator that is none.
    UnknownOperator,

    /// A float type.
    FloatType,

    /// A byte in the place of a type that is none.
    BadType,

    /// An `else` that belongs to no `if`, or a second one.
    BadNesting,

    /// A block in too many others.
    TooDeep,

    /// More locals than a function may declare.
    TooManyLocals,

    /// More labels than a `br_table` may have.
    TooManyTargets,

    /// A byte that has to be 00 and is not.
    Reserved,

    /// Bytes behind the `end` that closes a body.
    RestAfterEnd,

    /// The file does not begin with `00 61 73 6D`.
    BadMagic,

    /// Its version is not 1.
    BadVersion,

    /// A section a second time, or behind one that comes after it.
    SectionOrder,

    /// A section whose items do not fill just its size.
    SectionSize,

    /// A section of no known kind.
    UnknownSection,

    /// Not as many bodies as functions.
    CountsDiffer,

    /// A count, a size or a file that is too large.
    TooLarge,

    /// A byte in the place of a kind, or of a mutability, that is none.
    BadKind,

    /// Limits that begin with another byte than 00 and 01.
    BadLimits,

    /// A constant expression other than one constant and its `end`.
    BadConstant,
}

/// Why bytes are refused, and where.
#[derive(Clone, Copy, Debug)]
pub struct Fault {
    /// The number of the refusal.
    pub number: u8,

    /// The place in the bytes that the refusal speaks of, counted from the first byte.
    pub place: u32,
}

impl Refusal {
    /// Its number.
    pub fn number(self) -> u8
        ensures { result ≡ number_of self }
    {
        match self {
            Refusal::CutShort => 1,
            Refusal::LebTooLong => 2,
            Refusal::LebSpare => 3,
            Refusal::NotUtf8 => 4,
            Refusal::FloatOperator => 5,
            Refusal::UnknownOperator => 6,
            Refusal::FloatType => 7,
            Refusal::BadType => 8,
            Refusal::BadNesting => 9,
            Refusal::TooDeep => 10,
            Refusal::TooManyLocals => 11,
            Refusal::TooManyTargets => 12,
            Refusal::Reserved => 13,
            Refusal::RestAfterEnd => 14,
            Refusal::BadMagic => 15,
            Refusal::BadVersion => 16,
            Refusal::SectionOrder => 17,
            Refusal::SectionSize => 18,
            Refusal::UnknownSection => 19,
            Refusal::CountsDiffer => 20,
            Refusal::TooLarge => 21,
            Refusal::BadKind => 22,
            Refusal::BadLimits => 23,
            Refusal::BadConstant => 24,
        }
    }

    /// The fault of bytes that are refused for this at a place.
    pub fn at(self, place: u32) -> Fault
        ensures { result ≡ fault_at self place }
    {
        Fault {
            number: self.number(),
            place,
        }
    }
}

/// Every refusal, by rising number.
const REFUSALS: [Refusal; 24] = [
    Refusal::CutShort,
    Refusal::LebTooLong,
    Refusal::LebSpare,
    Refusal::NotUtf8,
    Refusal::FloatOperator,
    Refusal::UnknownOperator,
    Refusal::FloatType,
    Refusal::BadType,
    Refusal::BadNesting,
    Refusal::TooDeep,
    Refusal::TooManyLocals,
    Refusal::TooManyTargets,
    Refusal::Reserved,
    Refusal::RestAfterEnd,
    Refusal::BadMagic,
    Refusal::BadVersion,
    Refusal::SectionOrder,
    Refusal::SectionSize,
    Refusal::UnknownSection,
    Refusal::CountsDiffer,
    Refusal::TooLarge,
    Refusal::BadKind,
    Refusal::BadLimits,
    Refusal::BadConstant,
];

/// What a maker of modules reads of it.
impl Display for Refusal {
    fn fmt<W: Write>(&self, f: &mut Formatter<W>) -> fmt::Result {
        f.write_str(match self {
            Refusal::CutShort => "the bytes end within an item",
            Refusal::LebTooLong => "a LEB128 number is too long",
            Refusal::LebSpare => "a LEB128 number sets bits that it does not have",
            Refusal::NotUtf8 => "a name is not UTF-8",
            Refusal::FloatOperator => "a float operator",
            Refusal::UnknownOperator => "an unknown operator",
            Refusal::FloatType => "a float type",
            Refusal::BadType => "an unknown type",
            Refusal::BadNesting => "an else without an if",
            Refusal::TooDeep => "blocks are nested too deep",
            Refusal::TooManyLocals => "too many locals",
            Refusal::TooManyTargets => "too many targets of a br_table",
            Refusal::Reserved => "a reserved byte is not zero",
            Refusal::RestAfterEnd => "bytes behind the end of a body",
            Refusal::BadMagic => "the file is no WebAssembly module",
            Refusal::BadVersion => "the module's version is not 1",
            Refusal::SectionOrder => "a section is repeated or out of order",
            Refusal::SectionSize => "a section's size is wrong",
            Refusal::UnknownSection => "an unknown section",
            Refusal::CountsDiffer => "the counts of functions and bodies differ",
            Refusal::TooLarge => "a count, a size or the file is too large",
            Refusal::BadKind => "an unknown kind or mutability",
            Refusal::BadLimits => "an unknown flag of limits",
            Refusal::BadConstant => "a constant expression is not one constant",
        })
    }
}

/// The number, the place and what the number means.
impl Display for Fault {
    fn fmt<W: Write>(&self, f: &mut Formatter<W>) -> fmt::Result {
        let number = self.number;
        let place = self.place;
        for refusal in REFUSALS {
            if refusal.number() == number {
                return write!(f, "refusal {number} at byte {place}: {refusal}");
            }
        }
        write!(f, "refusal {number} at byte {place}")
    }
}
