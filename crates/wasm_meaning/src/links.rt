//! How a valid module is not linked to the host (WebAssembly Core 1.0, section 4.5.4).
ghost use Rattle.std.specs.Prelude.{◌≡◌};
ghost use Rattle.wasm_meaning.specs.LinkRules.{link_number};

/// A rule of linking, which is named by how it is broken.
#[derive(Clone, Copy)]
pub enum LinkRule {
    /// An imported function is one of the host's.
    UnknownImport,

    /// An imported function has the type of the host's function.
    ImportType,

    /// An import is a function.
    ImportKind,

    /// There is an export named `_start`.
    NoStart,

    /// `_start` is a function of no parameters and no result.
    StartShape,

    /// A segment lies within the first table or memory.
    SegmentRange,

    /// The memory's first pages are no more than the program is given.
    TooManyPages,
}

impl LinkRule {
    /// The number by which a refusal tells that the rule is broken: 50 to 56.
    pub fn number(self) -> u8
        ensures { result ≡ link_number self }
    {
        match self {
            LinkRule::UnknownImport => 50,
            LinkRule::ImportType => 51,
            LinkRule::ImportKind => 52,
            LinkRule::NoStart => 53,
            LinkRule::StartShape => 54,
            LinkRule::SegmentRange => 55,
            LinkRule::TooManyPages => 56,
        }
    }
}

/// The rule that a module breaks first where it is linked, and the index of the item in its list: 0 where it is no item of a list.
#[derive(Clone, Copy)]
pub struct Unlinked {
    /// The rule.
    pub rule: LinkRule,

    /// The index of the import, of the element segment or of the data segment.
    pub item: u32,
}
