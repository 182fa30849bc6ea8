//! Why bytes are no configuration.
ghost use Rattle.std.specs.Prelude.{◌≡◌};
ghost use Rattle.serve_config.specs.Refusals.{number_of};

/// Why bytes are refused as a configuration.
#[derive(Clone, Copy, Debug, PartialEq, Eq)]
pub enum Refusal {
    /// 60: they are no JSON text (RFC 8259), or one that nests more than 127 deep or has a number that no float can be near to.
    NotJson,

    /// 61: an object has a key that is none of its own.
    UnknownKey,

    /// 62: an object lacks a key that it has to have.
    MissingKey,

    /// 63: a value is of another kind than its place asks for.
    WrongKind,

    /// 64: a number, the length or a letter of a text, or the number of tenants or routes is out of its range; or the file is above 1 MiB.
    OutOfRange,

    /// 65: two tenants have one name or one port.
    DoubleName,

    /// 66: two routes of a tenant have one path.
    DoubleRoute,

    /// 67: a path does not begin with `/`, or has a byte that no path may have.
    BadRoute,

    /// 68: the memories of all functions that can run at a time would be too large.
    RegionTooLarge,

    /// 69: a content type has a byte that no line of a reply may have.
    BadContentType,
}

impl Refusal {
    /// The number that users see.
    pub fn number(self) -> u8
        ensures { result ≡ number_of self }
    {
        match self {
            Refusal::NotJson => 60,
            Refusal::UnknownKey => 61,
            Refusal::MissingKey => 62,
            Refusal::WrongKind => 63,
            Refusal::OutOfRange => 64,
            Refusal::DoubleName => 65,
            Refusal::DoubleRoute => 66,
            Refusal::BadRoute => 67,
            Refusal::RegionTooLarge => 68,
            Refusal::BadContentType => 69,
        }
    }
}
