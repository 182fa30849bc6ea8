//! Why bytes are no recording.
ghost use Rattle.std.specs.Prelude.{◌≡◌};
ghost use Rattle.recording_format.specs.Refusals.{number_of};

/// Why bytes are refused as a recording.
#[derive(Clone, Copy)]
pub enum Refusal {
    /// 70: they do not begin with the magic bytes.
    BadMagic,

    /// 71: they end within a record, or without the end record.
    CutShort,

    /// 72: a record has an unknown kind.
    UnknownKind,

    /// 73: a record's moment is below that of the record before it.
    MomentFell,

    /// 74: a connection does not begin with the next link, or a record is of a link that has not begun or is closed.
    LinkOrder,

    /// 75: a connection is that of an unknown tenant.
    UnknownTenant,

    /// 76: there are more than 32 MiB, or more than 1,024 connections.
    TooLarge,

    /// 78: bytes stand behind the end record.
    RestAfterEnd,
}

impl Refusal {
    /// The number that users see.
    pub fn number(self) -> u8
        ensures { result ≡ number_of self }
    {
        match self {
            Refusal::BadMagic => 70,
            Refusal::CutShort => 71,
            Refusal::UnknownKind => 72,
            Refusal::MomentFell => 73,
            Refusal::LinkOrder => 74,
            Refusal::UnknownTenant => 75,
            Refusal::TooLarge => 76,
            Refusal::RestAfterEnd => 78,
        }
    }
}
