//! Laws of the definitions. The functions do nothing: their contracts are the laws.
ghost use Rattle.std.specs.Prelude.{◌≡◌, ◌⊎◌, ◌<◌, ◌^◌, ℕ, List, [], ◌∷◌, ◌++◌, length};
ghost use Rattle.recording_format.specs.declared.records.Record.{Record};
ghost use Rattle.recording_format.specs.declared.refusals.Refusal.{Refusal};
ghost use Rattle.recording_format.specs.Connections.{connections_of, with_record};
ghost use Rattle.recording_format.specs.Following.{MayFollow, IsLegal};
ghost use Rattle.recording_format.specs.Standing.{standing_behind};
ghost use Rattle.recording_format.specs.Recorded.{AreBytes, Recorded, IsRefused};

/// Whatever the bytes are, and however many tenants there are, they are a recording or are refused: one of the two, with one list of records or with one refusal.
pub fn recording_or_refusal()
    ensures one_holds { (tenants : ℕ) (bytes : List ℕ) → AreBytes bytes → ((records : List Record) × Recorded tenants bytes records) ⊎ ((why : Refusal) × IsRefused tenants bytes why) }
    ensures never_both { (tenants : ℕ) (bytes : List ℕ) (records : List Record) (why : Refusal) → tenants < 2 ^ 32 → Recorded tenants bytes records → IsRefused tenants bytes why → ⊥ }
    ensures one_recording { (tenants : ℕ) (bytes : List ℕ) (records others : List Record) → tenants < 2 ^ 32 → Recorded tenants bytes records → Recorded tenants bytes others → records ≡ others }
    ensures one_refusal { (tenants : ℕ) (bytes : List ℕ) (why other : Refusal) → tenants < 2 ^ 32 → IsRefused tenants bytes why → IsRefused tenants bytes other → why ≡ other }
{}

/// What the connections of a recording are, record by record.
///
/// There are as many as have begun. A record more adds a connection with the next link, adds a piece to the connection of its link, or changes none.
pub fn connections_grow()
    ensures as_many { (records : List Record) → length (connections_of records) ≡ length (standing_behind records).links }
    ensures one_more { (records : List Record) (next : Record) → IsLegal records → MayFollow (standing_behind records) next → connections_of (records ++ next ∷ []) ≡ with_record (length records) (connections_of records) next }
{}
