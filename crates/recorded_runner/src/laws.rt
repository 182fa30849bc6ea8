//! Laws of the definitions. The functions do nothing: their contracts are the laws.
ghost use Rattle.std.specs.Prelude.{◌≡◌, ◌^◌, ◌≤◌, ◌<◌, ◌==◌, ℕ, List, filter, length, true};
ghost use Rattle.recorded_arrivals.specs.Arrivals.{arrivals};
ghost use Rattle.recording_format.specs.declared.records.Record.{Record};
ghost use Rattle.recording_format.specs.Connections.{tenants_of};
ghost use Rattle.recording_format.specs.Following.{IsLegal};
ghost use Rattle.recording_format.specs.Recorded.{Recorded};
ghost use Rattle.recording_format.specs.Spelling.{spelling};
ghost use Rattle.serve_config.specs.Configuration.{Configuration};
ghost use Rattle.wasm_meaning.specs.Programs.{Program};
ghost use Rattle.recorded_runner.specs.Alone.{alone, is_of, number_among, said_of};
ghost use Rattle.recorded_runner.specs.Fates.{decided};
ghost use Rattle.recorded_runner.specs.Readings.{replies_in, replies_to};
ghost use Rattle.recorded_runner.specs.ReplayText.{replay_text, replies_on};
ghost use Rattle.recorded_runner.specs.Summaries.{summary_of};

use recorded_arrivals::laws::ends_complete_refusals;

/// How a server works changes no reply: configurations of the same tenants have the same replay text, whatever their workers, quantum, policy, berths and clerks are. With one quantum they have the same summary too.
pub fn replies_whoever_works()
    ensures text { (one other : Configuration) (programs : List Program) (records : List Record) → one.tenants ≡ other.tenants → replay_text one programs records ≡ replay_text other programs records }
    ensures summary { (one other : Configuration) (programs : List Program) (records : List Record) → one.tenants ≡ other.tenants → one.quantum ≡ other.quantum → summary_of one programs records ≡ summary_of other programs records }
{}

/// The recording of one tenant alone is a recording: its records may follow one another, its connections are the tenant's and no others, in their order, and of each it says just what the whole says, at the same moments. It has no more items than the whole, and where the whole is that of a file, its bytes are that of one too.
pub fn one_tenant_alone()
    ensures legal { (tenant : ℕ) (records : List Record) → IsLegal records → IsLegal (alone tenant records) }
    ensures owners { (tenant : ℕ) (records : List Record) → IsLegal records → tenants_of (alone tenant records) ≡ filter (λ owner. owner == tenant) (tenants_of records) }
    ensures said { (tenant link : ℕ) (records : List Record) → IsLegal records → link < length (tenants_of records) → is_of (tenants_of records) tenant link ≡ true → said_of (number_among (tenants_of records) tenant link) (alone tenant records) ≡ said_of link records }
    ensures recorded { (tenants tenant : ℕ) (bytes : List ℕ) (records : List Record) → Recorded tenants bytes records → Recorded tenants (spelling (alone tenant records)) (alone tenant records) }
    ensures fewer { (tenant : ℕ) (records : List Record) → IsLegal records → length (arrivals (alone tenant records)) ≤ length (arrivals records) }
{
    ends_complete_refusals();
}

/// No tenant's replies depend on what the others ask. Each of its connections has the replies that it has in the recording without the connections of all others; and where no connection's replies are too long for the text to tell their length, as in a text of fewer than 2^32 bytes, the two texts say just that.
pub fn tenants_are_isolated()
    ensures each { (config : Configuration) (programs : List Program) (records : List Record) (tenant link : ℕ) → IsLegal records → link < length (tenants_of records) → is_of (tenants_of records) tenant link ≡ true → replies_on config.tenants programs (number_among (tenants_of records) tenant link) (decided config.tenants (alone tenant records)) ≡ replies_on config.tenants programs link (decided config.tenants records) }
    ensures texts { (config : Configuration) (programs : List Program) (records : List Record) (tenant : ℕ) → IsLegal records → ((link : ℕ) → link < length (tenants_of records) → length (replies_on config.tenants programs link (decided config.tenants records)) < 2 ^ 32) → replies_to tenant records (replay_text config programs records) ≡ replies_in (alone tenant records) (replay_text config programs (alone tenant records)) }
    ensures whole { (config : Configuration) (programs : List Program) (records : List Record) (tenant : ℕ) → IsLegal records → length (replay_text config programs records) < 2 ^ 32 → replies_to tenant records (replay_text config programs records) ≡ replies_in (alone tenant records) (replay_text config programs (alone tenant records)) }
{
    ends_complete_refusals();
}
