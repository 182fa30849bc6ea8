//! Laws of the definitions. The functions do nothing: their contracts are the laws.
ghost use Rattle.std.specs.Prelude.{◌≡◌, ◌<◌, ℕ, List, Some, true, length, slice_get};
ghost use Rattle.std.specs.List.{AllByRecursion, flat_map};
ghost use Rattle.http_items.specs.Ends.{IsEnding};
ghost use Rattle.http_items.specs.Items.{items, IsWithin};
ghost use Rattle.recording_format.specs.declared.records.Record.{Record};
ghost use Rattle.recording_format.specs.Connections.{Connection, connections_of, stream_of, tenants_of};
ghost use Rattle.recording_format.specs.Following.{IsLegal};
ghost use Rattle.recorded_arrivals.specs.Arrivals.{Arrived, arrivals, completed_at_end, heard_on};

use http_items::{end_of_a_stream, items_have_numbers, items_in_order};

/// What arrives on a connection is, in order, just the items of its joined bytes, once its stream has ended. So the arrivals are as many as the items of all connections together.
pub fn items_of_connections()
    ensures each { (records : List Record) (link : ℕ) (connection : Connection) → slice_get (connections_of records) link ≡ Some connection → heard_on link (arrivals records) ≡ items (stream_of connection) true }
    ensures together { (records : List Record) → IsLegal records → length (arrivals records) ≡ length (flat_map (λ (c : Connection). items (stream_of c) true) (connections_of records)) }
{
    items_in_order();
}

/// The body of a request that arrives has at most 1 MiB, and a refusal that its bytes have has a number from 1 to 8. Each item is on a connection that begins.
pub fn items_within_limits()
    ensures within { (records : List Record) → AllByRecursion (λ (a : Arrived). IsWithin a.heard) (arrivals records) }
    ensures begun { (records : List Record) → IsLegal records → AllByRecursion (λ (a : Arrived). a.link < length (tenants_of records)) (arrivals records) }
{
    items_have_numbers();
}

/// The end of a connection's stream completes at most one item, a refusal of what it cuts: no route and no meter is asked for it, so its moment, that of the last record, which may be another connection's, decides nothing.
pub fn ends_complete_refusals()
    ensures { (link : ℕ) (records : List Record) → IsEnding (completed_at_end link records) }
{
    end_of_a_stream();
}
