//! Writing what a command has to say: first its text, then its note.

ghost use Rattle.std.specs.Prelude.{◌≡◌, ◌≤◌, MatchResult, OnOk, OnErr};
ghost use Rattle.outside.specs.Faults.{Rose};
ghost use Rattle.outside.specs.Sink.{Appends, TakesPrefix};
ghost use Rattle.commands.specs.Delivery.{Wrote, WroteInPart};
ghost use Rattle.commands.specs.Pieces.{Cut, CutOff, Handed, HandedBoth};

use outside::{Failed, Sink};

/// The most bytes that are handed to a sink in one call.
const PIECE: usize = 65_536;

/// Writes the text to `out`, and when it is all written the note to `notes`.
pub fn deliver<S: Sink, N: Sink>(
    text: &[u8],
    note: &[u8],
    out: &mut S,
    notes: &mut N,
) -> Result<(), Failed>
    ensures all { OnOk result (Wrote text.now note.now
        (S.state out.old) (S.state out.new) (N.state notes.old) (N.state notes.new)) }
    ensures part { OnErr result (WroteInPart text.now note.now
        (S.state out.old) (S.state out.new) (N.state notes.old) (N.state notes.new)) }
    ensures handed { OnOk result
        (HandedBoth S.took N.took text.now note.now out.old out.new notes.old notes.new) }
    ensures cut { OnErr result
        (CutOff S.took N.took text.now note.now out.old out.new notes.old notes.new) }
{
    write_pieces(text, out)?;
    write_pieces(note, notes)
}

/// Writes the bytes in pieces of `PIECE` bytes and a last shorter one. No bytes are no call.
pub fn write_pieces<S: Sink>(bytes: &[u8], sink: &mut S) -> Result<(), Failed>
    ensures all { OnOk result (Appends (S.state sink.old) (S.state sink.new) bytes.now) }
    ensures some { OnErr result (TakesPrefix (S.state sink.old) (S.state sink.new) bytes.now) }
    ensures cause { OnErr result (Rose (S.state sink.old).faults (S.state sink.new).faults) }
    ensures handed { OnOk result (Handed S.took bytes.now sink.old sink.new) }
    ensures cut { OnErr result (Cut S.took bytes.now sink.old sink.new) }
    ensures later { (S.state sink.old).faults ≤ (S.state sink.new).faults }
{
    let mut rest = bytes;
    'pieces: while !rest.is_empty() {
        let (piece, behind) = rest.split_at(PIECE.min(rest.len()));
        sink.write(piece)?;
        rest = behind;
    }
    Ok(())
}
