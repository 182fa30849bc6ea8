// A connection of the system.
ghost use Rattle.std.specs.Prelude.{◌≡◌, ◌≤◌, [], false, true, length, take, IfOk, IfSome, IfNone, OnOk, OnErr};
ghost use Rattle.std.specs.Io.KnownBytes.{Appends, Consumes, Keeps};
ghost use Rattle.outside_links.specs.Counted.{GainsPrefix, UntoldExchanges, untold_link};
ghost use Rattle.outside_links.specs.Exchanges.{Exchanges-untold};
ghost use Rattle.outside_links.specs.Faults.{one_more};
ghost use Rattle.outside_links.specs.Link.{Fails, Reads, SendsPart, Writes};

use crate::faults::Failed;
use crate::links::Link;
use std::io;
use std::io::{ErrorKind, Read, Write};
use std::marker::Model;
use std::net::{Shutdown, TcpStream};
use std::time::Duration;

/// How many seconds a connection that is closed waits for what its peer still sends.
const LINGER_SECONDS: u64 = 1;

/// How many pieces of what its peer still sends it reads at most, and of how many bytes each.
const LINGER_PIECES: u32 = 256;

const LINGER_PIECE: usize = 8192;

/// A stream of bytes both ways as a link.
///
/// It goes on after a short write and after an interrupted call, neither of which is a fault. A
/// read that has waited as long as the stream allows answers 0, the end of input, and a write
/// that has waited as long has failed.
///
/// Contracts see it as the stream, its flags and its count of faults. It tells no bytes as a link;
/// what the stream itself tells is tied to what was read and written.
pub struct StreamLink<S> {
    stream: S,
    ended: bool,
    used: bool,
    faults: u64,
}

/// A connection of the system as a link.
pub type TcpLink = StreamLink<TcpStream>;

impl<S: Drop> Drop for StreamLink<S> {
    fn drop(self) {
        let StreamLink {
            stream: _,
            ended: _,
            used: _,
            faults: _,
        } = self;
    }
}

impl<S> Model for StreamLink<S> {
    ghost use Rattle.outside_links.specs.Counted.{Streaming};

    ghost Value = { Streaming S };

    ghost view = { λ l. record {
      stream = l.stream;
      ended = l.ended;
      used = l.used;
      faults = l.faults;
    } };
}

impl<S> StreamLink<S> {
    /// The stream, on which no call was made.
    pub fn new(stream: S) -> StreamLink<S>
        ensures { result
            ≡ record { stream = stream; ended = false; used = false; faults = 0 } }
    {
        StreamLink {
            stream,
            ended: false,
            used: false,
            faults: 0,
        }
    }

    /// Counts a call that failed.
    fn fail(&mut self) -> Failed
        ensures counted { self.new
            ≡ record self.old { used = true; faults = one_more self.old.faults } }
        ensures later { self.old.faults ≤ self.new.faults }
    {
        self.used = true;
        self.faults = self.faults.saturating_add(1);
        Failed
    }
}

/// Whether a call that failed so is made again.
fn is_interrupted(error: &io::Error) -> bool {
    error.kind() == ErrorKind::Interrupted
}

/// Whether a call failed so because it has waited as long as its stream allows.
fn has_waited(error: &io::Error) -> bool {
    matches!(error.kind(), ErrorKind::WouldBlock | ErrorKind::TimedOut)
}

/// Reads once, and again where that was interrupted. A read that has waited too long reads 0.
fn read_some<S: Read>(stream: &mut S, into: &mut [u8]) -> Option<usize>
    ensures within { IfSome result (λ count. count ≤ length into.new) }
    ensures some { IfSome result (λ count. Consumes (S.remaining stream.old)
        (S.remaining stream.new) (take count into.new)) }
    ensures none { IfNone result (Keeps (S.remaining stream.old) (S.remaining stream.new)) }
{
    for _ in 0..u64::MAX {
        match stream.read(into) {
            Ok(count) => return Some(count),
            Err(error) => {
                if has_waited(&error) {
                    return Some(0);
                }
                if !is_interrupted(&error) {
                    return None;
                }
            }
        }
    }
    None
}

impl<S: Write> StreamLink<S> {
    /// Writes some of the bytes, and says how many. An interrupted call wrote none.
    fn write_some(&mut self, bytes: &[u8]) -> Option<usize>
        ensures within { IfSome result (λ count. count ≤ length bytes.now) }
        ensures some { IfSome result (λ count. Appends (S.contents self.old.stream)
            (S.contents self.new.stream) (take count bytes.now)) }
        ensures none { IfNone result
            (Keeps (S.contents self.old.stream) (S.contents self.new.stream)) }
        ensures ended { self.new.ended ≡ self.old.ended }
        ensures used { self.new.used ≡ self.old.used }
        ensures faults { self.new.faults ≡ self.old.faults }
    {
        match self.stream.write(bytes) {
            Ok(0) => None,
            Ok(count) => Some(count),
            Err(error) => {
                if is_interrupted(&error) {
                    Some(0)
                } else {
                    None
                }
            }
        }
    }
}

impl<S: Read + Write> Link for StreamLink<S> {
    ghost state = { untold_link };

    ghost exchanged = { UntoldExchanges };

    fn read(&mut self, into: &mut [u8]) -> Result<u32, Failed>
        requires { (1 ≤ length into.old) × (length into.old ≤ 65536) }
        ensures within { IfOk result (λ count. count ≤ length into.new) }
        ensures taken { IfOk result (λ count.
            UntoldExchanges self.old self.new (take count into.new) []) }
        ensures none { OnErr result (UntoldExchanges self.old self.new [] []) }
        ensures ok { IfOk result (Reads (untold_link self.old) (untold_link self.new)) }
        ensures err { OnErr result (Fails (untold_link self.old) (untold_link self.new)) }
        ensures later { self.old.faults ≤ self.new.faults }

        // Where the stream tells what it has left, these were the next bytes of it.
        ensures bytes { IfOk result (λ count. Consumes (S.remaining self.old.stream)
            (S.remaining self.new.stream) (take count into.new)) }
        ensures kept { OnErr result
            (Keeps (S.remaining self.old.stream) (S.remaining self.new.stream)) }
    {
        let Some(count) = read_some(&mut self.stream, into) else {
            return Err(self.fail());
        };
        if count == 0 {
            self.ended = true;
            self.used = true;
        }
        Ok(count as u32)
    }

    fn ended(&self) -> bool {
        self.ended
    }

    fn used(&self) -> bool {
        self.used
    }

    fn write(&mut self, bytes: &[u8]) -> Result<(), Failed>
        ensures sent { OnOk result (UntoldExchanges self.old self.new [] bytes.now) }
        ensures part { OnErr result (SendsPart UntoldExchanges self.old self.new bytes.now) }
        ensures ok { OnOk result
            (Writes (untold_link self.old) (untold_link self.new) bytes.now) }
        ensures err { OnErr result (Fails (untold_link self.old) (untold_link self.new)) }
        ensures later { self.old.faults ≤ self.new.faults }

        // Where the stream tells what it holds, it holds the bytes, or a prefix of them.
        ensures all { OnOk result
            (Appends (S.contents self.old.stream) (S.contents self.new.stream) bytes.now) }
        ensures some { OnErr result
            (GainsPrefix (S.contents self.old.stream) (S.contents self.new.stream) bytes.now) }
    {
        let mut rest = bytes;
        for _ in 0..u64::MAX {
            if rest.is_empty() {
                if !bytes.is_empty() {
                    self.used = true;
                }
                return Ok(());
            }
            let Some(count) = self.write_some(rest) else {
                return Err(self.fail());
            };
            rest = rest.split_at(count).1;
        }
        Err(self.fail())
    }

    fn faults(&self) -> u64 {
        self.faults
    }

    ghost nothing = { λ link. tt };

    ghost behind = { λ old mid new read read' sent sent' first second. tt };

    ghost tells = { λ old new read sent untold. Exchanges-untold old new read sent };
}

/// Reads what the peer still sends and drops it, for a short while.
fn linger(stream: &mut TcpStream) {
    let mut piece = [0u8; LINGER_PIECE];
    let _ = stream.shutdown(Shutdown::Write);
    let _ = stream.set_read_timeout(Some(Duration::from_secs(LINGER_SECONDS)));
    for _ in 0..LINGER_PIECES {
        match stream.read(&mut piece) {
            Ok(0) => return,
            Ok(_) => {}
            Err(_) => return,
        }
    }
}

impl StreamLink<TcpStream> {
    /// Ends the connection.
    ///
    /// Where the peer has not ended its side, what it still sends is read and dropped for a short
    /// while: the system resets a connection that is closed with bytes unread, and a reset can
    /// take the last reply from a peer that has not read it yet.
    pub(crate) fn close(self) {
        let StreamLink {
            stream,
            ended,
            used: _,
            faults: _,
        } = self;
        let mut stream = stream;
        if !ended {
            linger(&mut stream);
        }
        let _ = stream.shutdown(Shutdown::Both);
    }
}
