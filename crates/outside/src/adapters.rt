// The system's files and streams as a library and as sinks.
//
// They loop over `read` and `write` themselves, count each error, and go on after an interrupted
// call. What a file of the system holds and what its streams take is trusted: no clause tells it.
ghost use Rattle.std.specs.Prelude.{◌≡◌, ◌+◌, ◌≤◌, ℕ, List, false, is_ok, length, take, IfOk, IfErr, OnOk, OnErr};
ghost use Rattle.std.specs.Io.KnownBytes.{Keeps, Appends as Gains};
ghost use Rattle.outside.specs.Faults.{one_more, FailsOnlyWhereRose};
ghost use Rattle.outside.specs.Sink.{Appends, TakesPrefix};
ghost use Rattle.outside.specs.Counted.{GainsPrefix, UntoldGave, UntoldTook, untold_library, untold_sink};
ghost use Rattle.outside.specs.Library.{AreBytes, CameTo, FetchCause};

use crate::faults::Failed;
use crate::libraries::{Fetch, Library};
use crate::sinks::Sink;
use std::alloc::Global;
use std::io::{ErrorKind, Read, Write};
use std::marker::Model;
use std::rt::Files;
use std::{fs, io};

/// How many bytes one call of `read` asks a file for at most.
const PIECE: usize = 8192;

/// The files of the system, where a file's name is its path.
///
/// Contracts see it as its count of faults.
#[derive(Drop)]
pub struct FileLibrary<'a, R> {
    files: &'a R,
    faults: u64,
}

impl<'a, R> Model for FileLibrary<'a, R> {
    ghost use Rattle.std.specs.Prelude.{ℕ};

    ghost Value = { ℕ };

    ghost view = { λ library. library.faults };
}

impl<'a, R: Files> FileLibrary<'a, R> {
    /// The files that the runtime reaches, with no fault so far.
    pub fn new(files: &'a R) -> FileLibrary<'a, R>
        ensures { result ≡ 0 }
    {
        FileLibrary { files, faults: 0 }
    }

    /// Counts an error, and says what it means for the file.
    fn fault(&mut self, error: &io::Error) -> Fetch
        ensures counted { self.new ≡ one_more self.old }
        ensures later { self.old ≤ self.new }
    {
        self.faults = self.faults.saturating_add(1);
        match error.kind() {
            ErrorKind::OutOfMemory => Fetch::NoMemory,
            _ => Fetch::Failed,
        }
    }

    /// All bytes that the file has left where they are at most `most`, and else the first
    /// `most + 1` of them.
    fn read_file<F: Read>(
        &mut self,
        alloc: Global,
        file: &mut F,
        most: u64,
    ) -> Result<Vec<u8>, Fetch>
        ensures given { (name : List ℕ) → CameTo result (UntoldGave self.old self.new name most) }
        ensures at_most { IfOk result (λ bytes. length bytes.items ≤ most + 1) }
        ensures cause { (name : List ℕ)
            → IfErr result (FetchCause name (untold_library self.old) (untold_library self.new)) }
        ensures later { self.old ≤ self.new }
    {
        let mut bytes = Vec::new(alloc);
        let mut piece = [0u8; PIECE];
        for _ in 0..u64::MAX {
            if exceeds(bytes.as_slice(), most) {
                return Ok(bytes);
            }
            let left = most - bytes.len() as u64;
            let want = left.min(PIECE as u64 - 1) as usize + 1;
            match file.read(&mut piece[..want]) {
                Ok(0) => return Ok(bytes),
                Ok(count) => {
                    if bytes.extend_from_slice(&piece[..count]).is_err() {
                        return Err(Fetch::NoMemory);
                    }
                }
                Err(error) => {
                    let fault = self.fault(&error);
                    if error.kind() != ErrorKind::Interrupted {
                        return Err(fault);
                    }
                }
            }
        }
        self.faults = self.faults.saturating_add(1);
        Err(Fetch::Failed)
    }
}

/// Whether there are more bytes than asked for.
fn exceeds(bytes: &[u8], most: u64) -> bool
    ensures within { result ≡ false → length bytes.now ≤ most }
    ensures are_bytes { AreBytes bytes.now }
{
    bytes.len() as u64 > most
}

impl<'a, R: Files> Library for FileLibrary<'a, R> {
    ghost state = { untold_library };

    ghost gave = { UntoldGave };

    ghost tells = { λ old new name most fetched given. given };

    fn read(&mut self, alloc: Global, name: &str, most: u64) -> Result<Vec<u8>, Fetch> {
        match fs::open(self.files, name) {
            Ok(mut file) => self.read_file(alloc, &mut file, most),
            Err(error) => {
                let fault = self.fault(&error);
                if error.kind() == ErrorKind::NotFound {
                    return Err(Fetch::Missing);
                }
                Err(fault)
            }
        }
    }

    fn faults(&self) -> u64 {
        self.faults
    }
}

/// Standard output, or another stream of bytes, as a sink.
///
/// Contracts see it as the stream and its count of faults. It tells no bytes as a sink; what the
/// stream itself tells is tied to what was written.
#[derive(Drop)]
pub struct StdSink<W> {
    stream: W,
    faults: u64,
}

/// Standard error as a sink.
pub type StdNotes<W> = StdSink<W>;

impl<W> Model for StdSink<W> {
    ghost use Rattle.outside.specs.Counted.{Counted};

    ghost Value = { Counted W };

    ghost view = { λ sink. record { stream = sink.stream; faults = sink.faults } };
}

impl<W: Write> StdSink<W> {
    /// A sink over the stream, with no fault so far.
    pub fn new(stream: W) -> StdSink<W>
        ensures { result ≡ record { stream = stream; faults = 0 } }
    {
        StdSink { stream, faults: 0 }
    }

    /// Counts an error. An interrupted call may be made again, and any other error ends the write.
    fn count(&mut self, error: &io::Error) -> Result<(), Failed>
        ensures counted { self.new ≡ record self.old { faults = one_more self.old.faults } }
        ensures later { self.old.faults ≤ self.new.faults }
    {
        self.faults = self.faults.saturating_add(1);
        if error.kind() == ErrorKind::Interrupted {
            Ok(())
        } else {
            Err(Failed)
        }
    }

    /// Counts a call that made no progress.
    fn stuck(&mut self) -> Failed
        ensures counted { self.new ≡ record self.old { faults = one_more self.old.faults } }
        ensures later { self.old.faults ≤ self.new.faults }
    {
        self.faults = self.faults.saturating_add(1);
        Failed
    }

    /// Writes some of the bytes by one call, and says how many. An interrupted call wrote none.
    fn write_some(&mut self, bytes: &[u8]) -> Result<usize, Failed>
        ensures within { IfOk result (λ count. count ≤ length bytes.now) }
        ensures ok { IfOk result (λ count.
            Gains (W.contents self.old.stream) (W.contents self.new.stream)
            (take count bytes.now)) }
        ensures err { OnErr result
            (Keeps (W.contents self.old.stream) (W.contents self.new.stream)) }
        ensures cause { FailsOnlyWhereRose result self.old.faults self.new.faults }
        ensures later { self.old.faults ≤ self.new.faults }
    {
        match self.stream.write(bytes) {
            Ok(0) => Err(self.stuck()),
            Ok(count) => Ok(count),
            Err(error) => {
                self.count(&error)?;
                Ok(0)
            }
        }
    }

    /// Hands to the system what the stream has held back.
    fn flush(&mut self) -> Result<(), Failed>
        ensures kept { Keeps (W.contents self.old.stream) (W.contents self.new.stream) }
        ensures cause { FailsOnlyWhereRose result self.old.faults self.new.faults }
        ensures later { self.old.faults ≤ self.new.faults }
    {
        for _ in 0..u64::MAX {
            match self.stream.flush() {
                Ok(()) => return Ok(()),
                Err(error) => self.count(&error)?,
            }
        }
        Err(self.stuck())
    }
}

impl<W: Write> Sink for StdSink<W> {
    ghost state = { λ sink. untold_sink sink.faults };

    ghost took = { λ old new bytes all. UntoldTook old.faults new.faults bytes all };

    ghost takes = { λ old new bytes all took. took };

    fn write(&mut self, bytes: &[u8]) -> Result<(), Failed>
        ensures taken { UntoldTook self.old.faults self.new.faults bytes.now (is_ok result) }
        ensures ok { OnOk result
            (Appends (untold_sink self.old.faults) (untold_sink self.new.faults) bytes.now) }
        ensures err { OnErr result
            (TakesPrefix (untold_sink self.old.faults) (untold_sink self.new.faults) bytes.now) }
        ensures cause { FailsOnlyWhereRose result self.old.faults self.new.faults }
        ensures later { self.old.faults ≤ self.new.faults }

        // Where the stream tells what it holds, it holds the bytes, or a prefix of them.
        ensures all { OnOk result
            (Gains (W.contents self.old.stream) (W.contents self.new.stream) bytes.now) }
        ensures some { OnErr result
            (GainsPrefix (W.contents self.old.stream) (W.contents self.new.stream) bytes.now) }
    {
        let mut rest = bytes;
        for _ in 0..u64::MAX {
            if rest.is_empty() {
                return self.flush();
            }
            let count = self.write_some(rest)?;
            rest = rest.split_at(count).1;
        }
        Err(self.stuck())
    }

    fn faults(&self) -> u64 {
        self.faults
    }
}
