//! The adapters over a file and the streams of the system, and over fakes that fail as these may.
ghost use Rattle.std.specs.Prelude.{◌≤◌, IfOk, IsErr};

use outside::{Failed, Fetch, FileLibrary, Library, Sink, StdNotes, StdSink};
use std::alloc::{Allocator, Global};
use std::fs::{Metadata, OpenFile, OpenOptions};
use std::io::{ErrorKind, Read, Seek, SeekFrom, Write};
use std::path::PathBuf;
use std::process::Abort;
use std::rt::Files;
use std::test::Fail;
use std::{env, fs, io, process};

/// What the next call of a stream does.
#[derive(Clone, Copy, Debug, PartialEq, Eq)]
enum Step {
    /// It moves so many bytes, or as many as there are.
    Moves(usize),
    Interrupted,
    Broken,
}

/// Steps one after another, and after them calls that move all that there is.
#[derive(Drop)]
struct Steps(&'static [Step]);

impl Steps {
    /// How many bytes of so many the next call moves.
    fn next(&mut self, len: usize) -> io::Result<usize>
        ensures { IfOk result (λ moved. moved ≤ len) }
    {
        let Some((step, later)) = self.0.split_first() else {
            return Ok(len);
        };
        self.0 = later;
        match *step {
            Step::Moves(moved) => Ok(len.min(moved)),
            Step::Interrupted => Err(io::Error::from(ErrorKind::Interrupted)),
            Step::Broken => Err(io::Error::from(ErrorKind::BrokenPipe)),
        }
    }
}

/// A file that is read by steps.
#[derive(Drop)]
struct Source {
    steps: Steps,
    bytes: &'static [u8],
}

impl Read for Source {
    fn read(&mut self, buf: &mut [u8]) -> io::Result<usize> {
        let moved = self.steps.next(buf.len().min(self.bytes.len()))?;
        let (front, rest) = self.bytes.split_at(moved);
        buf[..moved].copy_from_slice(front);
        self.bytes = rest;
        Ok(moved)
    }
}

// The answer of a call that no test makes.
fn unsupported<T>() -> io::Result<T>
    ensures { IsErr result }
{
    Err(io::Error::from(ErrorKind::Unsupported))
}

// A file is written nowhere in this crate, and has no place.
impl Write for Source {
    fn write(&mut self, _buf: &[u8]) -> io::Result<usize> {
        unsupported()
    }

    fn flush(&mut self) -> io::Result<()> {
        unsupported()
    }
}

impl Seek for Source {
    fn seek(&mut self, _to: SeekFrom) -> io::Result<u64> {
        unsupported()
    }
}

impl OpenFile for Source {
    fn metadata(&self) -> io::Result<Metadata> {
        unsupported()
    }

    fn set_len(&self, _size: u64) -> io::Result<()> {
        unsupported()
    }

    fn sync_all(&self) -> io::Result<()> {
        unsupported()
    }

    fn sync_data(&self) -> io::Result<()> {
        unsupported()
    }
}

/// Files that all have eight bytes and are read by these steps.
#[derive(Drop)]
struct Stepped(&'static [Step]);

impl Files for Stepped {
    type File = Source;

    type Dir = Source;

    fn open_file(&self, _how: &OpenOptions, _path: &str) -> io::Result<Source> {
        Ok(Source {
            steps: Steps(self.0),
            bytes: b"abcdefgh",
        })
    }

    fn open_dir(&self, _path: &str) -> io::Result<Source> {
        unsupported()
    }

    fn metadata(&self, _path: &str) -> io::Result<Metadata> {
        unsupported()
    }

    fn symlink_metadata(&self, _path: &str) -> io::Result<Metadata> {
        unsupported()
    }

    fn copy(&self, _from: &str, _to: &str) -> io::Result<u64> {
        unsupported()
    }

    fn rename(&self, _from: &str, _to: &str) -> io::Result<()> {
        unsupported()
    }

    fn remove_file(&self, _path: &str) -> io::Result<()> {
        unsupported()
    }

    fn create_dir(&self, _path: &str) -> io::Result<()> {
        unsupported()
    }

    fn remove_dir(&self, _path: &str) -> io::Result<()> {
        unsupported()
    }

    fn remove_dir_all<B: Allocator>(&self, _alloc: B, _path: &str) -> io::Result<()> {
        unsupported()
    }
}

/// A stream that is written and flushed by steps.
#[derive(Drop)]
struct Drain<'a> {
    steps: Steps,
    taken: &'a mut Vec<u8>,
}

impl<'a> Write for Drain<'a> {
    fn write(&mut self, buf: &[u8]) -> io::Result<usize> {
        let moved = self.steps.next(buf.len())?;
        self.taken.extend_from_slice(buf.split_at(moved).0)?;
        Ok(moved)
    }

    fn flush(&mut self) -> io::Result<()> {
        self.steps.next(0)?;
        Ok(())
    }
}

// Whether a library answered these bytes, or this fault.
fn is_answer(answer: &Result<Vec<u8>, Fetch>, want: Result<&str, Fetch>) -> bool {
    match (answer, want) {
        (Ok(bytes), Ok(text)) => bytes.as_slice() == text.as_bytes(),
        (Err(fault), Err(wanted)) => *fault == wanted,
        _ => false,
    }
}

// A path that no other process uses.
fn own_path(rt: &HostRuntime) -> Result<PathBuf, Fail> {
    let id = process::id(rt.process());
    let name = format!(in rt.alloc(); "outside_test_{id}")?;
    Ok(env::temp_dir(rt)?.as_path().join(rt.alloc(), name)?)
}

// Reads a file of the system, and tells the faults so far.
fn expect_file<R: Files + Abort>(
    rt: &R,
    alloc: Global,
    library: &mut FileLibrary<'_, R>,
    (path, most): (&str, u64),
    want: Result<&str, Fetch>,
) -> u64 {
    let answer = library.read(alloc, path, most);
    assert!(rt; is_answer(&answer, want), "{path} at {most}");
    drop(answer);
    library.faults()
}

fn read_files<R: Files + Abort>(rt: &R, alloc: Global, path: &str) -> io::Result<()> {
    let mut library = FileLibrary::new(rt);
    fs::write(rt, path, b"contents")?;
    expect_file(rt, alloc, &mut library, (path, u64::MAX), Ok("contents"));
    expect_file(rt, alloc, &mut library, (path, 8), Ok("contents"));
    expect_file(rt, alloc, &mut library, (path, 7), Ok("contents"));
    let faults = expect_file(rt, alloc, &mut library, (path, 2), Ok("con"));
    assert_eq!(rt; faults, 0);
    fs::remove_file(rt, path)?;
    let faults = expect_file(rt, alloc, &mut library, (path, 9), Err(Fetch::Missing));
    assert_eq!(rt; faults, 1);
    let faults = expect_file(rt, alloc, &mut library, ("/", 9), Err(Fetch::Failed));
    assert_eq!(rt; faults, 2);
    Ok(())
}

#[test]
fn reaches_the_files_of_the_system(rt: HostRuntime) -> Result<(), Fail> {
    let path = own_path(&rt)?;
    let result = read_files(&rt, rt.alloc(), path.as_path().as_str());
    drop(path);
    Ok(result?)
}

#[test]
fn reaches_the_streams_of_the_system(rt: HostRuntime) {
    let mut out = StdSink::new(rt.stdout());
    assert_eq!(rt; out.write(b"to standard output\n"), Ok(()));
    assert_eq!(rt; out.faults(), 0);
    drop(out);
    let mut notes = StdNotes::new(rt.stderr());
    assert_eq!(rt; notes.write(b"to standard error\n"), Ok(()));
    assert_eq!(rt; notes.faults(), 0);
    drop(notes);
}

// Reads at most five bytes, and one more, of a file of eight.
fn expect_read(
    rt: &impl Abort,
    alloc: Global,
    steps: &'static [Step],
    want: Result<&str, Fetch>,
    faults: u64,
) {
    let files = Stepped(steps);
    let mut library = FileLibrary::new(&files);
    let answer = library.read(alloc, "any", 5);
    assert!(rt; is_answer(&answer, want), "{steps:?}");
    assert_eq!(rt; library.faults(), faults, "{steps:?}");
    drop(answer);
}

#[test]
fn reads_on_after_an_interrupted_call(rt: HostRuntime) {
    use Step::{Broken, Interrupted, Moves};
    expect_read(&rt, rt.alloc(), &[], Ok("abcdef"), 0);
    expect_read(&rt, rt.alloc(), &[Moves(1), Moves(2)], Ok("abcdef"), 0);
    expect_read(
        &rt,
        rt.alloc(),
        &[Interrupted, Moves(1), Interrupted],
        Ok("abcdef"),
        2,
    );
    expect_read(&rt, rt.alloc(), &[Moves(3), Moves(0)], Ok("abc"), 0);
    expect_read(
        &rt,
        rt.alloc(),
        &[Moves(5), Interrupted, Broken],
        Err(Fetch::Failed),
        2,
    );
}

// Writes "piece" to a stream.
fn expect_written(
    rt: &impl Abort,
    alloc: Global,
    steps: &'static [Step],
    want: Result<(), Failed>,
    taken: &str,
    faults: u64,
) {
    let mut bytes = Vec::new(alloc);
    let mut sink = StdSink::new(Drain {
        steps: Steps(steps),
        taken: &mut bytes,
    });
    assert_eq!(rt; sink.write(b"piece"), want, "{steps:?}");
    assert_eq!(rt; sink.faults(), faults, "{steps:?}");
    drop(sink);
    assert_eq!(rt; bytes.as_slice(), taken.as_bytes(), "{steps:?}");
}

#[test]
fn writes_all_or_fails(rt: HostRuntime) {
    use Step::{Broken, Interrupted, Moves};
    expect_written(&rt, rt.alloc(), &[], Ok(()), "piece", 0);
    expect_written(&rt, rt.alloc(), &[Moves(2), Moves(1)], Ok(()), "piece", 0);
    expect_written(
        &rt,
        rt.alloc(),
        &[Interrupted, Moves(4), Interrupted],
        Ok(()),
        "piece",
        2,
    );
    expect_written(
        &rt,
        rt.alloc(),
        &[Moves(3), Moves(0)],
        Err(Failed),
        "pie",
        1,
    );
    expect_written(&rt, rt.alloc(), &[Moves(1), Broken], Err(Failed), "p", 1);
    expect_written(
        &rt,
        rt.alloc(),
        &[Moves(5), Interrupted, Broken],
        Err(Failed),
        "piece",
        2,
    );
}
