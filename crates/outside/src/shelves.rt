// A library in memory.
ghost use Rattle.std.specs.Prelude.{◌≡◌, ◌+◌, ◌≤◌, length, map, take, find, IfOk, IfErr};
ghost use Rattle.std.specs.Option.{option_copied};
ghost use Rattle.std.specs.Str.{bytes_eq};
ghost use Rattle.outside.specs.Library.{AreBytes, CameTo, FetchCause, Held};
ghost use Rattle.outside.specs.Shelf.{Answers, ShelfGave, after_call, answer, file_of, files_of, shelf_state};

use crate::libraries::{Fetch, Library};
use crate::texts::Text;
use std::alloc::Global;
use std::marker::Model;

/// A library in memory, which tells what it holds and fails only at the calls that it was told.
pub struct Shelf {
    files: Vec<(Text, Vec<u8>)>,
    failing: Vec<u64>,
    calls: u64,
    faults: u64,
}

impl Drop for Shelf {
    fn drop(self) {
        let Shelf {
            files: _,
            failing: _,
            calls: _,
            faults: _,
        } = self;
    }
}

impl Model for Shelf {
    ghost use Rattle.std.specs.Prelude.{map};
    ghost use Rattle.outside.specs.Shelf.{Contents, file_of};

    ghost Value = { Contents };

    ghost view = { λ s. record {
      files = map file_of s.files.items;
      failing = s.failing.items;
      calls = s.calls;
      faults = s.faults;
    } };
}

impl Shelf {
    /// A library of these files by name, of which a call of `read` fails if its number, counted
    /// from 0, stands in `failing`. Where two files have one name the first stands.
    pub fn new(files: Vec<(Text, Vec<u8>)>, failing: Vec<u64>) -> Shelf
        ensures { result ≡ record {
          files = map file_of files.items;
          failing = failing.items;
          calls = 0;
          faults = 0;
        } }
    {
        Shelf {
            files,
            failing,
            calls: 0,
            faults: 0,
        }
    }
}

/// The first file of this name.
fn first_of_name<'a>(files: &'a [(Text, Vec<u8>)], name: &str) -> Option<&'a (Text, Vec<u8>)>
    ensures { option_copied result ≡ find (λ file. bytes_eq file.0 name.now) files.now }
{
    files.iter().find(|file| file.0.as_str() == name)
}

/// The bytes of the first file of this name.
#[tactic(auto, using(crate::proofs::FileLemmas::find_file))]
fn bytes_of<'a>(files: &'a [(Text, Vec<u8>)], name: &str) -> Option<&'a [u8]>
    ensures { option_copied result ≡ files_of (map file_of files.now) name.now }
{
    match first_of_name(files, name) {
        Some((_, bytes)) => Some(bytes.as_slice()),
        None => None,
    }
}

/// The first `most + 1` bytes, or all where there are fewer.
fn front_of(alloc: Global, bytes: &[u8], most: u64) -> Result<Vec<u8>, Fetch>
    ensures front { IfOk result (λ front. front.items ≡ take (most + 1) bytes.now) }
    ensures bytes { IfOk result (λ front. AreBytes front.items) }
    ensures memory { IfErr result (λ e. e ≡ Fetch.NoMemory) }
{
    let front = if (bytes.len() as u64) <= most {
        bytes
    } else {
        bytes.split_at(most as usize + 1).0
    };
    match Vec::from_slice(alloc, front) {
        Ok(front) => Ok(front),
        Err(_) => Err(Fetch::NoMemory),
    }
}

impl Library for Shelf {
    ghost state = { shelf_state };

    ghost gave = { ShelfGave };

    ghost tells = { λ old new name most fetched given. given.tells };

    fn read(&mut self, alloc: Global, name: &str, most: u64) -> Result<Vec<u8>, Fetch>
        ensures given { CameTo result (ShelfGave self.old self.new name.now most) }
        ensures bytes { IfOk result (λ bytes.
            Held (shelf_state self.old).held name.now most bytes.items) }
        ensures at_most { IfOk result (λ bytes. length bytes.items ≤ most + 1) }
        ensures cause { IfErr result
            (FetchCause name.now (shelf_state self.old) (shelf_state self.new)) }
        ensures same { (shelf_state self.new).held ≡ (shelf_state self.old).held }
        ensures later { self.old.faults ≤ self.new.faults }

        // Exactly which answer, and what the call leaves.
        ensures answer { Answers result (answer self.old name.now most) }
        ensures after { self.new ≡ after_call self.old }
    {
        let call = self.calls;
        self.calls = call.saturating_add(1);
        if self.failing.contains(&call) {
            self.faults = self.faults.saturating_add(1);
            return Err(Fetch::Failed);
        }
        let Some(bytes) = bytes_of(&self.files, name) else {
            return Err(Fetch::Missing);
        };
        front_of(alloc, bytes, most)
    }

    fn faults(&self) -> u64 {
        self.faults
    }
}
