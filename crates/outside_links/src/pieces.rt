// What a peer in memory has still to send.
ghost use Rattle.std.specs.Prelude.{◌≡◌, ◌≤◌, ◌<◌, ◌++◌, ◌∷◌, ◌⊎◌, [], min, length, take, drop, map, vec_len};
ghost use Rattle.outside_links.specs.MemLink.{bytes_of, items_of, left_behind, next_bytes, pass_empty};

use std::alloc::Global;
use std::collections::VecDeque;
use std::marker::Model;

/// Pieces of bytes in order, of which each read takes some of one.
#[derive(Drop)]
pub(crate) struct Pieces {
    // The piece that is read, how much of it was, and those behind it.
    piece: Vec<u8>,
    at: usize,
    later: VecDeque<Vec<u8>>,
}

impl Model for Pieces {
    ghost use Rattle.std.specs.Prelude.{◌≤◌, ◌∷◌, List, ℕ, drop, map, vec_len};
    ghost use Rattle.outside_links.specs.MemLink.{items_of, pass_empty};

    ghost Value = { List (List ℕ) };

    ghost view = { λ p. pass_empty (drop p.at p.piece.items ∷ map items_of p.later.items) };

    ghost invariant = { λ p. p.at ≤ vec_len p.piece };
}

/// Goes on to the next piece that has bytes, where there is one.
fn pass_over(piece: &mut Vec<u8>, at: &mut usize, later: &mut VecDeque<Vec<u8>>)
    requires { at.old ≤ vec_len piece.old }
    ensures same { pass_empty (drop at.new piece.new.items ∷ map items_of later.new.items)
        ≡ pass_empty (drop at.old piece.old.items ∷ map items_of later.old.items) }
    ensures within { at.new ≤ vec_len piece.new }
    ensures first { (at.new < length piece.new.items) ⊎ (later.new.items ≡ []) }
{
    while *at == piece.len() {
        let Some(next) = later.pop_front() else {
            return;
        };
        *piece = next;
        *at = 0;
    }
}

/// Lays the first of these bytes at the front of the room, as many as fit, and says how many.
fn copy_front(bytes: &[u8], into: &mut [u8]) -> usize
    ensures count { result ≡ min (length into.old) (length bytes.now) }
    ensures laid { take result into.new ≡ take (length into.old) bytes.now }
{
    let count = into.len().min(bytes.len());
    let (next, _) = bytes.split_at(count);
    let (room, _) = into.split_at_mut(count);
    room.copy_from_slice(next);
    count
}

impl Pieces {
    /// All of these pieces.
    pub(crate) fn new(alloc: Global, pieces: Vec<Vec<u8>>) -> Pieces
        ensures { result ≡ pass_empty (map items_of pieces.items) }
    {
        Pieces {
            piece: Vec::new(alloc),
            at: 0,
            later: VecDeque::from_vec(pieces),
        }
    }

    /// Lays the next bytes at the front of the room: those of one piece, as many as fit.
    pub(crate) fn lay(&mut self, into: &mut [u8]) -> usize
        ensures within { result ≤ length into.new }
        ensures laid { take result into.new ≡ next_bytes self.old (length into.old) }
        ensures count { result ≡ length (next_bytes self.old (length into.old)) }
        ensures left { self.new ≡ left_behind self.old (length into.old) }
        ensures taken { bytes_of self.old ≡ take result into.new ++ bytes_of self.new }
        ensures end { 0 < length into.old → result ≡ 0 → bytes_of self.old ≡ [] }
    {
        pass_over(&mut self.piece, &mut self.at, &mut self.later);
        let (_, left) = self.piece.as_slice().split_at(self.at);
        let count = copy_front(left, into);
        self.at += count;
        count
    }
}
