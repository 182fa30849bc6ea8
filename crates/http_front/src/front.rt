//! Requests out of the pieces of a connection's bytes.
ghost use Rattle.std.specs.Prelude.{◌≡◌, ◌⊎◌, ◌+◌, ◌<◌, ◌≤◌, None, [], ◌∷◌, ◌++◌, length, map, true, false, IfOk, OnOk, OnErr, IsErr};
ghost use Rattle.http_items.specs.Ends.{IsEnding};
ghost use Rattle.http_items.specs.Heads.{head_in};
ghost use Rattle.http_items.specs.Items.{Faulty, are_pairs};
ghost use Rattle.http_items.specs.Standings as standings;
ghost use Rattle.http_items.specs.Standings.{Goes, Opens, Waits, items_from};
ghost use Rattle.http_front.specs.Views.{heard_of, due_seen, opening_seen, standing_of, given};

use crate::headings::{Due, Opening};
use crate::heads::{MOST_HEAD, Search, find_head};
use crate::items::Item;
use crate::states::{Body, Held, State};
use http_items::Refusal;
use std::alloc::{AllocError, Global};
use std::marker::Model;
use std::mem;

/// The side of a connection that its bytes come in at (RFC 9112 sections 2.2, 6 and 9.3).
///
/// Contracts see it as where the connection stands between two pieces.
#[derive(Drop)]
pub struct Front {
    alloc: Global,
    state: State,
}

impl Model for Front {
    ghost use Rattle.http_items.specs.Standings.{Standing};
    ghost use Rattle.http_front.specs.Views.{standing_of};

    ghost Value = { Standing };

    ghost view = { λ front. standing_of front.state };
}

/// What came of some bytes: an item at most, the state behind it, and the bytes that are left.
#[derive(Drop)]
struct Step<'a> {
    item: Option<Item>,
    state: State,
    rest: &'a [u8],
}

/// The state behind an item.
fn behind_item(alloc: Global, keep: bool) -> State
    ensures { standing_of result ≡ standings.behind_item keep }
{
    if keep {
        State::Reading(Held {
            bytes: Vec::new(alloc),
        })
    } else {
        State::Over
    }
}

/// Takes bytes of a body. The room grows with what comes, never by what the head announces alone.
fn gather<'a>(
    alloc: Global,
    due: Due,
    size: usize,
    mut got: Vec<u8>,
    rest: &'a [u8],
) -> Result<Step<'a>, AllocError>
    requires { length got.items ≤ size }
    ensures goes { IfOk result (λ step. Goes (standings.Gathering (due_seen due) size got.items) rest.now
        (given step.item) (standing_of step.state) step.rest.now) }
    ensures taken { IfOk result (λ step. length step.rest.now ≤ length rest.now) }
    ensures some { length got.items < size → 0 < length rest.now
        → IfOk result (λ step. length step.rest.now < length rest.now) }
{
    let wanted = size - got.len();
    if rest.len() < wanted {
        got.extend_from_slice(rest)?;
        return Ok(Step {
            item: None,
            state: State::Gathering(Body { due, size, got }),
            rest: &[],
        });
    }
    let (last, behind) = rest.split_at(wanted);
    got.extend_from_slice(last)?;
    let keep = due.keeps();
    Ok(Step {
        item: Some(due.with_body(got)),
        state: behind_item(alloc, keep),
        rest: behind,
    })
}

/// Takes what a head opens, and the bytes behind it.
fn open(alloc: Global, opening: Opening, behind: &[u8]) -> Result<Step<'_>, AllocError>
    ensures goes { IfOk result (λ step. Opens (opening_seen opening) behind.now (given step.item) (standing_of step.state) step.rest.now) }
    ensures taken { IfOk result (λ step. length step.rest.now ≤ length behind.now) }
{
    match opening {
        Opening::Refused { refusal, head } => Ok(Step {
            item: Some(Item::Fault {
                number: refusal.number(),
                head,
                keep: false,
            }),
            state: State::Over,
            rest: &[],
        }),
        Opening::Awaits { due, size } => gather(alloc, due, size, Vec::new(alloc), behind),
    }
}

/// The refusal of bytes that begin with no head.
fn no_head() -> Item
    ensures { heard_of result ≡ Faulty 1 false false }
{
    Item::Fault {
        number: Refusal::BadHead.number(),
        head: false,
        keep: false,
    }
}

/// The step that bytes without a head make: more of them may come, or they are too many.
fn wait<'a>(bytes: Vec<u8>) -> Step<'a>
    requires { head_in bytes.items ≡ None }
    ensures { Waits bytes.items (given result.item) (standing_of result.state) result.rest.now }
{
    if bytes.len() < MOST_HEAD {
        Step {
            item: None,
            state: State::Reading(Held { bytes }),
            rest: &[],
        }
    } else {
        Step {
            item: Some(no_head()),
            state: State::Over,
            rest: &[],
        }
    }
}

/// The lesser of two numbers.
fn lesser(a: usize, b: usize) -> usize
    ensures first { result ≤ a }
    ensures second { result ≤ b }
    ensures one { (result ≡ a) ⊎ (result ≡ b) }
{
    if a < b { a } else { b }
}

/// Takes bytes of a head.
fn read(alloc: Global, held: Held, rest: &[u8]) -> Result<Step<'_>, AllocError>
    requires { 0 < length rest.now }
    ensures goes { IfOk result (λ step. Goes (standings.Reading held.bytes.items) rest.now
        (given step.item) (standing_of step.state) step.rest.now) }
    ensures taken { IfOk result (λ step. length step.rest.now < length rest.now) }
{
    let before = held.bytes.len();
    let parts = rest.split_at(lesser(rest.len(), MOST_HEAD - before));
    let search = find_head(alloc, held.bytes, parts.0)?;
    match search {
        Search::Found(opening, length) => {
            let split = rest.split_at(length - before);
            let step = open(alloc, opening, split.1)?;
            Ok(step)
        }
        Search::Missing(bytes) => Ok(wait(bytes)),
    }
}

/// Takes bytes, up to the end of an item at most.
fn take_some(alloc: Global, state: State, rest: &[u8]) -> Result<Step<'_>, AllocError>
    requires { 0 < length rest.now }
    ensures goes { IfOk result (λ step. Goes (standing_of state) rest.now (given step.item) (standing_of step.state) step.rest.now) }
    ensures taken { IfOk result (λ step. length step.rest.now < length rest.now) }
    ensures failed { standing_of state ≡ standings.Failed → IsErr result }
{
    match state {
        State::Reading(held) => read(alloc, held, rest),
        State::Gathering(body) => {
            let Body { due, size, got } = body;
            gather(alloc, due, size, got, rest)
        }
        State::Over => Ok(Step {
            item: None,
            state: State::Over,
            rest: &[],
        }),
        State::Failed => Err(AllocError),
    }
}

/// Appends an item, if there is one.
fn push_some(items: &mut Vec<Item>, item: Option<Item>) -> Result<(), AllocError>
    ensures { OnOk result (map heard_of items.new.items ≡ map heard_of items.old.items ++ given item) }
{
    if let Some(item) = item {
        items.push(item)?;
    }
    Ok(())
}

/// Takes all bytes.
fn take_all(alloc: Global, state: State, piece: &[u8]) -> Result<(Vec<Item>, State), AllocError>
    ensures { IfOk result (λ r. Goes (standing_of state) piece.now (map heard_of r.0.items) (standing_of r.1) []) }
{
    let mut items = Vec::new(alloc);
    let mut state = state;
    let mut rest = piece;
    while !rest.is_empty() {
        let Step {
            item,
            state: next,
            rest: left,
        } = take_some(alloc, state, rest)?;
        push_some(&mut items, item)?;
        state = next;
        rest = left;
    }
    Ok((items, state))
}

/// Takes a piece, unless memory was wanting before.
fn advance(alloc: Global, state: State, piece: &[u8]) -> Result<(Vec<Item>, State), AllocError>
    ensures given { IfOk result (λ r. map heard_of r.0.items ≡ items_from (standing_of state) piece.now false) }
    ensures goes { IfOk result (λ r. Goes (standing_of state) piece.now (map heard_of r.0.items) (standing_of r.1) []) }
    ensures failed { standing_of state ≡ standings.Failed → IsErr result }
{
    if let State::Failed = state {
        return Err(AllocError);
    }
    let done = take_all(alloc, state, piece)?;
    Ok(done)
}

/// The bytes are pairs of a carriage return and a line feed.
fn are_pairs(bytes: &[u8]) -> bool
    ensures { result ≡ are_pairs bytes.now }
{
    let mut rest = bytes;
    while let [b'\r', b'\n', others @ ..] = rest {
        rest = others;
    }
    rest.is_empty()
}

/// The item alone.
fn alone(alloc: Global, item: Item) -> Result<Vec<Item>, AllocError>
    ensures { IfOk result (λ items. map heard_of items.items ≡ heard_of item ∷ []) }
{
    let mut items = Vec::new(alloc);
    items.push(item)?;
    Ok(items)
}

/// What the end of the stream gives behind bytes without a head.
fn ended_head(alloc: Global, held: Held) -> Result<Vec<Item>, AllocError>
    ensures { IfOk result (λ items. map heard_of items.items
        ≡ items_from (standings.Reading held.bytes.items) [] true) }
{
    if are_pairs(held.bytes.as_slice()) {
        Ok(Vec::new(alloc))
    } else {
        Ok(alone(alloc, no_head())?)
    }
}

/// What it gives behind a part of a body.
fn ended_body(alloc: Global, body: Body) -> Result<Vec<Item>, AllocError>
    ensures { IfOk result (λ items. map heard_of items.items
        ≡ items_from (standings.Gathering (due_seen body.due) body.size body.got.items) [] true) }
{
    let fault = Item::Fault {
        number: Refusal::CutBody.number(),
        head: body.due.to_head(),
        keep: false,
    };
    Ok(alone(alloc, fault)?)
}

/// The items that the end of the stream gives.
fn ended(alloc: Global, state: State) -> Result<Vec<Item>, AllocError>
    ensures given { IfOk result (λ items. map heard_of items.items ≡ items_from (standing_of state) [] true) }
    ensures ending { IfOk result (λ items. IsEnding (map heard_of items.items)) }
    ensures failed { standing_of state ≡ standings.Failed → IsErr result }
{
    match state {
        State::Reading(held) => ended_head(alloc, held),
        State::Gathering(body) => ended_body(alloc, body),
        State::Over => Ok(Vec::new(alloc)),
        State::Failed => Err(AllocError),
    }
}

impl Front {
    /// The front of a connection of which nothing has come yet.
    pub fn new(alloc: Global) -> Front
        ensures { result ≡ standings.Reading [] }
    {
        Front {
            alloc,
            state: behind_item(alloc, true),
        }
    }

    /// Takes the next piece of the connection's bytes, and answers the items that it completes, in
    /// their order. Where the stream is cut into pieces makes no difference.
    ///
    /// The only error is want of memory. Every later call answers it too.
    pub fn feed(&mut self, piece: &[u8]) -> Result<Vec<Item>, AllocError>
        ensures given { IfOk result (λ items. map heard_of items.items ≡ items_from self.old piece.now false) }
        ensures goes { IfOk result (λ items. Goes self.old piece.now (map heard_of items.items) self.new []) }
        ensures failed { OnErr result (self.new ≡ standings.Failed) }
        ensures again { self.old ≡ standings.Failed → IsErr result }
    {
        let state = mem::replace(&mut self.state, State::Failed);
        let done = advance(self.alloc, state, piece)?;
        self.state = done.1;
        Ok(done.0)
    }

    /// Takes the end of the stream, and answers the items that it gives: at most one, which is a
    /// refusal of the head or of the body that it cuts (RFC 9112 section 8), and closes the connection.
    ///
    /// The only error is want of memory, now or in an earlier call.
    pub fn finish(self) -> Result<Vec<Item>, AllocError>
        ensures given { IfOk result (λ items. map heard_of items.items ≡ items_from self [] true) }
        ensures ending { IfOk result (λ items. IsEnding (map heard_of items.items)) }
        ensures again { self ≡ standings.Failed → IsErr result }
    {
        let Front { alloc, state } = self;
        ended(alloc, state)
    }
}
