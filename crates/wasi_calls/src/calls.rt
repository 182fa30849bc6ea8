//! A call of a function of the host, by its name.
ghost use Rattle.std.specs.Prelude.{◌≡◌, ℕ, ◌+◌, ◌^◌, ◌<◌, ◌≤◌, ◌∷◌, length, drop};
ghost use Rattle.wasi_calls.specs.declared.calls.HostStep.TheVariants as HostStep;
ghost use Rattle.wasi_calls.specs.Answers.{HostAnswers};
ghost use Rattle.wasm_states.specs.HostCalls.{CanCall, effect_of, arguments_of, cells_taken};

use crate::reads::read_body;
use crate::streams::Streams;
use crate::transfers::{Done, StreamCall};
use crate::writes::write_reply;
use wasm_ops::{HostCall, HostName};
use wasm_store::Vessel;

/// What a call of the host came to.
#[derive(Clone, Copy)]
pub enum HostStep {
    /// It came back with its error number, 0 where it succeeded, at this price in units.
    Went(u64),

    /// It ended the program.
    Exited {
        /// The exit code.
        code: u32,
        /// The price in units.
        price: u64,
    },

    /// Its price is more than what is left.
    Short,
}

/// Makes a call of the host that a vessel asks for, with so many units left.
///
/// The operands of the vessel are the call's arguments, the last one on top, and, where the call went through the table, the index there on them. A call that comes back takes them off, lays the error number and goes past the call, whether it succeeded or not; an error has no other effect. It is made whole or, where its price is more than what is left, not at all.
///
/// It is asked that the place behind the call is below 2^32, so that the code can go there: `step` gives this with each call, since no body is so long.
pub fn host(call: HostCall, vessel: &mut Vessel, streams: &mut Streams, left: u64) -> HostStep
    requires can { CanCall call vessel.old }
    ensures answers { HostAnswers call left (effect_of call vessel.old streams.old) vessel.old vessel.new streams.old streams.new result }
{
    match call.name {
        HostName::FdRead => {
            match read_body(StreamCall::with_arguments(call.args), vessel, streams, left) {
                Some(done) => come_back(call, vessel, done),
                None => HostStep::Short,
            }
        }
        HostName::FdWrite => {
            match write_reply(StreamCall::with_arguments(call.args), vessel, streams, left) {
                Some(done) => come_back(call, vessel, done),
                None => HostStep::Short,
            }
        }
        HostName::ProcExit => {
            if left < 1 {
                return HostStep::Short;
            }
            let [code, _, _, _] = call.args;
            HostStep::Exited { code, price: 1 }
        }
    }
}

// Takes the operands off, lays the error number and goes past the call.
fn come_back(call: HostCall, vessel: &mut Vessel, done: Done) -> HostStep
    requires place { vessel.old.place + 1 < 2 ^ 32 }
    requires some { 0 < arguments_of call }
    requires cells { cells_taken call ≤ length vessel.old.cells }
    ensures result { result ≡ HostStep.Went done.price }
    ensures vessel { vessel.new ≡ record vessel.old { cells = done.errno ∷ drop (cells_taken call) vessel.old.cells; place = vessel.old.place + 1 } }
{
    let taken = operands_taken(call);
    let height = vessel.height() - taken;
    vessel.cut(false, height);
    vessel.push(u64::from(done.errno));
    vessel.go_to(vessel.place() + 1);
    HostStep::Went(done.price)
}

// How many operands a call takes.
fn operands_taken(call: HostCall) -> u32
    ensures { result ≡ cells_taken call }
{
    argument_count(call) + u32::from(call.indirect)
}

fn argument_count(call: HostCall) -> u32
    ensures { result ≡ arguments_of call }
{
    match call.name {
        HostName::FdRead | HostName::FdWrite => 4,
        HostName::ProcExit => 1,
    }
}
