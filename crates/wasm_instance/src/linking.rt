//! Linking.
ghost use Rattle.std.specs.Prelude.{◌≡◌, None, Some};
ghost use Rattle.wasm_meaning.specs.Linking.{link_refusal as refusal_due};
ghost use Rattle.wasm_meaning.specs.Programs.{link as link_due};
ghost use Rattle.wasm_meaning.specs.declared.links.Unlinked.{Unlinked as UnlinkedValue};
ghost use Rattle.wasm_instance.specs.Outcome.{Links, IsAnswered, TellsRefusal};

use crate::faults::LinkFault;
use crate::programs::Program;
use crate::refusals::link_refusal;
use crate::tables::{hosts_of, shapes_of};
use std::alloc::Global;
use wasm_validate::Valid;

/// The program of a valid module that is given so many pages of 64 KiB, if it is linked to the host (WebAssembly Core 1.0, section 4.5.4, and WASI preview1).
///
/// What refuses it is looked for in this order, and the first is answered: the imports, each of which is one of the host's functions and of its type; an export named `_start`, which is a function of no parameters and no result; the memory's first pages, which are no more than `pages`; the element segments, each within the first table; and the data segments, each within the first memory.
pub fn link(alloc: Global, valid: Valid, pages: u32) -> Result<Program, LinkFault>
    ensures linked { Links result (link_due valid pages) }

    // No other answer is possible, but for want of memory.
    ensures only { refusal_due valid pages ≡ None → IsAnswered result }
    ensures only_refused { (why : UnlinkedValue) → refusal_due valid pages ≡ Some why → TellsRefusal result why }
{
    if let Some(why) = link_refusal(&valid, pages) {
        return Err(LinkFault::Refused(why));
    }
    let hosts = hosts_of(alloc, valid.module())?;
    let shapes = shapes_of(alloc, &valid)?;
    Ok(Program::linked(valid, pages, hosts, shapes))
}
