//! The bodies of a module, in order (WebAssembly Core 1.0, section 3.4.1).
ghost use Rattle.std.specs.Prelude.{◌≡◌, Some, IfOk, length};
ghost use Rattle.wasm_meaning.specs.Validity.{body_walk as body_due, bodies_walk as bodies_due, height_in, nest_in};
ghost use Rattle.wasm_meaning.specs.ValidityRules.{rule_number};
ghost use Rattle.wasm_meaning.specs.ValiditySpaces.{body_type};
ghost use Rattle.wasm_ops.specs.WellFormed.{IsWellFormed, IsWellFormedBody};
ghost use Rattle.wasm_validate.specs.Measured.{AreMeasured};
ghost use Rattle.wasm_validate.specs.Outcome.{Gives};

use crate::faults::ValidFault;
use std::alloc::Global;
use wasm_meaning::{Broken, Rule};
use wasm_ops::Body;
use wasm_typing::{BodyFault, Indexed, Measure, type_body};

// That a body breaks a rule at an operator.
fn in_body(number: u32, rule: Rule, item: u32) -> Broken
    ensures number { result.number ≡ rule_number rule }
    ensures function { result.function ≡ Some number }
    ensures item { result.item ≡ item }
{
    Broken {
        number: rule.number(),
        function: Some(number),
        item,
    }
}

fn body_walk(
    alloc: Global,
    whole: &Indexed,
    number: u32,
    body: &Body,
) -> Result<Measure, ValidFault>
    requires formed { IsWellFormedBody body.now }
    ensures walked { Gives (λ measure. tt) result (body_due whole.now number body.now) }
    ensures height { IfOk result (λ measure. measure.height ≡ height_in whole.now (body_type whole.now number) (Some body.now)) }
    ensures nest { IfOk result (λ measure. measure.nest ≡ nest_in (Some body.now)) }
{
    let Some(function) = whole.body_type(number) else {
        return Err(ValidFault::Rule(in_body(number, Rule::UnknownIndex, 0)));
    };
    match type_body(alloc, whole, function, body) {
        Ok(measure) => Ok(measure),
        Err(BodyFault::Breaks(violation)) => Err(ValidFault::Rule(in_body(
            number,
            violation.rule,
            violation.place,
        ))),
        Err(BodyFault::NoMemory) => Err(ValidFault::NoMemory),
    }
}

/// How much room each body needs, or the first that breaks a rule.
#[tactic(auto, unfolding(wasm_meaning::specs::Validity::bodies_walk))]
pub(crate) fn bodies_walk(alloc: Global, whole: &Indexed) -> Result<Vec<Measure>, ValidFault>
    requires formed { IsWellFormed whole.now }
    ensures walked { Gives (λ measures. tt) result (bodies_due whole.now) }
    ensures measured { IfOk result (λ measures. AreMeasured whole.now (length whole.now.bodies) measures.items) }
{
    let mut measures = Vec::new(alloc);
    let mut number = 0;
    for body in whole.module().bodies.as_slice() {
        measures.push(body_walk(alloc, whole, number, body)?)?;
        number += 1;
    }
    Ok(measures)
}
