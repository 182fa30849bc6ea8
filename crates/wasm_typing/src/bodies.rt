//! Bodies: one pass over the operators, with a stack of operand types and one of open blocks (WebAssembly Core 1.0, section 3.4.1 and appendix A.3).
ghost use Rattle.std.specs.Prelude.{◌≡◌, ◌<◌, ◌^◌, ◌++◌, length, IfOk};
ghost use Rattle.wasm_ops.specs.WellFormed.{IsWellFormedBody};
ghost use Rattle.wasm_typing.specs.Outcome.{Follows};
ghost use Rattle.wasm_typing.specs.Scopes.{context};
ghost use Rattle.wasm_typing.specs.Steps.{steps as steps_walk, begun, measured, body_measured};

use crate::faults::BodyFault;
use crate::indexes::Indexed;
use crate::measures::Measure;
use crate::scopes::Scope;
use crate::stages::Stage;
use crate::walker::Walker;
use std::alloc::{AllocError, Global};
use wasm_ops::{Body, FuncType, Op, ValType};

impl Walker {
    /// The greatest height and depth so far.
    fn measure(&self) -> Measure
        ensures height { result.height ≡ self.now.now.most }
        ensures nest { result.nest ≡ self.now.blocks.deepest }
    {
        Measure {
            height: self.most,
            nest: self.deepest,
        }
    }
}

// The operators, up to the end of the body.
fn walk(alloc: Global, scope: &Scope<'_>, ops: &[Op]) -> Result<Measure, BodyFault>
    requires few { length ops.now < 2 ^ 32 }
    ensures { Follows (λ measure. measure) result (measured (steps_walk (context scope.now) ops.now begun)) }
{
    let mut walker = Walker::new(alloc);
    for op in ops {
        match walker.step(scope, *op)? {
            Stage::Inside => {}
            Stage::Over => return Ok(walker.measure()),
        }
    }
    Ok(walker.measure())
}

fn locals_of(
    alloc: Global,
    params: &[ValType],
    locals: &[ValType],
) -> Result<Vec<ValType>, AllocError>
    ensures { IfOk result (λ all. all.items ≡ params.now ++ locals.now) }
{
    let mut all = Vec::from_slice(alloc, params)?;
    all.extend_from_slice(locals)?;
    Ok(all)
}

/// The greatest height and depth of the body of a function of this type, or the first rule that it breaks.
pub fn type_body(
    alloc: Global,
    whole: &Indexed,
    function: &FuncType,
    body: &Body,
) -> Result<Measure, BodyFault>
    requires formed { IsWellFormedBody body.now }
    ensures { Follows (λ measure. measure) result (body_measured whole.now function.now body.now) }
{
    let locals = locals_of(alloc, function.params.as_slice(), body.locals.as_slice())?;
    let scope = Scope {
        whole,
        locals: locals.as_slice(),
        targets: body.targets.as_slice(),
        result: function.result,
    };
    walk(alloc, &scope, body.ops.as_slice())
}
