//! What the conditions of a play come to.
ghost use Rattle.std.specs.Prelude.{◌≡◌, IfOk};
ghost use Rattle.asm_eval.specs.World.{world_in};
ghost use Rattle.asm_node.specs.Model.{machine_of};
ghost use Rattle.asm_node.specs.Term.{nowhere, val};
ghost use Rattle.asm_node.specs.Tree.{plain};
ghost use Rattle.asm_node.specs.Values.{is_true};
ghost use Rattle.asm_node.specs.WellFormed.{IsCondition};
ghost use Rattle.avalla_play.specs.Standing.{IsReady, said, truth_of, verdict_of};

use crate::context::Context;
use crate::stage::Stage;
use asm_domain::Value;
use asm_eval::{EvalError, eval};
use asm_node::{Env, Term};
use std::alloc::AllocError;
use std::rc::Rc;

/// What a condition comes to.
#[derive(Clone, Copy, Debug, PartialEq, Eq)]
pub enum Verdict {
    /// It is true.
    Met,
    /// It is false or `undef`.
    Unmet,
    /// It needs the input's value for this slot, and there is none.
    Lacks(u32),
}

/// What a condition comes to where a play stands. It reads monitored functions from the pending input and all others from the
/// state.
pub fn judge(
    context: &Context<'_>,
    stage: &Stage<'_>,
    condition: &Rc<Term>,
) -> Result<Verdict, AllocError>
    requires ready { IsReady (machine_of context.now.model.now) stage.now }
    requires condition { IsCondition (machine_of context.now.model.now) (plain condition.now.value) }
    ensures { IfOk result (λ verdict. truth_of (val (world_in (machine_of context.now.model.now) stage.now.session.state stage.now.input) nowhere (plain condition.now.value)) ≡ said verdict) }
{
    let alloc = context.alloc;
    let env = Env::new(alloc);
    match eval(
        alloc,
        context.model,
        stage.session.state(),
        &stage.input,
        &env,
        condition,
    ) {
        Ok(value) => Ok(decide(value)),
        Err(EvalError::Need(slot)) => Ok(Verdict::Lacks(slot)),
        Err(EvalError::Memory) => Err(AllocError),
    }
}

/// What a condition with this value comes to.
fn decide(value: Value) -> Verdict
    ensures { result ≡ verdict_of (is_true value) }
{
    match value {
        Value::Bool(true) => Verdict::Met,
        _ => Verdict::Unmet,
    }
}
