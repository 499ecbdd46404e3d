//! Where a play stands.
ghost use Rattle.std.specs.Prelude.{◌≡◌, ◌+◌, IfOk};
ghost use Rattle.std.specs.FinMap.{insert};
ghost use Rattle.asm_node.specs.Model.{machine_of};
ghost use Rattle.avalla_play.specs.Moves.{kept};

use crate::context::Context;
use asm_domain::Value;
use asm_node::Input;
use asm_run::Session;
use std::alloc::AllocError;

/// Where a play stands. The choice words that are left stand beside it.
#[derive(Drop)]
pub struct Stage<'m> {
    /// The present state.
    pub session: Session<'m>,
    /// The pending input.
    pub input: Input,
    /// The number of the present state.
    pub number: u64,
    /// How many checks have passed.
    pub checks: u32,
}

/// Gives a slot a value in the pending input, in place of an earlier one.
pub fn set_value(stage: &mut Stage<'_>, slot: u32, value: Value) -> Result<(), AllocError>
    ensures { IfOk result (λ _. stage.new ≡ record stage.old { input = insert stage.old.input slot value }) }
{
    stage.input.set(slot, value)?;
    Ok(())
}

/// Counts the state to which a step has led, and drops the shared values from the input. A number that doesn't fit counts as
/// want of memory.
pub fn settle(context: &Context<'_>, stage: &mut Stage<'_>) -> Result<(), AllocError>
    ensures { IfOk result (λ _. stage.new ≡ record stage.old { input = kept (machine_of context.now.model.now).signature stage.old.input; number = stage.old.number + 1 }) }
{
    if stage.number == u64::MAX {
        return Err(AllocError);
    }
    stage.number += 1;
    stage.input.drop_shared(context.model.signature());
    Ok(())
}
