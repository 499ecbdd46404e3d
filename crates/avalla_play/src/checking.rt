//! Checks of a play.
ghost use Rattle.std.specs.Prelude.{◌≡◌, ◌≤◌, ◌<◌, ◌+◌, ◌++◌, All, IfOk, List, ℕ, codes, length};
ghost use Rattle.asm_io.specs.Writes.{Writes};
ghost use Rattle.asm_node.specs.Model.{machine_of};
ghost use Rattle.asm_node.specs.Tree.{plain};
ghost use Rattle.asm_node.specs.WellFormed.{IsCondition};
ghost use Rattle.asm_run.specs.declared.error.OutError.TheVariants.{Write};
ghost use Rattle.asm_text.specs.Texts.{AreShort, line};
ghost use Rattle.avalla_command.specs.Acts.{Checks};
ghost use Rattle.avalla_play.specs.Moves.{acted, check_line};
ghost use Rattle.avalla_play.specs.Standing.{IsReady, Lands, point_of};

use crate::context::Context;
use crate::judging::{Verdict, judge};
use crate::lines::{failed_lines, passed_line};
use crate::playing::Played;
use crate::stage::Stage;
use crate::telling::stop_by;
use asm_io::{Sink, write_text};
use asm_node::{Stop, Term};
use asm_run::OutError;
use std::alloc::Global;
use std::rc::Rc;

/// Checks a condition. One that isn't true ends the play, and one that needs an input that isn't set stops it.
pub fn check<K: Sink>(
    context: &Context<'_>,
    stage: &mut Stage<'_>,
    condition: &Rc<Term>,
    sink: &mut K,
) -> Result<Option<Played>, OutError>
    requires ready { IsReady (machine_of context.now.model.now) stage.old }
    requires condition { IsCondition (machine_of context.now.model.now) (plain condition.now.value) }
    requires few { stage.old.checks < 100000 }
    requires short { AreShort context.now.sources.now }
    ensures writes { (words : List ℕ) → Writes K.written K.faults sink.old sink.new (acted (machine_of context.now.model.now) context.now.sources.now context.now.budget (Checks (plain condition.now.value)) (point_of stage.old words)).text Write result }
    ensures lands { IfOk result (λ end. (words : List ℕ) → Lands end (machine_of context.now.model.now) stage.new words (acted (machine_of context.now.model.now) context.now.sources.now context.now.budget (Checks (plain condition.now.value)) (point_of stage.old words)).to) }
    ensures checks { IfOk result (λ _. stage.new.checks ≤ stage.old.checks + 1) }
{
    match judge(context, stage, condition)? {
        Verdict::Met => {
            pass(context.alloc, stage, sink)?;
            Ok(None)
        }
        Verdict::Unmet => {
            let number = stage.checks + 1;
            fail(context.alloc, number, sink)?;
            Ok(Some(Played::CheckFailed(number)))
        }
        Verdict::Lacks(slot) => stop_by(context, Stop::Input(slot), sink),
    }
}

/// Counts a check that has passed, and prints its line.
fn pass<K: Sink>(alloc: Global, stage: &mut Stage<'_>, sink: &mut K) -> Result<(), OutError>
    requires { stage.old.checks < 100000 }
    ensures writes { Writes K.written K.faults sink.old sink.new (check_line (stage.old.checks + 1) (codes " passed")) Write result }
    ensures counts { IfOk result (λ _. stage.new ≡ record stage.old { checks = stage.old.checks + 1 }) }
{
    stage.checks += 1;
    let text = passed_line(alloc, stage.checks)?;
    write_text(sink, text.slice())?;
    Ok(())
}

/// Prints the lines of a check that has failed.
fn fail<K: Sink>(alloc: Global, number: u32, sink: &mut K) -> Result<(), OutError>
    ensures { Writes K.written K.faults sink.old sink.new (check_line number (codes " failed") ++ line (codes "failed")) Write result }
{
    let text = failed_lines(alloc, number)?;
    write_text(sink, text.slice())?;
    Ok(())
}
