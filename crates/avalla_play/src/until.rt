//! Steps up to a state in which a condition is true.
ghost use Rattle.std.specs.Prelude.{◌≡◌, ◌≤◌, All, IfOk, List, ℕ, length};
ghost use Rattle.asm_io.specs.Writes.{Writes};
ghost use Rattle.asm_node.specs.Model.{machine_of};
ghost use Rattle.asm_node.specs.Tree.{plain};
ghost use Rattle.asm_node.specs.WellFormed.{IsCondition};
ghost use Rattle.asm_node.specs.Words.{left};
ghost use Rattle.asm_run.specs.declared.error.OutError.TheVariants.{Write};
ghost use Rattle.asm_text.specs.Texts.{AreShort};
ghost use Rattle.avalla_play.specs.Moves.{spent_line, steps_until};
ghost use Rattle.avalla_play.specs.Standing.{IsReady, Lands, Turns, point_of, turn_of};

use crate::context::Context;
use crate::judging::{Verdict, judge};
use crate::lines::budget_line;
use crate::playing::Played;
use crate::stage::Stage;
use crate::stepping::make_step;
use crate::telling::stop_by;
use asm_io::{Sink, write_text};
use asm_node::{Stop, Term, Words};
use asm_run::OutError;
use std::rc::Rc;

/// Tests a condition, and takes a step and tests again while it isn't true, at most as often as the budget allows.
pub fn step_until<K: Sink>(
    context: &Context<'_>,
    stage: &mut Stage<'_>,
    condition: &Rc<Term>,
    words: &mut Words,
    sink: &mut K,
) -> Result<Option<Played>, OutError>
    requires ready { IsReady (machine_of context.now.model.now) stage.old }
    requires condition { IsCondition (machine_of context.now.model.now) (plain condition.now.value) }
    requires short { AreShort context.now.sources.now }
    ensures writes { Writes K.written K.faults sink.old sink.new (steps_until (machine_of context.now.model.now) context.now.sources.now context.now.budget (plain condition.now.value) context.now.budget (point_of stage.old (left words.old))).text Write result }
    ensures lands { IfOk result (λ end. Lands end (machine_of context.now.model.now) stage.new (left words.new) (steps_until (machine_of context.now.model.now) context.now.sources.now context.now.budget (plain condition.now.value) context.now.budget (point_of stage.old (left words.old))).to) }
    ensures checks { IfOk result (λ _. stage.new.checks ≡ stage.old.checks) }
    ensures same_words { words.new.0 ≡ words.old.0 }
{
    let budget = context.budget;
    'turns: for _ in 0..budget {
        if let Some(end) = take_turn(context, stage, condition, words, sink)? {
            return Ok(end);
        }
    }
    test_last(context, stage, condition, sink)
}

/// Tests a condition, and takes a step where it isn't true. It answers nothing where the play goes on from there, and else how
/// the steps end: the play with them, or not.
fn take_turn<K: Sink>(
    context: &Context<'_>,
    stage: &mut Stage<'_>,
    condition: &Rc<Term>,
    words: &mut Words,
    sink: &mut K,
) -> Result<Option<Option<Played>>, OutError>
    requires ready { IsReady (machine_of context.now.model.now) stage.old }
    requires condition { IsCondition (machine_of context.now.model.now) (plain condition.now.value) }
    requires short { AreShort context.now.sources.now }
    ensures writes { Writes K.written K.faults sink.old sink.new (turn_of (machine_of context.now.model.now) context.now.sources.now (plain condition.now.value) (point_of stage.old (left words.old))).text Write result }
    ensures turns { IfOk result (λ answer. Turns answer (machine_of context.now.model.now) stage.new (left words.new) context.now.sources.now (plain condition.now.value) (point_of stage.old (left words.old))) }
    ensures checks { IfOk result (λ _. stage.new.checks ≡ stage.old.checks) }
    ensures same_words { words.new.0 ≡ words.old.0 }
{
    match judge(context, stage, condition)? {
        Verdict::Met => Ok(Some(None)),
        Verdict::Unmet => match make_step(context, stage, None, words, sink)? {
            Some(end) => Ok(Some(Some(end))),
            None => Ok(None),
        },
        Verdict::Lacks(slot) => Ok(Some(stop_by(context, Stop::Input(slot), sink)?)),
    }
}

/// Tests a condition after the last step that the budget allows. The play ends where it isn't true.
fn test_last<K: Sink>(
    context: &Context<'_>,
    stage: &Stage<'_>,
    condition: &Rc<Term>,
    sink: &mut K,
) -> Result<Option<Played>, OutError>
    requires ready { IsReady (machine_of context.now.model.now) stage.now }
    requires condition { IsCondition (machine_of context.now.model.now) (plain condition.now.value) }
    requires short { AreShort context.now.sources.now }
    ensures writes { (words : List ℕ) → Writes K.written K.faults sink.old sink.new (steps_until (machine_of context.now.model.now) context.now.sources.now context.now.budget (plain condition.now.value) 0 (point_of stage.now words)).text Write result }
    ensures lands { IfOk result (λ end. (words : List ℕ) → Lands end (machine_of context.now.model.now) stage.now words (steps_until (machine_of context.now.model.now) context.now.sources.now context.now.budget (plain condition.now.value) 0 (point_of stage.now words)).to) }
{
    match judge(context, stage, condition)? {
        Verdict::Met => Ok(None),
        Verdict::Unmet => {
            tell_budget(context, sink)?;
            Ok(Some(Played::Budget))
        }
        Verdict::Lacks(slot) => stop_by(context, Stop::Input(slot), sink),
    }
}

/// Prints that all steps were taken that the budget allows.
fn tell_budget<K: Sink>(context: &Context<'_>, sink: &mut K) -> Result<(), OutError>
    ensures { Writes K.written K.faults sink.old sink.new (spent_line context.now.budget) Write result }
{
    let text = budget_line(context.alloc, context.budget)?;
    write_text(sink, text.slice())?;
    Ok(())
}
