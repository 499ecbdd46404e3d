//! Steps of a play.
ghost use Rattle.std.specs.Prelude.{◌≡◌, ◌≤◌, All, IfOk, MatchOption, None, ⊤, length, option_copied, option_map};
ghost use Rattle.std.specs.Option.{unwrap_or};
ghost use Rattle.asm_io.specs.Writes.{Writes};
ghost use Rattle.asm_node.specs.Model.{machine_of};
ghost use Rattle.asm_node.specs.RuleTree.{plain_rule};
ghost use Rattle.asm_node.specs.Step.{IsInput, next};
ghost use Rattle.asm_node.specs.WellFormed.{IsRule};
ghost use Rattle.asm_node.specs.Words.{left};
ghost use Rattle.asm_run.specs.declared.error.OutError.TheVariants.{Write};
ghost use Rattle.asm_run.specs.Reached.{landed};
ghost use Rattle.asm_run.specs.Session.{Answers, advanced};
ghost use Rattle.asm_run.specs.Stepping.{Goes};
ghost use Rattle.asm_text.specs.Texts.{AreShort};
ghost use Rattle.avalla_play.specs.Moves.{step};
ghost use Rattle.avalla_play.specs.Standing.{IsReady, Lands, point_of};

use crate::context::Context;
use crate::playing::Played;
use crate::stage::{Stage, settle};
use crate::telling::{stop_by, tell_state};
use asm_io::Sink;
use asm_node::{Input, Rule, Stop, Words};
use asm_run::{OutError, Session, StepError};
use std::alloc::AllocError;
use std::rc::Rc;

/// A step of a rule, or of the main rule where none is given. The state to which it leads is printed, also where an invariant
/// is false in it; a step that stops leads nowhere.
pub fn make_step<K: Sink>(
    context: &Context<'_>,
    stage: &mut Stage<'_>,
    rule: Option<&Rc<Rule>>,
    words: &mut Words,
    sink: &mut K,
) -> Result<Option<Played>, OutError>
    requires ready { IsReady (machine_of context.now.model.now) stage.old }
    requires rule { MatchOption (option_copied rule) ⊤ (λ r. IsRule (machine_of context.now.model.now) (plain_rule r.value)) }
    requires short { AreShort context.now.sources.now }
    ensures writes { Writes K.written K.faults sink.old sink.new (step (machine_of context.now.model.now) context.now.sources.now (unwrap_or (option_map (λ r. plain_rule r.value) (option_copied rule.entry)) (machine_of context.now.model.now).main) (point_of stage.old (left words.old))).text Write result }
    ensures lands { IfOk result (λ end. Lands end (machine_of context.now.model.now) stage.new (left words.new) (step (machine_of context.now.model.now) context.now.sources.now (unwrap_or (option_map (λ r. plain_rule r.value) (option_copied rule.entry)) (machine_of context.now.model.now).main) (point_of stage.old (left words.old))).to) }
    ensures checks { IfOk result (λ _. stage.new.checks ≡ stage.old.checks) }
    ensures same_words { words.new.0 ≡ words.old.0 }
{
    match go_on(&mut stage.session, rule, &stage.input, words)? {
        Some(stop) => stop_by(context, stop, sink),
        None => {
            settle(context, stage)?;
            tell_state(context, stage, sink)
        }
    }
}

/// Makes a step, or answers why it stops. Where an invariant is false in the state that it leads to, that isn't told yet.
fn go_on(
    session: &mut Session<'_>,
    rule: Option<&Rc<Rule>>,
    input: &Input,
    words: &mut Words,
) -> Result<Option<Stop>, AllocError>
    requires going { session.old.stopped ≡ None }
    requires rule { MatchOption (option_copied rule) ⊤ (λ r. IsRule session.old.machine (plain_rule r.value)) }
    requires input { IsInput session.old.machine input.now }
    ensures goes { IfOk result (λ stop. Goes stop session.new.state (left words.new) (next session.old.machine session.old.state input.now (left words.old) (unwrap_or (option_map (λ r. plain_rule r.value) (option_copied rule.entry)) session.old.machine.main))) }
    ensures lands { IfOk result (λ _. (session.new.state, left words.new) ≡ landed (session.old.state, left words.old) (next session.old.machine session.old.state input.now (left words.old) (unwrap_or (option_map (λ r. plain_rule r.value) (option_copied rule.entry)) session.old.machine.main))) }
    ensures machine { IfOk result (λ _. session.new.machine ≡ session.old.machine) }
    ensures same_words { words.new.0 ≡ words.old.0 }
{
    match advance(session, rule, input, words) {
        Ok(()) => Ok(None),
        Err(StepError::Stop(stop)) => match session.stopped() {
            Some(_) => Ok(None),
            None => Ok(Some(stop)),
        },
        Err(StepError::Memory) => Err(AllocError),
    }
}

/// Makes a step of a rule, or of the main rule where none is given.
fn advance(
    session: &mut Session<'_>,
    rule: Option<&Rc<Rule>>,
    input: &Input,
    words: &mut Words,
) -> Result<(), StepError>
    requires rule { MatchOption (option_copied rule) ⊤ (λ r. IsRule session.old.machine (plain_rule r.value)) }
    requires input { IsInput session.old.machine input.now }
    ensures { Answers (advanced session.old (next session.old.machine session.old.state input.now (left words.old) (unwrap_or (option_map (λ r. plain_rule r.value) (option_copied rule.entry)) session.old.machine.main))) result session.old session.new words.old words.new }
{
    match rule {
        Some(rule) => session.exec(rule, input, words),
        None => session.step(input, words),
    }
}
