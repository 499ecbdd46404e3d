//! The commands of a play, one after the other.
ghost use Rattle.std.specs.Prelude.{◌≡◌, ◌≤◌, ◌<◌, ◌+◌, All, IfOk, length};
ghost use Rattle.asm_io.specs.Writes.{Writes};
ghost use Rattle.asm_node.specs.Model.{machine_of};
ghost use Rattle.asm_node.specs.Words.{left};
ghost use Rattle.asm_run.specs.declared.error.OutError.TheVariants.{Write};
ghost use Rattle.asm_text.specs.Texts.{AreShort};
ghost use Rattle.avalla_command.specs.Acts.{IsAct, act_of, acts_of};
ghost use Rattle.avalla_play.specs.Moves.{acted, all_acted};
ghost use Rattle.avalla_play.specs.Standing.{IsReady, Lands, point_of};

use crate::checking::check;
use crate::context::Context;
use crate::playing::Played;
use crate::stage::{Stage, set_value};
use crate::stepping::make_step;
use crate::until::step_until;
use asm_io::Sink;
use asm_node::Words;
use asm_run::OutError;
use avalla_command::Command;
use std::rc::Rc;

/// Does all commands in their order, up to the end of the play.
pub fn act_all<K: Sink>(
    context: &Context<'_>,
    stage: &mut Stage<'_>,
    commands: &[Rc<Command>],
    words: &mut Words,
    sink: &mut K,
) -> Result<Option<Played>, OutError>
    requires ready { IsReady (machine_of context.now.model.now) stage.old }
    requires acts { All (IsAct (machine_of context.now.model.now)) (acts_of commands.now) }
    requires few { length commands.now ≤ 100000 }
    requires none { stage.old.checks ≡ 0 }
    requires short { AreShort context.now.sources.now }
    ensures writes { Writes K.written K.faults sink.old sink.new (all_acted (machine_of context.now.model.now) context.now.sources.now context.now.budget (acts_of commands.now) (point_of stage.old (left words.old))).text Write result }
    ensures lands { IfOk result (λ end. Lands end (machine_of context.now.model.now) stage.new (left words.new) (all_acted (machine_of context.now.model.now) context.now.sources.now context.now.budget (acts_of commands.now) (point_of stage.old (left words.old))).to) }
    ensures same_words { words.new.0 ≡ words.old.0 }
{
    'commands: for command in commands {
        if let Some(end) = act(context, stage, command, words, sink)? {
            return Ok(Some(end));
        }
    }
    Ok(None)
}

/// Does one command.
fn act<K: Sink>(
    context: &Context<'_>,
    stage: &mut Stage<'_>,
    command: &Command,
    words: &mut Words,
    sink: &mut K,
) -> Result<Option<Played>, OutError>
    requires ready { IsReady (machine_of context.now.model.now) stage.old }
    requires act { IsAct (machine_of context.now.model.now) (act_of command.now) }
    requires few { stage.old.checks < 100000 }
    requires short { AreShort context.now.sources.now }
    ensures writes { Writes K.written K.faults sink.old sink.new (acted (machine_of context.now.model.now) context.now.sources.now context.now.budget (act_of command.now) (point_of stage.old (left words.old))).text Write result }
    ensures lands { IfOk result (λ end. Lands end (machine_of context.now.model.now) stage.new (left words.new) (acted (machine_of context.now.model.now) context.now.sources.now context.now.budget (act_of command.now) (point_of stage.old (left words.old))).to) }
    ensures same_words { words.new.0 ≡ words.old.0 }
    ensures checks { IfOk result (λ _. stage.new.checks ≤ stage.old.checks + 1) }
{
    match command {
        Command::Set(slot, value) => {
            set_value(stage, *slot, *value)?;
            Ok(None)
        }
        Command::Step => make_step(context, stage, None, words, sink),
        Command::StepUntil(condition) => step_until(context, stage, condition, words, sink),
        Command::Check(condition) => check(context, stage, condition, sink),
        Command::Exec(rule) => make_step(context, stage, Some(rule), words, sink),
    }
}
