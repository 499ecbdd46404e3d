//! A play that prints its states.
ghost use Rattle.std.specs.Prelude.{◌≡◌, ◌≤◌, All, IfOk, codes, length};
ghost use Rattle.asm_io.specs.Writes.{Writes};
ghost use Rattle.asm_node.specs.Model.{machine_of};
ghost use Rattle.asm_node.specs.Words.{left};
ghost use Rattle.asm_run.specs.declared.error.OutError.TheVariants.{Write};
ghost use Rattle.asm_text.specs.Texts.{AreShort, line};
ghost use Rattle.avalla_command.specs.Acts.{IsAct, acts_of};
ghost use Rattle.avalla_play.specs.Moves.{all_acted};
ghost use Rattle.avalla_play.specs.Printed.{finished, first_point, from_start, play_of};
ghost use Rattle.avalla_play.specs.Standing.{IsReady, point_of};

use crate::acting::act_all;
use crate::context::Context;
use crate::stage::Stage;
use crate::telling::tell_state;
use asm_eval::InitError;
use asm_io::{Sink, Sources, write_text};
use asm_node::{Input, Model, Stop, Words};
use asm_run::{OutError, Session, print_stop};
use avalla_command::{Command, Play};
use std::alloc::Global;
use std::rc::Rc;

/// How a play ends.
#[derive(Clone, Copy, Debug, PartialEq, Eq)]
pub enum Played {
    /// All commands were met, and no check failed.
    Passed,
    /// The check of this number failed, counted from 1 as they are met.
    CheckFailed(u32),
    Stopped(Stop),
    /// A `step until` took all steps that the budget allows, and its condition still wasn't true.
    Budget,
}

/// Plays a scenario from the initial state on, and prints state by state and check by check. The budget is the greatest
/// number of steps of each `step until`. There is want of memory too after 2^64 states.
pub fn play<K: Sink>(
    alloc: Global,
    model: &Model,
    play: &Play,
    words: &mut Words,
    budget: u64,
    sources: &Sources,
    sink: &mut K,
) -> Result<Played, OutError>
    requires acts { All (IsAct (machine_of model.now)) (acts_of play.now) }
    requires few { length play.now ≤ 100000 }
    requires short { AreShort sources.now }
    ensures writes { Writes K.written K.faults sink.old sink.new (play_of (machine_of model.now) sources.now (acts_of play.now) (left words.old) budget).text Write result }
    ensures end { IfOk result (λ end. end ≡ (play_of (machine_of model.now) sources.now (acts_of play.now) (left words.old) budget).end) }
    ensures words { IfOk result (λ _. left words.new ≡ (play_of (machine_of model.now) sources.now (acts_of play.now) (left words.old) budget).words) }
    ensures same_words { words.new.0 ≡ words.old.0 }
{
    let context = Context {
        alloc,
        model,
        sources,
        budget,
    };
    match Session::new(alloc, model) {
        Ok(session) => play_from(&context, session, play.slice(), words, sink),
        Err(InitError::BadInitial(slot, value)) => {
            let stop = Stop::BadInitial(slot, value);
            print_stop(alloc, model.signature(), sources, stop, sink)?;
            Ok(Played::Stopped(stop))
        }
        Err(InitError::Memory) => Err(OutError::Memory),
    }
}

/// Plays a scenario from state 0 on, in which nothing is set and no check was met.
fn play_from<K: Sink>(
    context: &Context<'_>,
    session: Session<'_>,
    commands: &[Rc<Command>],
    words: &mut Words,
    sink: &mut K,
) -> Result<Played, OutError>
    requires machine { session.machine ≡ machine_of context.now.model.now }
    requires acts { All (IsAct (machine_of context.now.model.now)) (acts_of commands.now) }
    requires few { length commands.now ≤ 100000 }
    requires short { AreShort context.now.sources.now }
    ensures writes { Writes K.written K.faults sink.old sink.new (finished (from_start (machine_of context.now.model.now) context.now.sources.now context.now.budget (acts_of commands.now) (first_point session.entry.state (left words.old)))).text Write result }
    ensures end { IfOk result (λ end. end ≡ (finished (from_start (machine_of context.now.model.now) context.now.sources.now context.now.budget (acts_of commands.now) (first_point session.entry.state (left words.old)))).end) }
    ensures words { IfOk result (λ _. left words.new ≡ (finished (from_start (machine_of context.now.model.now) context.now.sources.now context.now.budget (acts_of commands.now) (first_point session.entry.state (left words.old)))).words) }
    ensures same_words { words.new.0 ≡ words.old.0 }
{
    let mut stage = Stage {
        session,
        input: Input::new(context.alloc),
        number: 0,
        checks: 0,
    };
    match tell_state(context, &stage, sink)? {
        Some(end) => Ok(end),
        None => play_on(context, &mut stage, commands, words, sink),
    }
}

/// Does all commands, after which the play has passed.
fn play_on<K: Sink>(
    context: &Context<'_>,
    stage: &mut Stage<'_>,
    commands: &[Rc<Command>],
    words: &mut Words,
    sink: &mut K,
) -> Result<Played, OutError>
    requires ready { IsReady (machine_of context.now.model.now) stage.old }
    requires acts { All (IsAct (machine_of context.now.model.now)) (acts_of commands.now) }
    requires few { length commands.now ≤ 100000 }
    requires none { stage.old.checks ≡ 0 }
    requires short { AreShort context.now.sources.now }
    ensures writes { Writes K.written K.faults sink.old sink.new (finished (all_acted (machine_of context.now.model.now) context.now.sources.now context.now.budget (acts_of commands.now) (point_of stage.old (left words.old)))).text Write result }
    ensures end { IfOk result (λ end. end ≡ (finished (all_acted (machine_of context.now.model.now) context.now.sources.now context.now.budget (acts_of commands.now) (point_of stage.old (left words.old)))).end) }
    ensures words { IfOk result (λ _. left words.new ≡ (finished (all_acted (machine_of context.now.model.now) context.now.sources.now context.now.budget (acts_of commands.now) (point_of stage.old (left words.old)))).words) }
    ensures same_words { words.new.0 ≡ words.old.0 }
{
    match act_all(context, stage, commands, words, sink)? {
        Some(end) => Ok(end),
        None => {
            tell_passed(sink)?;
            Ok(Played::Passed)
        }
    }
}

/// Prints the last line of a play that has passed.
fn tell_passed<K: Sink>(sink: &mut K) -> Result<(), OutError>
    ensures { Writes K.written K.faults sink.old sink.new (line (codes "passed")) Write result }
{
    write_text(sink, b"passed\n")?;
    Ok(())
}
