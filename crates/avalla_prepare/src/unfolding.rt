//! The commands of a scenario in the order in which they are met.
ghost use Rattle.std.specs.Prelude.{◌≡◌, ◌≤◌, ◌++◌, ◌∷◌, [], List, length, take, drop, IfOk, OnOk, IfErr};
ghost use Rattle.std.specs.List.{flat_map};
ghost use Rattle.asm_node.specs.Model.{machine_of};
ghost use Rattle.avalla_command.specs.Acts.{act_of, acts_of};
ghost use Rattle.avalla_prepare.specs.Parts as spec;
ghost use Rattle.avalla_prepare.specs.Parts.{ArePlaced, Grows};
ghost use Rattle.avalla_prepare.specs.Prepared.{Tells, command_faults};
ghost use Rattle.avalla_prepare.specs.Scenario as scenario;
ghost use Rattle.avalla_prepare.specs.Scenario.{Block, first_of};

use crate::blocks::{Ended, end_block, latest};
use crate::error::ScenarioError;
use crate::resolving::{Over, condition, rule, setting};
use asm_bind::Settable;
use asm_list::Listed;
use asm_node::Model;
use asm_script::Script;
use asm_tree::script::{RawCommand, RawScenarioCommand};
use avalla_command::{Command, Play};
use std::alloc::{AllocError, Global};
use std::rc::Rc;

/// The commands of a scenario in the order in which they are met, or what is wrong first with one of them.
pub(crate) fn unfolded(
    alloc: Global,
    model: &Model,
    commands: &[RawScenarioCommand],
    file: u32,
) -> Result<Play, ScenarioError>
    ensures faultless { IfOk result (λ play. flat_map (command_faults (machine_of model.now) file) (flat_map scenario.written_in commands.now) ≡ []) }
    ensures grows { IfOk result (λ play. Grows (machine_of model.now) file (scenario.met_after [] commands.now) [] (acts_of play)) }
    ensures fault { IfErr result (Tells (first_of (flat_map (command_faults (machine_of model.now) file) (flat_map scenario.written_in commands.now)))) }
{
    match Script::new(alloc, model) {
        Ok(script) => unfolded_by(alloc, model, script, commands, file),
        Err(_) => Err(ScenarioError::Memory),
    }
}

/// The same by a script of the model.
fn unfolded_by(
    alloc: Global,
    model: &Model,
    script: Script<'_>,
    commands: &[RawScenarioCommand],
    file: u32,
) -> Result<Play, ScenarioError>
    requires { script ≡ machine_of model.now }
    ensures faultless { IfOk result (λ play. flat_map (command_faults script.entry file) (flat_map scenario.written_in commands.now) ≡ []) }
    ensures grows { IfOk result (λ play. Grows script.entry file (scenario.met_after [] commands.now) [] (acts_of play)) }
    ensures fault { IfErr result (Tells (first_of (flat_map (command_faults script.entry file) (flat_map scenario.written_in commands.now)))) }
{
    match Settable::new(alloc, model) {
        Ok(settable) => unfolded_with(alloc, script, settable, commands, file),
        Err(_) => Err(ScenarioError::Memory),
    }
}

/// The same by the functions of the model too.
fn unfolded_with(
    alloc: Global,
    script: Script<'_>,
    settable: Settable<'_>,
    commands: &[RawScenarioCommand],
    file: u32,
) -> Result<Play, ScenarioError>
    requires { settable ≡ script.signature }
    ensures faultless { IfOk result (λ play. flat_map (command_faults script.entry file) (flat_map scenario.written_in commands.now) ≡ []) }
    ensures grows { IfOk result (λ play. Grows script.entry file (scenario.met_after [] commands.now) [] (acts_of play)) }
    ensures fault { IfErr result (Tells (first_of (flat_map (command_faults script.entry file) (flat_map scenario.written_in commands.now)))) }
{
    let over = Over {
        alloc,
        script,
        settable,
        file,
    };
    unfolded_over(&over, commands)
}

/// The commands of a scenario in the order in which they are met, or what is wrong first with one of them.
fn unfolded_over(over: &Over, commands: &[RawScenarioCommand]) -> Result<Play, ScenarioError>
    requires { over.now.settable ≡ over.now.script.signature }
    ensures faultless { IfOk result (λ play. flat_map (command_faults over.now.script over.now.file) (flat_map scenario.written_in commands.now) ≡ []) }
    ensures grows { IfOk result (λ play. Grows over.now.script over.now.file (scenario.met_after [] commands.now) [] (acts_of play)) }
    ensures fault { IfErr result (Tells (first_of (flat_map (command_faults over.now.script over.now.file) (flat_map scenario.written_in commands.now)))) }
{
    let mut order = Listed::new(over.alloc);
    unfold_scenario(over, commands, &mut order)?;
    Ok(order)
}

/// Adds what the commands of a scenario come to.
fn unfold_scenario(
    over: &Over,
    commands: &[RawScenarioCommand],
    order: &mut Play,
) -> Result<(), ScenarioError>
    requires { over.now.settable ≡ over.now.script.signature }
    ensures faultless { OnOk result (flat_map (command_faults over.now.script over.now.file) (flat_map scenario.written_in commands.now) ≡ []) }
    ensures grows { OnOk result (Grows over.now.script over.now.file (scenario.met_after [] commands.now) (acts_of order.old) (acts_of order.new)) }
    ensures fault { IfErr result (Tells (first_of (flat_map (command_faults over.now.script over.now.file) (flat_map scenario.written_in commands.now)))) }
{
    let mut ended = Listed::new(over.alloc);
    'commands: for command in commands {
        let from = order.len();
        unfold_command(over, ended.slice(), command, order)?;
        let to = order.len();
        end_block(&mut ended, command, from, to)?;
    }
    Ok(())
}

/// Adds what a command of a scenario comes to.
fn unfold_command(
    over: &Over,
    ended: &[Ended],
    command: &RawScenarioCommand,
    order: &mut Play,
) -> Result<(), ScenarioError>
    requires { over.now.settable ≡ over.now.script.signature }
    ensures faultless { OnOk result (flat_map (command_faults over.now.script over.now.file) (scenario.written_in command.now) ≡ []) }
    ensures grows { OnOk result ((blocks : List Block) → ArePlaced over.now.script over.now.file (acts_of order.old) blocks (spec.latest ended.now) → Grows over.now.script over.now.file (spec.met_by blocks command.now) (acts_of order.old) (acts_of order.new)) }
    ensures fault { IfErr result (Tells (first_of (flat_map (command_faults over.now.script over.now.file) (scenario.written_in command.now)))) }
{
    match command {
        RawScenarioCommand::Plain(command) => Ok(unfold(over, ended, command, order)?),
        RawScenarioCommand::Block(_, commands) => {
            Ok(unfold_all(over, ended, commands.slice(), order)?)
        }
    }
}

/// Adds what commands come to.
fn unfold_all(
    over: &Over,
    ended: &[Ended],
    commands: &[RawCommand],
    order: &mut Play,
) -> Result<(), ScenarioError>
    requires { over.now.settable ≡ over.now.script.signature }
    ensures faultless { OnOk result (flat_map (command_faults over.now.script over.now.file) commands.now ≡ []) }
    ensures grows { OnOk result ((blocks : List Block) → ArePlaced over.now.script over.now.file (acts_of order.old) blocks (spec.latest ended.now) → Grows over.now.script over.now.file (scenario.all_unfolded blocks commands.now) (acts_of order.old) (acts_of order.new)) }
    ensures fault { IfErr result (Tells (first_of (flat_map (command_faults over.now.script over.now.file) commands.now))) }
{
    'commands: for command in commands {
        unfold(over, ended, command, order)?;
    }
    Ok(())
}

/// Adds what a command comes to: itself over the model, or the commands of a block once more.
fn unfold(
    over: &Over,
    ended: &[Ended],
    command: &RawCommand,
    order: &mut Play,
) -> Result<(), ScenarioError>
    requires { over.now.settable ≡ over.now.script.signature }
    ensures faultless { OnOk result (command_faults over.now.script over.now.file command.now ≡ []) }
    ensures grows { OnOk result ((blocks : List Block) → ArePlaced over.now.script over.now.file (acts_of order.old) blocks (spec.latest ended.now) → Grows over.now.script over.now.file (scenario.unfolded blocks command.now) (acts_of order.old) (acts_of order.new)) }
    ensures fault { IfErr result (Tells (first_of (command_faults over.now.script over.now.file command.now))) }
{
    let alloc = over.alloc;
    match command {
        RawCommand::Set(set) => Ok(add(alloc, order, setting(over, set)?)?),
        RawCommand::Step => Ok(add(alloc, order, Command::Step)?),
        RawCommand::StepUntil(term) => {
            let term = condition(over, term)?;
            Ok(add(alloc, order, Command::StepUntil(term))?)
        }
        RawCommand::Check(term) => {
            let term = condition(over, term)?;
            Ok(add(alloc, order, Command::Check(term))?)
        }
        RawCommand::Exec(raw) => {
            let node = rule(over, raw)?;
            Ok(add(alloc, order, Command::Exec(node))?)
        }
        RawCommand::ExecBlock(name) => match latest(ended, &name.text) {
            Some((from, to)) => Ok(add_again(order, from, to)?),
            None => Ok(()),
        },
    }
}

/// Adds a command.
fn add(alloc: Global, order: &mut Play, command: Command) -> Result<(), AllocError>
    ensures { OnOk result (acts_of order.new ≡ acts_of order.old ++ act_of command ∷ []) }
{
    let command = Rc::new(alloc, command)?;
    Ok(order.push(command)?)
}

/// Adds the commands from one place up to another once more.
fn add_again(order: &mut Play, from: usize, to: usize) -> Result<(), AllocError>
    ensures { OnOk result (from ≤ to → to ≤ length (acts_of order.old) → acts_of order.new ≡ acts_of order.old ++ drop from (take to (acts_of order.old))) }
{
    'places: for place in from..to {
        add_from(order, place)?;
    }
    Ok(())
}

/// Adds the command at a place once more.
fn add_from(order: &mut Play, place: usize) -> Result<(), AllocError>
    ensures { OnOk result (acts_of order.new ≡ acts_of order.old ++ spec.at_place (acts_of order.old) place) }
{
    match order.item(place) {
        Some(command) => {
            let command = command.clone()?;
            Ok(order.push(command)?)
        }
        None => Ok(()),
    }
}
