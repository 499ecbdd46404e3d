//! How many commands are met, and which block is missing, before any command is resolved.
ghost use Rattle.std.specs.Prelude.{◌≡◌, ◌+◌, ◌≤◌, List, [], length, nat_lt, option_copied, IfOk, IfErr, if◌then◌else◌};
ghost use Rattle.std.specs.List.{flat_map};
ghost use Rattle.avalla_prepare.specs.Parts as spec;
ghost use Rattle.avalla_prepare.specs.Parts.{AreSizes, Counts};
ghost use Rattle.avalla_prepare.specs.Scenario as scenario;
ghost use Rattle.avalla_prepare.specs.Scenario.{Block};

use crate::blocks::{Ended, end_block, latest};
use crate::error::ScenarioError;
use asm_list::Listed;
use asm_tree::script::{RawCommand, RawScenarioCommand};
use asm_tree::term::RawName;
use std::alloc::Global;

/// Most blocks of a scenario.
const MOST_BLOCKS: usize = 64;

/// Most commands that are met.
const MOST_COMMANDS: usize = 100_000;

/// Whether there are more than 64 blocks.
pub(crate) fn has_many_blocks(commands: &[RawScenarioCommand]) -> bool
    ensures { result ≡ nat_lt scenario.most_blocks (length (flat_map scenario.block_in commands.now)) }
{
    let mut blocks = 0;
    'commands: for command in commands {
        if !is_block(command) {
            continue;
        }
        if blocks == MOST_BLOCKS {
            return true;
        }
        blocks += 1;
    }
    false
}

/// Whether it is a block.
fn is_block(command: &RawScenarioCommand) -> bool
    ensures { length (scenario.block_in command.now) ≡ (if result then 1 else 0) }
{
    matches!(command, RawScenarioCommand::Block(_, _))
}

/// The first name of a missing block, where no more than 100,000 commands are met; else the scenario in the file of this
/// number is too long.
pub(crate) fn survey(
    alloc: Global,
    commands: &[RawScenarioCommand],
    file: u32,
) -> Result<Option<&RawName>, ScenarioError>
    ensures missing { IfOk result (λ o. option_copied o ≡ scenario.first_of (scenario.missing_after [] commands.now)) }
    ensures few { IfOk result (λ o. length (scenario.met_after [] commands.now) ≤ scenario.most_commands) }
    ensures fault { IfErr result (spec.EndsSurvey file (length (scenario.met_after [] commands.now))) }
{
    let mut ended = Listed::new(alloc);
    let mut met = 0;
    let mut missing = None;
    'commands: for command in commands {
        let from = met;
        let Some(to) = met_by(ended.slice(), command, from) else {
            return Err(ScenarioError::TooLong(file));
        };
        missing = or_missing_by(missing, ended.slice(), command);
        end_block(&mut ended, command, from, to)?;
        met = to;
    }
    Ok(missing)
}

/// How many commands are met after a command of a scenario, if no more than 100,000.
fn met_by(ended: &[Ended], command: &RawScenarioCommand, met: usize) -> Option<usize>
    requires { met ≤ scenario.most_commands }
    ensures { (blocks : List Block) → AreSizes blocks (spec.latest ended.now) → Counts result (met + length (spec.met_by blocks command.now)) }
{
    match command {
        RawScenarioCommand::Plain(command) => at_most(met, size(ended, command)),
        RawScenarioCommand::Block(_, commands) => met_by_all(ended, commands.slice(), met),
    }
}

/// How many commands are met after these, if no more than 100,000.
fn met_by_all(ended: &[Ended], commands: &[RawCommand], met: usize) -> Option<usize>
    requires { met ≤ scenario.most_commands }
    ensures { (blocks : List Block) → AreSizes blocks (spec.latest ended.now) → Counts result (met + length (scenario.all_unfolded blocks commands.now)) }
{
    let mut met = met;
    'commands: for command in commands {
        met = at_most(met, size(ended, command))?;
    }
    Some(met)
}

/// How many commands one stands for.
fn size(ended: &[Ended], command: &RawCommand) -> usize
    ensures { (blocks : List Block) → AreSizes blocks (spec.latest ended.now) → result ≡ length (scenario.unfolded blocks command.now) }
{
    match command {
        RawCommand::Set(_) => 1,
        RawCommand::Step => 1,
        RawCommand::StepUntil(_) => 1,
        RawCommand::Check(_) => 1,
        RawCommand::Exec(_) => 1,
        RawCommand::ExecBlock(name) => match latest(ended, &name.text) {
            Some((from, to)) => to.saturating_sub(from),
            None => 0,
        },
    }
}

/// A number and so many more, if no more than 100,000.
fn at_most(met: usize, more: usize) -> Option<usize>
    requires { met ≤ scenario.most_commands }
    ensures { Counts result (met + more) }
{
    if more > MOST_COMMANDS - met {
        None
    } else {
        Some(met + more)
    }
}

/// The name of a missing block, which was met before or is the first one of this command of a scenario.
fn or_missing_by<'r>(
    missing: Option<&'r RawName>,
    ended: &[Ended],
    command: &'r RawScenarioCommand,
) -> Option<&'r RawName>
    ensures { (blocks : List Block) → AreSizes blocks (spec.latest ended.now) → option_copied result ≡ spec.or_first (option_copied missing.entry) (spec.missing_by blocks command.now) }
{
    match missing {
        Some(name) => Some(name),
        None => match command {
            RawScenarioCommand::Plain(command) => missing_in(ended, command),
            RawScenarioCommand::Block(_, commands) => missing_in_all(ended, commands.slice()),
        },
    }
}

/// The first name of a missing block in these commands.
fn missing_in_all<'r>(ended: &[Ended], commands: &'r [RawCommand]) -> Option<&'r RawName>
    ensures { (blocks : List Block) → AreSizes blocks (spec.latest ended.now) → option_copied result ≡ scenario.first_of (flat_map (scenario.missing_in blocks) commands.now) }
{
    'commands: for command in commands {
        if let Some(name) = missing_in(ended, command) {
            return Some(name);
        }
    }
    None
}

/// The name of a missing block in a command.
fn missing_in<'r>(ended: &[Ended], command: &'r RawCommand) -> Option<&'r RawName>
    ensures { (blocks : List Block) → AreSizes blocks (spec.latest ended.now) → option_copied result ≡ scenario.first_of (scenario.missing_in blocks command.now) }
{
    match command {
        RawCommand::Set(_) => None,
        RawCommand::Step => None,
        RawCommand::StepUntil(_) => None,
        RawCommand::Check(_) => None,
        RawCommand::Exec(_) => None,
        RawCommand::ExecBlock(name) => match latest(ended, &name.text) {
            Some(_) => None,
            None => Some(name),
        },
    }
}
