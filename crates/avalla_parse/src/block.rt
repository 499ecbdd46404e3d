//! The commands of a scenario with its blocks.

ghost use Rattle.std.specs.Prelude.{◌≡◌, true};
ghost use Rattle.asm_grammar.specs.Grammar.{Gives, both, has, ahead, firsts, shown};
ghost use Rattle.asm_tree.specs.Language.{models, after, before, name};
ghost use Rattle.asm_tree.specs.Language as language;
ghost use Rattle.asm_tree.specs.Scripts as scripts;
ghost use Rattle.asm_tree.specs.declared.class.Class.TheVariants as class_is;
ghost use Rattle.asm_tree.specs.declared.script.RawScenarioCommand.TheVariants as scenario_command;
ghost use Rattle.asm_body.specs.Reading.{read_in};
ghost use Rattle.asm_body.specs.Seen.{all_seen};

use crate::command::{command, commands, plain_word};
use asm_body::{Lexeme, any_word, begins, begins_among, expect};
use asm_grammar::Stop;
use asm_list::Listed;
use asm_tree::class::Class;
use asm_tree::script::{RawScenario, RawScenarioCommand};
use std::alloc::Global;
use unit_reader::read_path;

/// A block with its name and its commands.
fn block(
    alloc: Global,
    tokens: &[Lexeme],
    levels: usize,
) -> Result<(RawScenarioCommand, &[Lexeme]), Stop>
    ensures { Gives models (λ x. (x.0, all_seen x.1.now)) result (read_in levels true (after class_is.Begin (shown (λ p. scenario_command.Block p.0 p.1) (both (name language.plain_words) (before scripts.commands class_is.End)))) (all_seen tokens.now)) }
{
    let (_, rest) = expect(tokens, Class::Begin)?;
    let (name, rest) = plain_word(alloc, rest)?;
    let (commands, rest) = commands(alloc, rest, levels)?;
    let (_, rest) = expect(rest, Class::End)?;
    Ok((RawScenarioCommand::Block(name, commands), rest))
}

/// A command outside of blocks.
fn plain(
    alloc: Global,
    tokens: &[Lexeme],
    levels: usize,
) -> Result<(RawScenarioCommand, &[Lexeme]), Stop>
    ensures { Gives models (λ x. (x.0, all_seen x.1.now)) result (read_in levels true (shown scenario_command.Plain scripts.command) (all_seen tokens.now)) }
{
    let (command, rest) = command(alloc, tokens, levels)?;
    Ok((RawScenarioCommand::Plain(command), rest))
}

/// A block or a command.
#[tactic(auto, using(crate::proofs::Opened::block_or_command_is))]
fn block_or_command(
    alloc: Global,
    tokens: &[Lexeme],
    levels: usize,
) -> Result<(RawScenarioCommand, &[Lexeme]), Stop>
    ensures { Gives models (λ x. (x.0, all_seen x.1.now)) result (read_in levels true scripts.scenario_command_at (all_seen tokens.now)) }
{
    if begins(tokens, Class::Begin) {
        return block(alloc, tokens, levels);
    }
    plain(alloc, tokens, levels)
}

/// Whether the first token begins a block or a command.
#[tactic(auto, using(crate::proofs::Firsts::begins_block_or_command_is))]
fn begins_block_or_command(tokens: &[Lexeme]) -> bool
    ensures { result ≡ has (ahead models (all_seen tokens.now) 0) (firsts models scripts.scenario_command_at) }
{
    begins_among(
        tokens,
        &[
            Class::Begin,
            Class::Set,
            Class::Step,
            Class::Check,
            Class::Exec,
            Class::ExecBlock,
        ],
    )
}

/// The blocks and commands in the order of the text.
fn scenario_commands(
    alloc: Global,
    tokens: &[Lexeme],
    levels: usize,
) -> Result<(Listed<RawScenarioCommand>, &[Lexeme]), Stop>
    ensures { Gives models (λ x. (x.0, all_seen x.1.now)) result (read_in levels true scripts.scenario_commands (all_seen tokens.now)) }
{
    let mut items = Listed::new(alloc);
    let mut rest = tokens;
    'items: for _turn in 0..tokens.len() {
        if !begins_block_or_command(rest) {
            return Ok((items, rest));
        }
        let (item, after) = block_or_command(alloc, rest, levels)?;
        items.push(item)?;
        rest = after;
    }
    Ok((items, rest))
}

/// The scenario at the front, where so many levels of nesting are left.
#[tactic(auto, using(crate::proofs::Opened::path_flat), unfolding(asm_tree::specs::Scripts::scenario))]
pub fn scenario_from(
    alloc: Global,
    tokens: &[Lexeme],
    levels: usize,
) -> Result<(RawScenario, &[Lexeme]), Stop>
    ensures { Gives models (λ x. (x.0, all_seen x.1.now)) result (read_in levels true scripts.scenario (all_seen tokens.now)) }
{
    let (_, rest) = expect(tokens, Class::Scenario)?;
    let (name, rest) = any_word(alloc, rest)?;
    let (_, rest) = expect(rest, Class::Load)?;
    let (load, rest) = read_path(alloc, rest)?;
    let (commands, rest) = scenario_commands(alloc, rest, levels)?;
    Ok((
        RawScenario {
            name,
            load,
            commands,
        },
        rest,
    ))
}
