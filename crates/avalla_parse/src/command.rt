//! The commands of a scenario that are no blocks.

ghost use Rattle.std.specs.Prelude.{◌≡◌, true};
ghost use Rattle.asm_grammar.specs.Grammar.{Gives, has, ahead, firsts, shown};
ghost use Rattle.asm_tree.specs.Language.{models, after, before, name};
ghost use Rattle.asm_tree.specs.Language as language;
ghost use Rattle.asm_tree.specs.Rules as rules;
ghost use Rattle.asm_tree.specs.Scripts as scripts;
ghost use Rattle.asm_tree.specs.Terms as terms;
ghost use Rattle.asm_tree.specs.declared.class.Class.TheVariants as class_is;
ghost use Rattle.asm_tree.specs.declared.script.RawCommand.TheVariants as command_of;
ghost use Rattle.asm_body.specs.Reading.{read_flat, read_in};
ghost use Rattle.asm_body.specs.Seen.{all_seen};

use crate::setting::setting;
use crate::step::semicolon;
use asm_body::{Lexeme, begins, begins_among, boxed_term, expect, name, read_rule};
use asm_grammar::Stop;
use asm_list::{Boxed, Listed};
use asm_tree::class::Class;
use asm_tree::rule::RawRule;
use asm_tree::script::RawCommand;
use asm_tree::term::RawName;
use std::alloc::Global;

/// A word that isn't reserved in scenarios.
pub fn plain_word(alloc: Global, tokens: &[Lexeme]) -> Result<(RawName, &[Lexeme]), Stop>
    ensures { Gives models (λ x. (x.0, all_seen x.1.now)) result (read_flat (name language.plain_words) (all_seen tokens.now)) }
{
    name(
        alloc,
        tokens,
        &[
            Class::RuleName,
            Class::InvariantName,
            Class::FunctionName,
            Class::ElementName,
            Class::CapitalName,
        ],
    )
}

/// A rule in a box, so that it is let go by one call.
fn boxed_rule(
    alloc: Global,
    tokens: &[Lexeme],
    levels: usize,
) -> Result<(Boxed<RawRule>, &[Lexeme]), Stop>
    ensures { Gives models (λ x. (x.0, all_seen x.1.now)) result (read_in levels true (rules.rule true) (all_seen tokens.now)) }
{
    let (rule, rest) = read_rule(alloc, tokens, levels, true)?;
    Ok((Boxed::new(alloc, rule)?, rest))
}

/// A location is set.
fn set_command(
    alloc: Global,
    tokens: &[Lexeme],
    levels: usize,
) -> Result<(RawCommand, &[Lexeme]), Stop>
    ensures { Gives models (λ x. (x.0, all_seen x.1.now)) result (read_in levels true (shown command_of.Set scripts.setting) (all_seen tokens.now)) }
{
    let (set, rest) = setting(alloc, tokens, levels)?;
    Ok((RawCommand::Set(set), rest))
}

/// Steps until a term is true.
fn until_command(
    alloc: Global,
    tokens: &[Lexeme],
    levels: usize,
) -> Result<(RawCommand, &[Lexeme]), Stop>
    ensures { Gives models (λ x. (x.0, all_seen x.1.now)) result (read_in levels true (after class_is.Until (before (shown command_of.StepUntil (terms.term true)) class_is.Semicolon)) (all_seen tokens.now)) }
{
    let (_, rest) = expect(tokens, Class::Until)?;
    let (term, rest) = boxed_term(alloc, rest, levels, true)?;
    let (_, rest) = expect(rest, Class::Semicolon)?;
    Ok((RawCommand::StepUntil(term.into_inner()), rest))
}

/// What follows the word `step`.
#[tactic(auto, using(crate::proofs::Opened::semicolon_flat), unfolding(asm_tree::specs::Scripts::step_tail))]
fn step_tail(
    alloc: Global,
    tokens: &[Lexeme],
    levels: usize,
) -> Result<(RawCommand, &[Lexeme]), Stop>
    ensures { Gives models (λ x. (x.0, all_seen x.1.now)) result (read_in levels true scripts.step_tail (all_seen tokens.now)) }
{
    if begins(tokens, Class::Until) {
        return until_command(alloc, tokens, levels);
    }
    let rest = semicolon(tokens)?;
    Ok((RawCommand::Step, rest))
}

/// One step, or steps until a term is true.
fn step_command(
    alloc: Global,
    tokens: &[Lexeme],
    levels: usize,
) -> Result<(RawCommand, &[Lexeme]), Stop>
    ensures { Gives models (λ x. (x.0, all_seen x.1.now)) result (read_in levels true (after class_is.Step scripts.step_tail) (all_seen tokens.now)) }
{
    let (_, rest) = expect(tokens, Class::Step)?;
    step_tail(alloc, rest, levels)
}

/// A term is to be true.
fn check_command(
    alloc: Global,
    tokens: &[Lexeme],
    levels: usize,
) -> Result<(RawCommand, &[Lexeme]), Stop>
    ensures { Gives models (λ x. (x.0, all_seen x.1.now)) result (read_in levels true (after class_is.Check (before (shown command_of.Check (terms.term true)) class_is.Semicolon)) (all_seen tokens.now)) }
{
    let (_, rest) = expect(tokens, Class::Check)?;
    let (term, rest) = boxed_term(alloc, rest, levels, true)?;
    let (_, rest) = expect(rest, Class::Semicolon)?;
    Ok((RawCommand::Check(term.into_inner()), rest))
}

/// A rule is run.
fn exec_command(
    alloc: Global,
    tokens: &[Lexeme],
    levels: usize,
) -> Result<(RawCommand, &[Lexeme]), Stop>
    ensures { Gives models (λ x. (x.0, all_seen x.1.now)) result (read_in levels true (after class_is.Exec (before (shown command_of.Exec (rules.rule true)) class_is.Semicolon)) (all_seen tokens.now)) }
{
    let (_, rest) = expect(tokens, Class::Exec)?;
    let (rule, rest) = boxed_rule(alloc, rest, levels)?;
    let (_, rest) = expect(rest, Class::Semicolon)?;
    Ok((RawCommand::Exec(rule.into_inner()), rest))
}

/// The commands of a block are run.
fn block_command(alloc: Global, tokens: &[Lexeme]) -> Result<(RawCommand, &[Lexeme]), Stop>
    ensures { Gives models (λ x. (x.0, all_seen x.1.now)) result (read_flat (after class_is.ExecBlock (before (shown command_of.ExecBlock (name language.plain_words)) class_is.Semicolon)) (all_seen tokens.now)) }
{
    let (_, rest) = expect(tokens, Class::ExecBlock)?;
    let (block, rest) = plain_word(alloc, rest)?;
    let (_, rest) = expect(rest, Class::Semicolon)?;
    Ok((RawCommand::ExecBlock(block), rest))
}

/// A command by its first word.
#[tactic(auto, using(crate::proofs::Opened::command_is))]
pub fn command(
    alloc: Global,
    tokens: &[Lexeme],
    levels: usize,
) -> Result<(RawCommand, &[Lexeme]), Stop>
    ensures { Gives models (λ x. (x.0, all_seen x.1.now)) result (read_in levels true scripts.command (all_seen tokens.now)) }
{
    if begins(tokens, Class::Set) {
        return set_command(alloc, tokens, levels);
    }
    if begins(tokens, Class::Step) {
        return step_command(alloc, tokens, levels);
    }
    if begins(tokens, Class::Check) {
        return check_command(alloc, tokens, levels);
    }
    if begins(tokens, Class::Exec) {
        return exec_command(alloc, tokens, levels);
    }
    block_command(alloc, tokens)
}

/// Whether the first token begins a command.
#[tactic(auto, using(crate::proofs::Firsts::begins_command_is))]
fn begins_command(tokens: &[Lexeme]) -> bool
    ensures { result ≡ has (ahead models (all_seen tokens.now) 0) (firsts models scripts.command) }
{
    begins_among(
        tokens,
        &[
            Class::Set,
            Class::Step,
            Class::Check,
            Class::Exec,
            Class::ExecBlock,
        ],
    )
}

/// The commands in the order of the text.
pub fn commands(
    alloc: Global,
    tokens: &[Lexeme],
    levels: usize,
) -> Result<(Listed<RawCommand>, &[Lexeme]), Stop>
    ensures { Gives models (λ x. (x.0, all_seen x.1.now)) result (read_in levels true scripts.commands (all_seen tokens.now)) }
{
    let mut items = Listed::new(alloc);
    let mut rest = tokens;
    'items: for _turn in 0..tokens.len() {
        if !begins_command(rest) {
            return Ok((items, rest));
        }
        let (item, after) = command(alloc, rest, levels)?;
        items.push(item)?;
        rest = after;
    }
    Ok((items, rest))
}
