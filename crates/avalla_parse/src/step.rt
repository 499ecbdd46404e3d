//! The steps of an input file.

ghost use Rattle.std.specs.Prelude.{◌≡◌, true};
ghost use Rattle.asm_grammar.specs.Grammar.{Gives, many, has, ahead, firsts};
ghost use Rattle.asm_tree.specs.Language.{models};
ghost use Rattle.asm_tree.specs.Scripts as scripts;
ghost use Rattle.asm_body.specs.Reading.{read_flat, read_in};
ghost use Rattle.asm_body.specs.Seen.{all_seen};

use crate::setting::settings;
use asm_body::{Lexeme, begins, begins_among, expect};
use asm_grammar::Stop;
use asm_list::Listed;
use asm_tree::class::Class;
use asm_tree::script::{RawInputStep, RawInputs};
use std::alloc::Global;

/// The tokens behind a `;`, where one stands there.
#[tactic(auto, unfolding(asm_tree::specs::Scripts::semicolon))]
pub fn semicolon(tokens: &[Lexeme]) -> Result<&[Lexeme], Stop>
    ensures { Gives models (λ x. (tt, all_seen x.now)) result (read_flat scripts.semicolon (all_seen tokens.now)) }
{
    if begins(tokens, Class::Semicolon) {
        let (_, rest) = expect(tokens, Class::Semicolon)?;
        return Ok(rest);
    }
    Ok(tokens)
}

#[tactic(auto, using(crate::proofs::Opened::semicolon_flat), unfolding(asm_tree::specs::Scripts::input_step))]
fn input_step(
    alloc: Global,
    tokens: &[Lexeme],
    levels: usize,
) -> Result<(RawInputStep, &[Lexeme]), Stop>
    ensures { Gives models (λ x. (x.0, all_seen x.1.now)) result (read_in levels true scripts.input_step (all_seen tokens.now)) }
{
    let (sets, rest) = settings(alloc, tokens, levels)?;
    let (_, rest) = expect(rest, Class::Step)?;
    let rest = semicolon(rest)?;
    Ok((RawInputStep { sets }, rest))
}

#[tactic(auto, using(crate::proofs::Firsts::begins_step_is))]
fn begins_step(tokens: &[Lexeme]) -> bool
    ensures { result ≡ has (ahead models (all_seen tokens.now) 0) (firsts models scripts.input_step) }
{
    begins_among(tokens, &[Class::Set, Class::Step])
}

/// The steps in the order of the text.
fn input_steps(
    alloc: Global,
    tokens: &[Lexeme],
    levels: usize,
) -> Result<(Listed<RawInputStep>, &[Lexeme]), Stop>
    ensures { Gives models (λ x. (x.0, all_seen x.1.now)) result (read_in levels true (many scripts.input_step) (all_seen tokens.now)) }
{
    let mut items = Listed::new(alloc);
    let mut rest = tokens;
    'items: for _turn in 0..tokens.len() {
        if !begins_step(rest) {
            return Ok((items, rest));
        }
        let (item, after) = input_step(alloc, rest, levels)?;
        items.push(item)?;
        rest = after;
    }
    Ok((items, rest))
}

/// The steps of an input file at the front, where so many levels of nesting are left.
#[tactic(auto, unfolding(asm_tree::specs::Scripts::inputs))]
pub fn inputs_from(
    alloc: Global,
    tokens: &[Lexeme],
    levels: usize,
) -> Result<(RawInputs, &[Lexeme]), Stop>
    ensures { Gives models (λ x. (x.0, all_seen x.1.now)) result (read_in levels true scripts.inputs (all_seen tokens.now)) }
{
    let (steps, rest) = input_steps(alloc, tokens, levels)?;
    Ok((RawInputs { steps }, rest))
}
