//! Constants of settings.

ghost use Rattle.std.specs.Prelude.{[], ◌∷◌, true};
ghost use Rattle.asm_grammar.specs.Grammar.{Gives};
ghost use Rattle.asm_grammar.proofs.Loops.{with_front};
ghost use Rattle.asm_tree.specs.Language.{models, after};
ghost use Rattle.asm_tree.specs.Rules as rules;
ghost use Rattle.asm_tree.specs.Scripts as scripts;
ghost use Rattle.asm_tree.specs.declared.class.Class.TheVariants as class_is;
ghost use Rattle.asm_body.specs.Reading.{read_flat, read_in};
ghost use Rattle.asm_body.specs.Seen.{all_seen};

use asm_body::{Lexeme, begins, begins_among, enter, expect, functions, name};
use asm_grammar::Stop;
use asm_list::Listed;
use asm_tree::class::Class;
use asm_tree::script::RawConstant;
use std::alloc::Global;
use unit_reader::int;

/// One constant.
#[tactic(auto, using(crate::proofs::Opened::constant_is))]
pub fn constant(alloc: Global, tokens: &[Lexeme]) -> Result<(RawConstant, &[Lexeme]), Stop>
    ensures { Gives models (λ x. (x.0, all_seen x.1.now)) result (read_flat (rules.constant true) (all_seen tokens.now)) }
{
    if begins_among(tokens, &[Class::Minus, Class::Number]) {
        let (int, rest) = int(alloc, tokens)?;
        return Ok((RawConstant::Int(int), rest));
    }
    if begins(tokens, Class::True) {
        let (_, rest) = expect(tokens, Class::True)?;
        return Ok((RawConstant::Truth(true), rest));
    }
    if begins(tokens, Class::False) {
        let (_, rest) = expect(tokens, Class::False)?;
        return Ok((RawConstant::Truth(false), rest));
    }
    if begins(tokens, Class::ElementName) {
        let (element, rest) = name(alloc, tokens, &[Class::ElementName])?;
        return Ok((RawConstant::Element(element), rest));
    }
    let (constant, rest) = name(alloc, tokens, functions(true))?;
    Ok((RawConstant::Constant(constant), rest))
}

fn further_constant(alloc: Global, tokens: &[Lexeme]) -> Result<(RawConstant, &[Lexeme]), Stop>
    ensures { Gives models (λ x. (x.0, all_seen x.1.now)) result (read_flat (after class_is.Comma (rules.constant true)) (all_seen tokens.now)) }
{
    let (_, rest) = expect(tokens, Class::Comma)?;
    constant(alloc, rest)
}

/// The first constant and those that follow.
fn more_constants(
    alloc: Global,
    first: RawConstant,
    tokens: &[Lexeme],
) -> Result<(Listed<RawConstant>, &[Lexeme]), Stop>
    ensures { Gives models (λ x. (x.0, all_seen x.1.now)) result (with_front models (first ∷ []) (read_flat (rules.more_constants true) (all_seen tokens.now))) }
{
    let mut items = Listed::new(alloc);
    items.push(first)?;
    let mut rest = tokens;
    'items: for _turn in 0..tokens.len() {
        if !begins(rest, Class::Comma) {
            return Ok((items, rest));
        }
        let (item, after) = further_constant(alloc, rest)?;
        items.push(item)?;
        rest = after;
    }
    Ok((items, rest))
}

/// Constants in parentheses, if there are any.
#[tactic(auto, using(crate::proofs::Opened::constants_is, crate::proofs::Opened::constant_parts), unfolding(asm_tree::specs::Rules::body))]
pub fn constants(
    alloc: Global,
    tokens: &[Lexeme],
    levels: usize,
) -> Result<(Listed<RawConstant>, &[Lexeme]), Stop>
    ensures { Gives models (λ x. (x.0, all_seen x.1.now)) result (read_in levels true scripts.constants (all_seen tokens.now)) }
{
    if !begins(tokens, Class::Open) {
        return Ok((Listed::new(alloc), tokens));
    }
    let (_, _levels, rest) = enter(tokens, Class::Open, levels)?;
    let (first, rest) = constant(alloc, rest)?;
    let (constants, rest) = more_constants(alloc, first, rest)?;
    let (_, rest) = expect(rest, Class::Close)?;
    Ok((constants, rest))
}
