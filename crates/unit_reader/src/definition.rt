//! Definitions.

ghost use Rattle.std.specs.Prelude.{◌≡◌, [], ◌∷◌, false};
ghost use Rattle.asm_grammar.specs.Grammar.{Gives, shown, has, ahead, firsts};
ghost use Rattle.asm_grammar.proofs.Loops.{with_front};
ghost use Rattle.asm_tree.specs.Language.{models, after, name};
ghost use Rattle.asm_tree.specs.Language as language;
ghost use Rattle.asm_tree.specs.Words.{kind_of};
ghost use Rattle.asm_tree.specs.Units as units;
ghost use Rattle.asm_tree.specs.declared.unit.RawDefinition.TheVariants as definition_of;
ghost use Rattle.asm_tree.specs.declared.class.Class.TheVariants as class_is;
ghost use Rattle.asm_body.specs.Reading.{read_flat, read_in};
ghost use Rattle.asm_body.specs.Seen.{all_seen};

use crate::domain::domain;
use asm_body::{
    Lexeme, begins, begins_among, binders, enter, expect, functions, name, read_rule, read_term,
};
use asm_grammar::Stop;
use asm_list::Listed;
use asm_tree::class::Class;
use asm_tree::term::{RawBinder, RawName};
use asm_tree::unit::{RawDefinition, RawFunction, RawInvariant};
use std::alloc::Global;

/// Parameters in parentheses, if there are any.
#[tactic(auto, using(crate::proofs::Opened::parameters_is, crate::proofs::Opened::binders_flat), unfolding(asm_tree::specs::Rules::body))]
fn parameters(
    alloc: Global,
    tokens: &[Lexeme],
    levels: usize,
) -> Result<(Listed<RawBinder>, &[Lexeme]), Stop>
    ensures { Gives models (λ x. (x.0, all_seen x.1.now)) result (read_in levels false units.parameters (all_seen tokens.now)) }
{
    if !begins(tokens, Class::Open) {
        return Ok((Listed::new(alloc), tokens));
    }
    let (_, _levels, rest) = enter(tokens, Class::Open, levels)?;
    let (binders, rest) = binders(alloc, rest)?;
    let (_, rest) = expect(rest, Class::Close)?;
    Ok((binders, rest))
}

/// What a function is at its parameters.
#[tactic(auto, unfolding(asm_tree::specs::Units::function_body))]
pub fn function_body(
    alloc: Global,
    tokens: &[Lexeme],
    levels: usize,
) -> Result<(RawFunction, &[Lexeme]), Stop>
    ensures { Gives models (λ x. (x.0, all_seen x.1.now)) result (read_in levels false units.function_body (all_seen tokens.now)) }
{
    let (_, rest) = expect(tokens, Class::Function)?;
    let (name, rest) = name(alloc, rest, functions(false))?;
    let (parameters, rest) = parameters(alloc, rest, levels)?;
    let (_, rest) = expect(rest, Class::Equal)?;
    let (term, rest) = read_term(alloc, rest, levels, false)?;
    Ok((
        RawFunction {
            name,
            parameters,
            term,
        },
        rest,
    ))
}

#[tactic(auto, unfolding(asm_tree::specs::Units::plain_macro))]
fn plain_macro(
    alloc: Global,
    tokens: &[Lexeme],
    levels: usize,
) -> Result<(RawDefinition, &[Lexeme]), Stop>
    ensures { Gives models (λ x. (x.0, all_seen x.1.now)) result (read_in levels false units.plain_macro (all_seen tokens.now)) }
{
    let (_, rest) = expect(tokens, Class::Rule)?;
    let (name, rest) = name(alloc, rest, &[Class::RuleName])?;
    let (parameters, rest) = parameters(alloc, rest, levels)?;
    let (_, rest) = expect(rest, Class::Equal)?;
    let (rule, rest) = read_rule(alloc, rest, levels, false)?;
    Ok((RawDefinition::Rule(name, parameters, rule), rest))
}

#[tactic(auto, using(crate::proofs::Opened::macro_is))]
fn macro_rule(
    alloc: Global,
    tokens: &[Lexeme],
    levels: usize,
) -> Result<(RawDefinition, &[Lexeme]), Stop>
    ensures { Gives models (λ x. (x.0, all_seen x.1.now)) result (read_in levels false units.macro (all_seen tokens.now)) }
{
    if begins(tokens, Class::Macro) {
        let (_, rest) = expect(tokens, Class::Macro)?;
        return plain_macro(alloc, rest, levels);
    }
    plain_macro(alloc, tokens, levels)
}

#[tactic(auto, unfolding(asm_tree::specs::Units::invariant_name))]
fn invariant_name(alloc: Global, tokens: &[Lexeme]) -> Result<(Option<RawName>, &[Lexeme]), Stop>
    ensures { Gives models (λ x. (x.0, all_seen x.1.now)) result (read_flat units.invariant_name (all_seen tokens.now)) }
{
    if !begins(tokens, Class::InvariantName) {
        return Ok((None, tokens));
    }
    let (name, rest) = name(alloc, tokens, &[Class::InvariantName])?;
    Ok((Some(name), rest))
}

/// A word that isn't reserved.
fn free_word(alloc: Global, tokens: &[Lexeme]) -> Result<(RawName, &[Lexeme]), Stop>
    ensures { Gives models (λ x. (x.0, all_seen x.1.now)) result (read_flat (name language.free_words) (all_seen tokens.now)) }
{
    name(
        alloc,
        tokens,
        &[
            Class::RuleName,
            Class::InvariantName,
            Class::FunctionName,
            Class::ElementName,
            Class::CapitalName,
            Class::Scenario,
            Class::Load,
            Class::Set,
            Class::Step,
            Class::Until,
            Class::Check,
            Class::Exec,
            Class::Begin,
            Class::End,
            Class::ExecBlock,
        ],
    )
}

fn further_over(alloc: Global, tokens: &[Lexeme]) -> Result<(RawName, &[Lexeme]), Stop>
    ensures { Gives models (λ x. (x.0, all_seen x.1.now)) result (read_flat (after class_is.Comma (name language.free_words)) (all_seen tokens.now)) }
{
    let (_, rest) = expect(tokens, Class::Comma)?;
    free_word(alloc, rest)
}

/// The first name and those that follow.
fn more_over(
    alloc: Global,
    first: RawName,
    tokens: &[Lexeme],
) -> Result<(Listed<RawName>, &[Lexeme]), Stop>
    ensures { Gives models (λ x. (x.0, all_seen x.1.now)) result (with_front models (first ∷ []) (read_flat units.more_over (all_seen tokens.now))) }
{
    let mut items = Listed::new(alloc);
    items.push(first)?;
    let mut rest = tokens;
    'items: for _turn in 0..tokens.len() {
        if !begins(rest, Class::Comma) {
            return Ok((items, rest));
        }
        let (item, after) = further_over(alloc, rest)?;
        items.push(item)?;
        rest = after;
    }
    Ok((items, rest))
}

#[tactic(auto, using(crate::proofs::Opened::invariant_parts), unfolding(asm_tree::specs::Units::invariant))]
fn invariant(
    alloc: Global,
    tokens: &[Lexeme],
    levels: usize,
) -> Result<(RawDefinition, &[Lexeme]), Stop>
    ensures { Gives models (λ x. (x.0, all_seen x.1.now)) result (read_in levels false units.invariant (all_seen tokens.now)) }
{
    let (word, rest) = expect(tokens, Class::Invariant)?;
    let (name, rest) = invariant_name(alloc, rest)?;
    let (_, rest) = expect(rest, Class::Over)?;
    let (first, rest) = free_word(alloc, rest)?;
    let (over, rest) = more_over(alloc, first, rest)?;
    let (_, rest) = expect(rest, Class::Colon)?;
    let (term, rest) = read_term(alloc, rest, levels, false)?;
    Ok((
        RawDefinition::Invariant(RawInvariant {
            at: word.at,
            name,
            over,
            term,
        }),
        rest,
    ))
}

fn function(
    alloc: Global,
    tokens: &[Lexeme],
    levels: usize,
) -> Result<(RawDefinition, &[Lexeme]), Stop>
    ensures { Gives models (λ x. (x.0, all_seen x.1.now)) result (read_in levels false (shown definition_of.Function units.function_body) (all_seen tokens.now)) }
{
    let (function, rest) = function_body(alloc, tokens, levels)?;
    Ok((RawDefinition::Function(function), rest))
}

/// Whether the first token begins a macro rule.
fn begins_rule(tokens: &[Lexeme]) -> bool
    ensures { result ≡ has (ahead models (all_seen tokens.now) 0) (kind_of class_is.Macro ∷ kind_of class_is.Rule ∷ []) }
{
    begins_among(tokens, &[Class::Macro, Class::Rule])
}

#[tactic(auto, using(crate::proofs::Opened::definition_is))]
fn definition(
    alloc: Global,
    tokens: &[Lexeme],
    levels: usize,
) -> Result<(RawDefinition, &[Lexeme]), Stop>
    ensures { Gives models (λ x. (x.0, all_seen x.1.now)) result (read_in levels false units.definition (all_seen tokens.now)) }
{
    if begins(tokens, Class::Domain) {
        return domain(alloc, tokens);
    }
    if begins(tokens, Class::Function) {
        return function(alloc, tokens, levels);
    }
    if begins_rule(tokens) {
        return macro_rule(alloc, tokens, levels);
    }
    invariant(alloc, tokens, levels)
}

#[tactic(auto, using(crate::proofs::Firsts::begins_definition_is))]
fn begins_definition(tokens: &[Lexeme]) -> bool
    ensures { result ≡ has (ahead models (all_seen tokens.now) 0) (firsts models units.definition) }
{
    begins_among(
        tokens,
        &[
            Class::Domain,
            Class::Function,
            Class::Macro,
            Class::Rule,
            Class::Invariant,
        ],
    )
}

/// The definitions in the order of the text.
pub fn definitions(
    alloc: Global,
    tokens: &[Lexeme],
    levels: usize,
) -> Result<(Listed<RawDefinition>, &[Lexeme]), Stop>
    ensures { Gives models (λ x. (x.0, all_seen x.1.now)) result (read_in levels false units.definitions (all_seen tokens.now)) }
{
    let mut items = Listed::new(alloc);
    let mut rest = tokens;
    'items: for _turn in 0..tokens.len() {
        if !begins_definition(rest) {
            return Ok((items, rest));
        }
        let (item, after) = definition(alloc, rest, levels)?;
        items.push(item)?;
        rest = after;
    }
    Ok((items, rest))
}
