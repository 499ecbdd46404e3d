//! Definitions of domains by numbers.

ghost use Rattle.std.specs.Prelude.{[], ◌∷◌};
ghost use Rattle.asm_grammar.specs.Grammar.{Gives, both, shown, word};
ghost use Rattle.asm_grammar.proofs.Loops.{with_front};
ghost use Rattle.asm_tree.specs.Language.{models, after, before};
ghost use Rattle.asm_tree.specs.Words.{kind_of};
ghost use Rattle.asm_tree.specs.Units as units;
ghost use Rattle.asm_tree.specs.Rules as rules;
ghost use Rattle.asm_tree.specs.declared.class.Class.TheVariants as class_is;
ghost use Rattle.asm_body.specs.Reading.{read_flat};
ghost use Rattle.asm_body.specs.Seen.{all_seen};

use asm_body::{Lexeme, begins, begins_among, domains, expect, expect_among, name, number};
use asm_grammar::Stop;
use asm_list::{Listed, Name};
use asm_tree::class::Class;
use asm_tree::term::RawName;
use asm_tree::unit::{RawDefinition, RawInt};
use std::alloc::Global;

/// A whole number as it is written, with its sign.
#[tactic(auto, unfolding(asm_tree::specs::Rules::int))]
pub fn int(alloc: Global, tokens: &[Lexeme]) -> Result<(RawInt, &[Lexeme]), Stop>
    ensures { Gives models (λ x. (x.0, all_seen x.1.now)) result (read_flat rules.int (all_seen tokens.now)) }
{
    if begins(tokens, Class::Minus) {
        let (minus, rest) = expect(tokens, Class::Minus)?;
        let (_, value, rest) = number(rest)?;
        let int = RawInt {
            at: minus.at,
            first: Name::of(alloc, minus.text.text())?,
            value: -i64::from(value),
        };
        return Ok((int, rest));
    }
    let (token, value, rest) = number(tokens)?;
    let int = RawInt {
        at: token.at,
        first: Name::of(alloc, token.text.text())?,
        value: i64::from(value),
    };
    Ok((int, rest))
}

fn further_int(alloc: Global, tokens: &[Lexeme]) -> Result<(RawInt, &[Lexeme]), Stop>
    ensures { Gives models (λ x. (x.0, all_seen x.1.now)) result (read_flat (after class_is.Comma rules.int) (all_seen tokens.now)) }
{
    let (_, rest) = expect(tokens, Class::Comma)?;
    int(alloc, rest)
}

/// The first number and those that follow.
fn more_ints(
    alloc: Global,
    first: RawInt,
    tokens: &[Lexeme],
) -> Result<(Listed<RawInt>, &[Lexeme]), Stop>
    ensures { Gives models (λ x. (x.0, all_seen x.1.now)) result (with_front models (first ∷ []) (read_flat units.more_ints (all_seen tokens.now))) }
{
    let mut items = Listed::new(alloc);
    items.push(first)?;
    let mut rest = tokens;
    'items: for _turn in 0..tokens.len() {
        if !begins(rest, Class::Comma) {
            return Ok((items, rest));
        }
        let (item, after) = further_int(alloc, rest)?;
        items.push(item)?;
        rest = after;
    }
    Ok((items, rest))
}

/// The last number of a range, and the brace behind it.
fn last_int(alloc: Global, tokens: &[Lexeme]) -> Result<(RawInt, &[Lexeme]), Stop>
    ensures { Gives models (λ x. (x.0, all_seen x.1.now)) result (read_flat (before (shown (λ p. p.1) (both (word (kind_of class_is.To ∷ kind_of class_is.Colon ∷ [])) rules.int)) class_is.CloseBrace) (all_seen tokens.now)) }
{
    let (_, rest) = expect_among(tokens, &[Class::To, Class::Colon])?;
    let (last, rest) = int(alloc, rest)?;
    let (_, rest) = expect(rest, Class::CloseBrace)?;
    Ok((last, rest))
}

/// The first number and those that follow, and the brace behind them.
#[tactic(auto, using(crate::proofs::Domains::listed_is))]
fn listed_ints(
    alloc: Global,
    first: RawInt,
    tokens: &[Lexeme],
) -> Result<(Listed<RawInt>, &[Lexeme]), Stop>
    ensures { Gives models (λ x. (x.0, all_seen x.1.now)) result (with_front models (first ∷ []) (read_flat (before units.more_ints class_is.CloseBrace) (all_seen tokens.now))) }
{
    let (ints, rest) = more_ints(alloc, first, tokens)?;
    let (_, rest) = expect(rest, Class::CloseBrace)?;
    Ok((ints, rest))
}

/// What a domain of this name is, whose first number is this one, up to the brace behind its numbers.
#[tactic(auto, using(crate::proofs::Domains::numbers_is))]
fn numbers(
    alloc: Global,
    domain: RawName,
    first: RawInt,
    tokens: &[Lexeme],
) -> Result<(RawDefinition, &[Lexeme]), Stop>
    ensures { Gives models (λ x. (x.0, all_seen x.1.now)) result (read_flat (shown (units.domain_from domain first) (before units.numbers class_is.CloseBrace)) (all_seen tokens.now)) }
{
    if begins_among(tokens, &[Class::To, Class::Colon]) {
        let (last, rest) = last_int(alloc, tokens)?;
        return Ok((RawDefinition::Range(domain, first, last), rest));
    }
    let (ints, rest) = listed_ints(alloc, first, tokens)?;
    Ok((RawDefinition::List(domain, ints), rest))
}

/// A domain by its numbers.
#[tactic(auto, using(crate::proofs::Domains::domain_is))]
pub fn domain(alloc: Global, tokens: &[Lexeme]) -> Result<(RawDefinition, &[Lexeme]), Stop>
    ensures { Gives models (λ x. (x.0, all_seen x.1.now)) result (read_flat units.domain (all_seen tokens.now)) }
{
    let (_, rest) = expect(tokens, Class::Domain)?;
    let (domain, rest) = name(alloc, rest, domains())?;
    let (_, rest) = expect(rest, Class::Equal)?;
    let (_, rest) = expect(rest, Class::OpenBrace)?;
    let (first, rest) = int(alloc, rest)?;
    numbers(alloc, domain, first, rest)
}
