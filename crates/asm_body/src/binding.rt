//! Variables with the domains that they range over.

ghost use Rattle.std.specs.Prelude.{◌≡◌, [], ◌∷◌, false};
ghost use Rattle.asm_grammar.specs.Grammar.{Gives};
ghost use Rattle.asm_grammar.proofs.Loops.{with_front};
ghost use Rattle.asm_tree.specs.Language.{models, after};
ghost use Rattle.asm_tree.specs.Terms as terms;
ghost use Rattle.asm_tree.specs.declared.class.Class.TheVariants as class_is;
ghost use Rattle.asm_body.specs.Reading.{read_flat};
ghost use Rattle.asm_body.specs.Seen.{all_seen};

use crate::lexeme::Lexeme;
use crate::reading::{begins, expect, name};
use crate::sorts::domains;
use asm_grammar::Stop;
use asm_list::Listed;
use asm_tree::class::Class;
use asm_tree::term::RawBinder;
use std::alloc::Global;

#[tactic(auto, unfolding(asm_tree::specs::Terms::binder))]
fn binder(alloc: Global, tokens: &[Lexeme]) -> Result<(RawBinder, &[Lexeme]), Stop>
    ensures { Gives models (λ x. (x.0, all_seen x.1.now)) result (read_flat (terms.binder false) (all_seen tokens.now)) }
{
    let (variable, rest) = name(alloc, tokens, &[Class::Variable])?;
    let (_, rest) = expect(rest, Class::In)?;
    let (domain, rest) = name(alloc, rest, domains())?;
    Ok((RawBinder { variable, domain }, rest))
}

fn further_binder(alloc: Global, tokens: &[Lexeme]) -> Result<(RawBinder, &[Lexeme]), Stop>
    ensures { Gives models (λ x. (x.0, all_seen x.1.now)) result (read_flat (after class_is.Comma (terms.binder false)) (all_seen tokens.now)) }
{
    let (_, rest) = expect(tokens, Class::Comma)?;
    binder(alloc, rest)
}

/// The first one and those that follow.
fn more_binders(
    alloc: Global,
    first: RawBinder,
    tokens: &[Lexeme],
) -> Result<(Listed<RawBinder>, &[Lexeme]), Stop>
    ensures { Gives models (λ x. (x.0, all_seen x.1.now)) result (with_front models (first ∷ []) (read_flat (terms.more_binders false) (all_seen tokens.now))) }
{
    let mut binders = Listed::new(alloc);
    binders.push(first)?;
    let mut rest = tokens;
    'binders: for _turn in 0..tokens.len() {
        if !begins(rest, Class::Comma) {
            return Ok((binders, rest));
        }
        let (binder, after) = further_binder(alloc, rest)?;
        binders.push(binder)?;
        rest = after;
    }
    Ok((binders, rest))
}

#[tactic(auto, unfolding(asm_tree::specs::Terms::binders))]
pub fn binders(alloc: Global, tokens: &[Lexeme]) -> Result<(Listed<RawBinder>, &[Lexeme]), Stop>
    ensures { Gives models (λ x. (x.0, all_seen x.1.now)) result (read_flat (terms.binders false) (all_seen tokens.now)) }
{
    let (first, rest) = binder(alloc, tokens)?;
    more_binders(alloc, first, rest)
}

/// Whether the word `unique` is there, and what follows.
#[tactic(auto, unfolding(asm_tree::specs::Terms::unique))]
pub fn unique(tokens: &[Lexeme]) -> Result<(bool, &[Lexeme]), Stop>
    ensures { Gives models (λ x. (x.0, all_seen x.1.now)) result (read_flat (terms.unique false) (all_seen tokens.now)) }
{
    if !begins(tokens, Class::Unique) {
        return Ok((false, tokens));
    }
    let (_, rest) = expect(tokens, Class::Unique)?;
    Ok((true, rest))
}
