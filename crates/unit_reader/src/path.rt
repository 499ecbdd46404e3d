//! Paths of imports.

ghost use Rattle.std.specs.Prelude.{[], ◌∷◌};
ghost use Rattle.asm_grammar.specs.Grammar.{Gives, both, shown, word};
ghost use Rattle.asm_grammar.proofs.Loops.{with_front};
ghost use Rattle.asm_tree.specs.Language.{models, after, words};
ghost use Rattle.asm_tree.specs.Units as units;
ghost use Rattle.asm_tree.specs.declared.class.Class.TheVariants as class_is;
ghost use Rattle.asm_body.specs.Reading.{read_flat};
ghost use Rattle.asm_body.specs.Seen.{all_seen};
ghost use Rattle.unit_reader.specs.Placed.{part_at};

use asm_body::{Lexeme, any_word, begins, expect};
use asm_grammar::Stop;
use asm_list::{Listed, Name};
use asm_tree::class::Class;
use asm_tree::unit::{RawPart, RawPath};
use std::alloc::Global;

#[tactic(auto, unfolding(asm_tree::specs::Units::ending))]
fn ending(alloc: Global, tokens: &[Lexeme]) -> Result<(Option<Name>, &[Lexeme]), Stop>
    ensures { Gives models (λ x. (x.0, all_seen x.1.now)) result (read_flat units.ending (all_seen tokens.now)) }
{
    if !begins(tokens, Class::Dot) {
        return Ok((None, tokens));
    }
    let (_, rest) = expect(tokens, Class::Dot)?;
    let (word, rest) = any_word(alloc, rest)?;
    Ok((Some(word.text), rest))
}

/// A word, and the one behind a dot where there is one.
#[tactic(auto, using(crate::proofs::Paths::named_part_is))]
fn named_part(alloc: Global, tokens: &[Lexeme]) -> Result<(u32, RawPart, &[Lexeme]), Stop>
    ensures { Gives models (λ x. ((x.0, x.1), all_seen x.2.now)) result (read_flat (shown part_at (shown units.word_part (both (word words) units.ending))) (all_seen tokens.now)) }
{
    let (word, rest) = any_word(alloc, tokens)?;
    let (ending, rest) = ending(alloc, rest)?;
    match ending {
        Some(ending) => Ok((word.at, RawPart::Dotted(word.text, ending), rest)),
        None => Ok((word.at, RawPart::Word(word.text), rest)),
    }
}

/// A part of a path, with its place.
#[tactic(auto, using(crate::proofs::Paths::part_is))]
fn part(alloc: Global, tokens: &[Lexeme]) -> Result<(u32, RawPart, &[Lexeme]), Stop>
    ensures { Gives models (λ x. ((x.0, x.1), all_seen x.2.now)) result (read_flat (shown part_at units.part) (all_seen tokens.now)) }
{
    if begins(tokens, Class::Dot) {
        let (dot, rest) = expect(tokens, Class::Dot)?;
        return Ok((dot.at, RawPart::Here, rest));
    }
    if begins(tokens, Class::To) {
        let (dots, rest) = expect(tokens, Class::To)?;
        return Ok((dots.at, RawPart::Above, rest));
    }
    named_part(alloc, tokens)
}

#[tactic(auto, using(crate::proofs::Paths::further_part_is))]
fn further_part(alloc: Global, tokens: &[Lexeme]) -> Result<(RawPart, &[Lexeme]), Stop>
    ensures { Gives models (λ x. (x.0, all_seen x.1.now)) result (read_flat (after class_is.Slash (shown (λ p. p.1) units.part)) (all_seen tokens.now)) }
{
    let (_, rest) = expect(tokens, Class::Slash)?;
    let (_, part, rest) = part(alloc, rest)?;
    Ok((part, rest))
}

/// The first part and those that follow.
fn more_parts(
    alloc: Global,
    first: RawPart,
    tokens: &[Lexeme],
) -> Result<(Listed<RawPart>, &[Lexeme]), Stop>
    ensures { Gives models (λ x. (x.0, all_seen x.1.now)) result (with_front models (first ∷ []) (read_flat units.more_parts (all_seen tokens.now))) }
{
    let mut parts = Listed::new(alloc);
    parts.push(first)?;
    let mut rest = tokens;
    'parts: for _turn in 0..tokens.len() {
        if !begins(rest, Class::Slash) {
            return Ok((parts, rest));
        }
        let (part, after) = further_part(alloc, rest)?;
        parts.push(part)?;
        rest = after;
    }
    Ok((parts, rest))
}

/// A path, at the place of its first token.
#[tactic(auto, using(crate::proofs::Paths::path_is))]
pub fn read_path(alloc: Global, tokens: &[Lexeme]) -> Result<(RawPath, &[Lexeme]), Stop>
    ensures { Gives models (λ x. (x.0, all_seen x.1.now)) result (read_flat units.path (all_seen tokens.now)) }
{
    let (at, first, rest) = part(alloc, tokens)?;
    let (parts, rest) = more_parts(alloc, first, rest)?;
    Ok((RawPath { at, parts }, rest))
}
