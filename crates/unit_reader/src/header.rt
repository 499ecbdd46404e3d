//! Imports and exports.

ghost use Rattle.std.specs.Prelude.{[], ◌∷◌};
ghost use Rattle.asm_grammar.specs.Grammar.{Gives, both, either, shown};
ghost use Rattle.asm_grammar.proofs.Loops.{with_front};
ghost use Rattle.asm_tree.specs.Language.{models, after, name, token};
ghost use Rattle.asm_tree.specs.Language as language;
ghost use Rattle.asm_tree.specs.Units as units;
ghost use Rattle.asm_tree.specs.declared.class.Class.TheVariants as class_is;
ghost use Rattle.asm_body.specs.Reading.{read_flat};
ghost use Rattle.asm_body.specs.Seen.{all_seen};

use crate::path::read_path;
use asm_body::{Lexeme, any_word, begins, expect};
use asm_grammar::Stop;
use asm_list::Listed;
use asm_tree::class::Class;
use asm_tree::term::RawName;
use asm_tree::unit::RawPath;
use std::alloc::Global;

fn import(alloc: Global, tokens: &[Lexeme]) -> Result<(RawPath, &[Lexeme]), Stop>
    ensures { Gives models (λ x. (x.0, all_seen x.1.now)) result (read_flat (after class_is.Import units.path) (all_seen tokens.now)) }
{
    let (_, rest) = expect(tokens, Class::Import)?;
    read_path(alloc, rest)
}

/// The paths that are imported.
pub fn imports(alloc: Global, tokens: &[Lexeme]) -> Result<(Listed<RawPath>, &[Lexeme]), Stop>
    ensures { Gives models (λ x. (x.0, all_seen x.1.now)) result (read_flat units.imports (all_seen tokens.now)) }
{
    let mut items = Listed::new(alloc);
    let mut rest = tokens;
    'items: for _turn in 0..tokens.len() {
        if !begins(rest, Class::Import) {
            return Ok((items, rest));
        }
        let (item, after) = import(alloc, rest)?;
        items.push(item)?;
        rest = after;
    }
    Ok((items, rest))
}

fn further_word(alloc: Global, tokens: &[Lexeme]) -> Result<(RawName, &[Lexeme]), Stop>
    ensures { Gives models (λ x. (x.0, all_seen x.1.now)) result (read_flat (after class_is.Comma (name language.words)) (all_seen tokens.now)) }
{
    let (_, rest) = expect(tokens, Class::Comma)?;
    any_word(alloc, rest)
}

/// The first word and those that follow.
fn more_words(
    alloc: Global,
    first: RawName,
    tokens: &[Lexeme],
) -> Result<(Listed<RawName>, &[Lexeme]), Stop>
    ensures { Gives models (λ x. (x.0, all_seen x.1.now)) result (with_front models (first ∷ []) (read_flat units.more_words (all_seen tokens.now))) }
{
    let mut items = Listed::new(alloc);
    items.push(first)?;
    let mut rest = tokens;
    'items: for _turn in 0..tokens.len() {
        if !begins(rest, Class::Comma) {
            return Ok((items, rest));
        }
        let (item, after) = further_word(alloc, rest)?;
        items.push(item)?;
        rest = after;
    }
    Ok((items, rest))
}

fn exported(alloc: Global, tokens: &[Lexeme]) -> Result<(Listed<RawName>, &[Lexeme]), Stop>
    ensures { Gives models (λ x. (x.0, all_seen x.1.now)) result (read_flat (either (shown (λ t. []) (token class_is.Times)) (shown (λ p. p.0 ∷ p.1) (both (name language.words) units.more_words))) (all_seen tokens.now)) }
{
    if begins(tokens, Class::Times) {
        let (_, rest) = expect(tokens, Class::Times)?;
        return Ok((Listed::new(alloc), rest));
    }
    let (first, rest) = any_word(alloc, tokens)?;
    more_words(alloc, first, rest)
}

/// What is exported, if anything is said of it.
#[tactic(auto, unfolding(asm_tree::specs::Units::export))]
pub fn export(alloc: Global, tokens: &[Lexeme]) -> Result<(Listed<RawName>, &[Lexeme]), Stop>
    ensures { Gives models (λ x. (x.0, all_seen x.1.now)) result (read_flat units.export (all_seen tokens.now)) }
{
    if !begins(tokens, Class::Export) {
        return Ok((Listed::new(alloc), tokens));
    }
    let (_, rest) = expect(tokens, Class::Export)?;
    exported(alloc, rest)
}
