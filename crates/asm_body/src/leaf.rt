//! Terms of one token.

ghost use Rattle.std.specs.Prelude.{◌≡◌, [], ◌∷◌, false, Ok};
ghost use Rattle.asm_grammar.specs.Grammar.{Gives, and_then, word_at};
ghost use Rattle.asm_tree.specs.Language.{models};
ghost use Rattle.asm_tree.specs.Terms as terms;
ghost use Rattle.asm_tree.specs.Words.{kind_of};
ghost use Rattle.asm_tree.specs.declared.class.Class.TheVariants as class_is;
ghost use Rattle.asm_tree.specs.declared.term.RawTermKind.TheVariants as term_kind;
ghost use Rattle.asm_body.specs.Phrases.{seen_phrase};
ghost use Rattle.asm_body.specs.Reading.{constant_at, read_flat};
ghost use Rattle.asm_body.specs.Seen.{all_seen};

use crate::lexeme::Lexeme;
use crate::phrase::{Phrase, phrase_at};
use crate::reading::{begins, expect, number};
use asm_grammar::Stop;
use asm_list::Name;
use asm_tree::class::Class;
use asm_tree::term::RawTermKind;
use std::alloc::Global;

/// A term that is one token of the class.
fn constant(
    alloc: Global,
    tokens: &[Lexeme],
    wanted: Class,
    kind: RawTermKind,
) -> Result<(Phrase<'_>, &[Lexeme]), Stop>
    ensures { Gives models (λ x. (seen_phrase x.0, all_seen x.1.now)) result (constant_at wanted kind (all_seen tokens.now)) }
{
    let (token, rest) = expect(tokens, wanted)?;
    Ok((phrase_at(alloc, token, kind)?, rest))
}

fn number_term(alloc: Global, tokens: &[Lexeme]) -> Result<(Phrase<'_>, &[Lexeme]), Stop>
    ensures { Gives models (λ x. (seen_phrase x.0, all_seen x.1.now)) result (and_then models (word_at models (kind_of class_is.Number ∷ []) (all_seen tokens.now)) (λ t r. Ok (terms.number_at t, r))) }
{
    let (token, value, rest) = number(tokens)?;
    Ok((phrase_at(alloc, token, RawTermKind::Number(value))?, rest))
}

fn variable(alloc: Global, tokens: &[Lexeme]) -> Result<(Phrase<'_>, &[Lexeme]), Stop>
    ensures { Gives models (λ x. (seen_phrase x.0, all_seen x.1.now)) result (and_then models (word_at models (kind_of class_is.Variable ∷ []) (all_seen tokens.now)) (λ t r. Ok (terms.phrase_at t (term_kind.Variable t.text), r))) }
{
    let (token, rest) = expect(tokens, Class::Variable)?;
    let name = Name::of(alloc, token.text.text())?;
    Ok((phrase_at(alloc, token, RawTermKind::Variable(name))?, rest))
}

fn element(alloc: Global, tokens: &[Lexeme]) -> Result<(Phrase<'_>, &[Lexeme]), Stop>
    ensures { Gives models (λ x. (seen_phrase x.0, all_seen x.1.now)) result (and_then models (word_at models (kind_of class_is.ElementName ∷ []) (all_seen tokens.now)) (λ t r. Ok (terms.phrase_at t (term_kind.Element t.text), r))) }
{
    let (token, rest) = expect(tokens, Class::ElementName)?;
    let name = Name::of(alloc, token.text.text())?;
    Ok((phrase_at(alloc, token, RawTermKind::Element(name))?, rest))
}

#[tactic(auto, unfolding(asm_tree::specs::Terms::leaf))]
pub fn leaf(alloc: Global, tokens: &[Lexeme]) -> Result<(Phrase<'_>, &[Lexeme]), Stop>
    ensures { Gives models (λ x. (seen_phrase x.0, all_seen x.1.now)) result (read_flat (terms.leaf false) (all_seen tokens.now)) }
{
    if begins(tokens, Class::Number) {
        return number_term(alloc, tokens);
    }
    if begins(tokens, Class::True) {
        return constant(alloc, tokens, Class::True, RawTermKind::Truth(true));
    }
    if begins(tokens, Class::False) {
        return constant(alloc, tokens, Class::False, RawTermKind::Truth(false));
    }
    if begins(tokens, Class::Undef) {
        return constant(alloc, tokens, Class::Undef, RawTermKind::Undef);
    }
    if begins(tokens, Class::Variable) {
        return variable(alloc, tokens);
    }
    element(alloc, tokens)
}
