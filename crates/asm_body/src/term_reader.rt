//! Operands and terms: the readers of terms stand on this reader, with fewer levels.

ghost use Rattle.asm_grammar.specs.Grammar.{Gives};
ghost use Rattle.asm_tree.specs.Language.{models};
ghost use Rattle.asm_tree.specs.Terms as terms;
ghost use Rattle.asm_body.specs.Levels as levels_of;
ghost use Rattle.asm_body.specs.Phrases.{seen_phrase};
ghost use Rattle.asm_body.specs.Reading.{read_in};
ghost use Rattle.asm_body.specs.Seen.{all_seen};

use crate::level::Level;
use crate::lexeme::Lexeme;
use crate::phrase::Phrase;
use crate::terms::Terms;
use asm_grammar::Stop;
use asm_list::Boxed;
use asm_tree::term::RawTerm;
use std::alloc::Global;

/// The operand of the level at the front, where so many levels of nesting are left.
pub fn operand(
    alloc: Global,
    level: Level,
    tokens: &[Lexeme],
    levels: usize,
    script: bool,
) -> Result<(Phrase<'_>, &[Lexeme]), Stop>
    ensures { Gives models (λ x. (seen_phrase x.0, all_seen x.1.now)) result (read_in levels script (levels_of.operand script level) (all_seen tokens.now)) }
{
    let terms = Terms {
        alloc,
        script,
        below: levels,
        operand,
    };
    match level {
        Level::Equivalence => terms.equivalence(tokens, levels),
        Level::Implication => terms.implication(tokens, levels),
        Level::Conjunction => terms.conjunction(tokens, levels),
        Level::Negation => terms.negation(tokens, levels),
        Level::Sum => terms.sum(tokens, levels),
        Level::Product => terms.product(tokens, levels),
        Level::Opposite => terms.opposite(tokens, levels),
    }
}

/// The term at the front, where so many levels of nesting are left, in a box. Where `script` is true, the words of
/// scenarios are reserved.
#[tactic(auto, unfolding(asm_tree::specs::Terms::term))]
pub fn boxed_term(
    alloc: Global,
    tokens: &[Lexeme],
    levels: usize,
    script: bool,
) -> Result<(Boxed<RawTerm>, &[Lexeme]), Stop>
    ensures { Gives models (λ x. (x.0, all_seen x.1.now)) result (read_in levels script (terms.term script) (all_seen tokens.now)) }
{
    let (phrase, rest) = operand(alloc, Level::Equivalence, tokens, levels, script)?;
    Ok((phrase.term, rest))
}

/// The term at the front, where so many levels of nesting are left. Where `script` is true, the words of scenarios are
/// reserved.
pub fn read_term(
    alloc: Global,
    tokens: &[Lexeme],
    levels: usize,
    script: bool,
) -> Result<(RawTerm, &[Lexeme]), Stop>
    ensures { Gives models (λ x. (x.0, all_seen x.1.now)) result (read_in levels script (terms.term script) (all_seen tokens.now)) }
{
    let (term, rest) = boxed_term(alloc, tokens, levels, script)?;
    Ok((term.into_inner(), rest))
}
