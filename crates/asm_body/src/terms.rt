//! Terms and lists of them inside other terms and rules.

ghost use Rattle.std.specs.Prelude.{◌≡◌, ◌<◌, ◌≤◌, [], ◌∷◌, Some, None, Ok};
ghost use Rattle.asm_grammar.specs.Grammar.{Gives, nothing, either, shown};
ghost use Rattle.asm_grammar.proofs.Loops.{with_front};
ghost use Rattle.asm_tree.specs.Language.{models, after, Binds};
ghost use Rattle.asm_tree.specs.Terms as terms;
ghost use Rattle.asm_tree.specs.declared.class.Class.TheVariants as class_is;
ghost use Rattle.asm_body.specs.Levels as levels_of;
ghost use Rattle.asm_body.specs.Nests.{Nests};
ghost use Rattle.asm_body.specs.Phrases.{seen_phrase};
ghost use Rattle.asm_body.specs.Reading.{opened_in, read_in};
ghost use Rattle.asm_body.specs.Seen.{seen, all_seen};

use crate::level::Level;
use crate::lexeme::Lexeme;
use crate::phrase::Phrase;
use crate::reading::{begins, expect};
use crate::starts::begins_term;
use asm_grammar::Stop;
use asm_list::{Boxed, Listed};
use asm_tree::class::Class;
use asm_tree::term::RawTerm;
use std::alloc::Global;

/// The readers of terms, over a function that reads operands with fewer levels than `below`.
#[derive(Clone, Copy)]
pub struct Terms<F> {
    pub alloc: Global,
    pub script: bool,
    pub below: usize,
    pub operand: F,
}

impl<F: Fn(Global, Level, &[Lexeme], usize, bool) -> Result<(Phrase<'_>, &[Lexeme]), Stop>> Terms<
    F,
> {
    pub fn operand<'t>(
        &self,
        level: Level,
        tokens: &'t [Lexeme],
        levels: usize,
    ) -> Result<(Phrase<'t>, &'t [Lexeme]), Stop>
        requires nests { Nests self.now.below self.now.script (F.pre self.now.operand) (F.post self.now.operand) }
        requires less { levels < self.now.below }
        ensures { Gives models (λ x. (seen_phrase x.0, all_seen x.1.now)) result (read_in levels self.now.script (levels_of.operand self.now.script level) (all_seen tokens.now)) }
    {
        (self.operand)(self.alloc, level, tokens, levels, self.script)
    }

    #[tactic(auto, unfolding(asm_tree::specs::Terms::term))]
    pub fn term<'t>(
        &self,
        tokens: &'t [Lexeme],
        levels: usize,
    ) -> Result<(RawTerm, &'t [Lexeme]), Stop>
        requires nests { Nests self.now.below self.now.script (F.pre self.now.operand) (F.post self.now.operand) }
        requires less { levels < self.now.below }
        ensures { Gives models (λ x. (x.0, all_seen x.1.now)) result (read_in levels self.now.script (terms.term self.now.script) (all_seen tokens.now)) }
    {
        let (phrase, rest) = self.operand(Level::Equivalence, tokens, levels)?;
        Ok((phrase.term.into_inner(), rest))
    }

    /// A term in a box, so that it is let go by one call.
    #[tactic(auto, unfolding(asm_tree::specs::Terms::term))]
    pub fn boxed_term<'t>(
        &self,
        tokens: &'t [Lexeme],
        levels: usize,
    ) -> Result<(Boxed<RawTerm>, &'t [Lexeme]), Stop>
        requires nests { Nests self.now.below self.now.script (F.pre self.now.operand) (F.post self.now.operand) }
        requires less { levels < self.now.below }
        ensures { Gives models (λ x. (x.0, all_seen x.1.now)) result (read_in levels self.now.script (terms.term self.now.script) (all_seen tokens.now)) }
    {
        let (phrase, rest) = self.operand(Level::Equivalence, tokens, levels)?;
        Ok((phrase.term, rest))
    }

    /// A term behind this word.
    pub fn term_after<'t>(
        &self,
        word: Class,
        tokens: &'t [Lexeme],
        levels: usize,
    ) -> Result<(RawTerm, &'t [Lexeme]), Stop>
        requires nests { Nests self.now.below self.now.script (F.pre self.now.operand) (F.post self.now.operand) }
        requires less { levels < self.now.below }
        ensures { Gives models (λ x. (x.0, all_seen x.1.now)) result (read_in levels self.now.script (after word (terms.term self.now.script)) (all_seen tokens.now)) }
    {
        let (_, rest) = expect(tokens, word)?;
        self.term(rest, levels)
    }

    /// A term behind this word, if the word is there.
    pub fn optional_term<'t>(
        &self,
        word: Class,
        tokens: &'t [Lexeme],
        levels: usize,
    ) -> Result<(Option<Boxed<RawTerm>>, &'t [Lexeme]), Stop>
        requires nests { Nests self.now.below self.now.script (F.pre self.now.operand) (F.post self.now.operand) }
        requires less { levels < self.now.below }
        ensures { Gives models (λ x. (x.0, all_seen x.1.now)) result (read_in levels self.now.script (either (shown Some (after word (terms.term self.now.script))) (nothing [] None)) (all_seen tokens.now)) }
    {
        if !begins(tokens, word) {
            return Ok((None, tokens));
        }
        let (_, rest) = expect(tokens, word)?;
        let (term, rest) = self.boxed_term(rest, levels)?;
        Ok((Some(term), rest))
    }

    /// The first one and those that follow.
    fn more_terms<'t>(
        &self,
        first: RawTerm,
        tokens: &'t [Lexeme],
        levels: usize,
    ) -> Result<(Listed<RawTerm>, &'t [Lexeme]), Stop>
        requires nests { Nests self.now.below self.now.script (F.pre self.now.operand) (F.post self.now.operand) }
        requires less { levels < self.now.below }
        ensures { Gives models (λ x. (x.0, all_seen x.1.now)) result (with_front models (first ∷ []) (read_in levels self.now.script (terms.more_terms self.now.script) (all_seen tokens.now))) }
    {
        let mut terms = Listed::new(self.alloc);
        terms.push(first)?;
        let mut rest = tokens;
        'terms: for _turn in 0..tokens.len() {
            if !begins(rest, Class::Comma) {
                return Ok((terms, rest));
            }
            let (term, after) = self.term_after(Class::Comma, rest, levels)?;
            terms.push(term)?;
            rest = after;
        }
        Ok((terms, rest))
    }

    #[tactic(auto, unfolding(asm_tree::specs::Terms::terms))]
    pub fn terms<'t>(
        &self,
        tokens: &'t [Lexeme],
        levels: usize,
    ) -> Result<(Listed<RawTerm>, &'t [Lexeme]), Stop>
        requires nests { Nests self.now.below self.now.script (F.pre self.now.operand) (F.post self.now.operand) }
        requires less { levels < self.now.below }
        ensures { Gives models (λ x. (x.0, all_seen x.1.now)) result (read_in levels self.now.script (terms.terms self.now.script) (all_seen tokens.now)) }
    {
        let (first, rest) = self.term(tokens, levels)?;
        self.more_terms(first, rest, levels)
    }

    /// Terms with commas between them, if there are any.
    pub fn any_terms<'t>(
        &self,
        tokens: &'t [Lexeme],
        levels: usize,
    ) -> Result<(Listed<RawTerm>, &'t [Lexeme]), Stop>
        requires nests { Nests self.now.below self.now.script (F.pre self.now.operand) (F.post self.now.operand) }
        requires less { levels < self.now.below }
        ensures { Gives models (λ x. (x.0, all_seen x.1.now)) result (read_in levels self.now.script (either (terms.terms self.now.script) (nothing [] [])) (all_seen tokens.now)) }
    {
        if !begins_term(tokens, self.script) {
            return Ok((Listed::new(self.alloc), tokens));
        }
        self.terms(tokens, levels)
    }
}
