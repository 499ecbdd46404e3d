//! Bindings and cases.

ghost use Rattle.std.specs.Prelude.{◌≡◌, ◌<◌, ◌≤◌, [], ◌∷◌, Some, None, Ok};
ghost use Rattle.asm_grammar.specs.Grammar.{Gives, and_then, nothing, both, either, shown};
ghost use Rattle.asm_grammar.proofs.Loops.{with_front};
ghost use Rattle.asm_tree.specs.Language.{models, after, Binds};
ghost use Rattle.asm_tree.specs.Terms as terms;
ghost use Rattle.asm_tree.specs.Words.{kind_of};
ghost use Rattle.asm_tree.specs.declared.class.Class.TheVariants as class_is;
ghost use Rattle.asm_body.specs.Nests.{Nests};
ghost use Rattle.asm_body.specs.Phrases.{seen_phrase};
ghost use Rattle.asm_body.specs.Reading.{opened_in, read_in};
ghost use Rattle.asm_body.specs.Seen.{seen, all_seen};

use crate::level::Level;
use crate::lexeme::Lexeme;
use crate::phrase::Phrase;
use crate::reading::{begins, enter, expect, name};
use crate::terms::Terms;
use asm_grammar::Stop;
use asm_list::Listed;
use asm_tree::class::Class;
use asm_tree::term::{RawBind, RawCase};
use std::alloc::Global;

impl<F: Fn(Global, Level, &[Lexeme], usize, bool) -> Result<(Phrase<'_>, &[Lexeme]), Stop>> Terms<
    F,
> {
    #[tactic(auto, unfolding(asm_tree::specs::Terms::bind))]
    fn bind<'t>(&self, tokens: &'t [Lexeme], levels: usize) -> Result<(RawBind, &'t [Lexeme]), Stop>
        requires nests { Nests self.now.below self.now.script (F.pre self.now.operand) (F.post self.now.operand) }
        requires less { levels < self.now.below }
        ensures { Gives models (λ x. (x.0, all_seen x.1.now)) result (read_in levels self.now.script (terms.bind self.now.script) (all_seen tokens.now)) }
    {
        let (variable, rest) = name(self.alloc, tokens, &[Class::Variable])?;
        let (_, rest) = expect(rest, Class::Equal)?;
        let (term, rest) = self.term(rest, levels)?;
        Ok((RawBind { variable, term }, rest))
    }

    fn further_bind<'t>(
        &self,
        tokens: &'t [Lexeme],
        levels: usize,
    ) -> Result<(RawBind, &'t [Lexeme]), Stop>
        requires nests { Nests self.now.below self.now.script (F.pre self.now.operand) (F.post self.now.operand) }
        requires less { levels < self.now.below }
        ensures { Gives models (λ x. (x.0, all_seen x.1.now)) result (read_in levels self.now.script (after class_is.Comma (terms.bind self.now.script)) (all_seen tokens.now)) }
    {
        let (_, rest) = expect(tokens, Class::Comma)?;
        self.bind(rest, levels)
    }

    /// The first one and those that follow.
    fn more_binds<'t>(
        &self,
        first: RawBind,
        tokens: &'t [Lexeme],
        levels: usize,
    ) -> Result<(Listed<RawBind>, &'t [Lexeme]), Stop>
        requires nests { Nests self.now.below self.now.script (F.pre self.now.operand) (F.post self.now.operand) }
        requires less { levels < self.now.below }
        ensures { Gives models (λ x. (x.0, all_seen x.1.now)) result (with_front models (first ∷ []) (read_in levels self.now.script (terms.more_binds self.now.script) (all_seen tokens.now))) }
    {
        let mut binds = Listed::new(self.alloc);
        binds.push(first)?;
        let mut rest = tokens;
        'binds: for _turn in 0..tokens.len() {
            if !begins(rest, Class::Comma) {
                return Ok((binds, rest));
            }
            let (bind, after) = self.further_bind(rest, levels)?;
            binds.push(bind)?;
            rest = after;
        }
        Ok((binds, rest))
    }

    /// Bindings in parentheses.
    #[tactic(auto, using(crate::proofs::Bodies::binds_body))]
    pub fn binds<'t>(
        &self,
        tokens: &'t [Lexeme],
        levels: usize,
    ) -> Result<(Listed<RawBind>, &'t [Lexeme]), Stop>
        requires nests { Nests self.now.below self.now.script (F.pre self.now.operand) (F.post self.now.operand) }
        requires fits { levels ≤ self.now.below }
        ensures { Gives models (λ x. (x.0, all_seen x.1.now)) result (opened_in levels self.now.script (kind_of class_is.Open ∷ []) Binds (λ p. p.1) (all_seen tokens.now)) }
    {
        let (_, levels, rest) = enter(tokens, Class::Open, levels)?;
        let (first, rest) = self.bind(rest, levels)?;
        let (binds, rest) = self.more_binds(first, rest, levels)?;
        let (_, rest) = expect(rest, Class::Close)?;
        Ok((binds, rest))
    }

    #[tactic(auto, unfolding(asm_tree::specs::Terms::case_term))]
    fn case<'t>(&self, tokens: &'t [Lexeme], levels: usize) -> Result<(RawCase, &'t [Lexeme]), Stop>
        requires nests { Nests self.now.below self.now.script (F.pre self.now.operand) (F.post self.now.operand) }
        requires less { levels < self.now.below }
        ensures { Gives models (λ x. (x.0, all_seen x.1.now)) result (read_in levels self.now.script (terms.case_term self.now.script) (all_seen tokens.now)) }
    {
        let (_, rest) = expect(tokens, Class::Case)?;
        let (label, rest) = self.boxed_term(rest, levels)?;
        let (value, rest) = self.term_after(Class::Colon, rest, levels)?;
        let label = label.into_inner();
        Ok((RawCase { label, value }, rest))
    }

    /// The first one and those that follow.
    fn more_cases<'t>(
        &self,
        first: RawCase,
        tokens: &'t [Lexeme],
        levels: usize,
    ) -> Result<(Listed<RawCase>, &'t [Lexeme]), Stop>
        requires nests { Nests self.now.below self.now.script (F.pre self.now.operand) (F.post self.now.operand) }
        requires less { levels < self.now.below }
        ensures { Gives models (λ x. (x.0, all_seen x.1.now)) result (with_front models (first ∷ []) (read_in levels self.now.script (terms.more_case_terms self.now.script) (all_seen tokens.now))) }
    {
        let mut cases = Listed::new(self.alloc);
        cases.push(first)?;
        let mut rest = tokens;
        'cases: for _turn in 0..tokens.len() {
            if !begins(rest, Class::Case) {
                return Ok((cases, rest));
            }
            let (case, after) = self.case(rest, levels)?;
            cases.push(case)?;
            rest = after;
        }
        Ok((cases, rest))
    }

    pub fn cases<'t>(
        &self,
        tokens: &'t [Lexeme],
        levels: usize,
    ) -> Result<(Listed<RawCase>, &'t [Lexeme]), Stop>
        requires nests { Nests self.now.below self.now.script (F.pre self.now.operand) (F.post self.now.operand) }
        requires less { levels < self.now.below }
        ensures { Gives models (λ x. (x.0, all_seen x.1.now)) result (read_in levels self.now.script (shown (λ p. p.0 ∷ p.1) (both (terms.case_term self.now.script) (terms.more_case_terms self.now.script))) (all_seen tokens.now)) }
    {
        let (first, rest) = self.case(tokens, levels)?;
        self.more_cases(first, rest, levels)
    }
}
