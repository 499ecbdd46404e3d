//! Terms that no operator joins.

ghost use Rattle.std.specs.Prelude.{◌≡◌, ◌<◌, ◌≤◌, [], ◌∷◌, false, Ok};
ghost use Rattle.asm_grammar.specs.Grammar.{Gives, and_then, word_at};
ghost use Rattle.asm_tree.specs.Language.{models, Arguments, ConditionalTerm, Grouped, LetTerm, SwitchTerm};
ghost use Rattle.asm_tree.specs.Terms as terms;
ghost use Rattle.asm_tree.specs.Words.{kind_of};
ghost use Rattle.asm_tree.specs.declared.class.Class.TheVariants as class_is;
ghost use Rattle.asm_tree.specs.declared.operator.UnaryOp.TheVariants as unary_is;
ghost use Rattle.asm_body.specs.Levels as levels_of;
ghost use Rattle.asm_body.specs.Nests.{Nests};
ghost use Rattle.asm_body.specs.Phrases.{seen_grouping, seen_phrase};
ghost use Rattle.asm_body.specs.Reading.{opened_in, read_in, read_flat};
ghost use Rattle.asm_body.specs.Seen.{seen, all_seen};

use crate::leaf::leaf;
use crate::level::Level;
use crate::lexeme::Lexeme;
use crate::phrase::{Grouping, Phrase, grouped, other_or, phrase_at};
use crate::reading::{begins, begins_among, enter, expect, expect_among};
use crate::sorts::{functions, leaves, names};
use crate::terms::Terms;
use asm_grammar::Stop;
use asm_list::{Listed, Name};
use asm_tree::class::Class;
use asm_tree::term::{RawTerm, RawTermKind};
use std::alloc::Global;

impl<F: Fn(Global, Level, &[Lexeme], usize, bool) -> Result<(Phrase<'_>, &[Lexeme]), Stop>> Terms<
    F,
> {
    /// Terms in parentheses, if there are any.
    #[tactic(auto, using(crate::proofs::Bodies::arguments_body, crate::proofs::Forms::arguments_is))]
    pub fn arguments<'t>(
        &self,
        tokens: &'t [Lexeme],
        levels: usize,
    ) -> Result<(Listed<RawTerm>, &'t [Lexeme]), Stop>
        requires nests { Nests self.now.below self.now.script (F.pre self.now.operand) (F.post self.now.operand) }
        requires fits { levels ≤ self.now.below }
        ensures { Gives models (λ x. (x.0, all_seen x.1.now)) result (read_in levels self.now.script (terms.arguments self.now.script) (all_seen tokens.now)) }
    {
        if !begins(tokens, Class::Open) {
            return Ok((Listed::new(self.alloc), tokens));
        }
        let (_, levels, rest) = enter(tokens, Class::Open, levels)?;
        let (arguments, rest) = self.terms(rest, levels)?;
        let (_, rest) = expect(rest, Class::Close)?;
        Ok((arguments, rest))
    }

    #[tactic(auto, unfolding(asm_tree::specs::Terms::call))]
    fn call<'t>(
        &self,
        tokens: &'t [Lexeme],
        levels: usize,
    ) -> Result<(Phrase<'t>, &'t [Lexeme]), Stop>
        requires nests { Nests self.now.below self.now.script (F.pre self.now.operand) (F.post self.now.operand) }
        requires fits { levels ≤ self.now.below }
        ensures { Gives models (λ x. (seen_phrase x.0, all_seen x.1.now)) result (read_in levels self.now.script (terms.call self.now.script) (all_seen tokens.now)) }
    {
        let (function, rest) = expect_among(tokens, functions(self.script))?;
        let (arguments, rest) = self.arguments(rest, levels)?;
        let name = Name::of(self.alloc, function.text.text())?;
        Ok((
            phrase_at(self.alloc, function, RawTermKind::Call(name, arguments))?,
            rest,
        ))
    }

    /// A quantifier or a term.
    #[tactic(auto, using(crate::proofs::Forms::group_is))]
    fn group<'t>(
        &self,
        tokens: &'t [Lexeme],
        levels: usize,
    ) -> Result<(Grouping, &'t [Lexeme]), Stop>
        requires nests { Nests self.now.below self.now.script (F.pre self.now.operand) (F.post self.now.operand) }
        requires less { levels < self.now.below }
        ensures { Gives models (λ x. (seen_grouping x.0, all_seen x.1.now)) result (read_in levels self.now.script (terms.group self.now.script) (all_seen tokens.now)) }
    {
        if begins_among(tokens, &[Class::Forall, Class::Exist]) {
            let (kind, rest) = self.quantifier(tokens, levels)?;
            return Ok((Grouping::Quantified(kind), rest));
        }
        let (term, rest) = self.boxed_term(tokens, levels)?;
        Ok((Grouping::Plain(term), rest))
    }

    /// A quantifier or a term in parentheses.
    #[tactic(auto, using(crate::proofs::Bodies::grouped_body))]
    fn group_in<'t>(
        &self,
        tokens: &'t [Lexeme],
        levels: usize,
    ) -> Result<(Phrase<'t>, &'t [Lexeme]), Stop>
        requires nests { Nests self.now.below self.now.script (F.pre self.now.operand) (F.post self.now.operand) }
        requires fits { levels ≤ self.now.below }
        ensures { Gives models (λ x. (seen_phrase x.0, all_seen x.1.now)) result (opened_in levels self.now.script (kind_of class_is.Open ∷ []) Grouped terms.grouped (all_seen tokens.now)) }
    {
        let (open, levels, rest) = enter(tokens, Class::Open, levels)?;
        let (group, rest) = self.group(rest, levels)?;
        let (_, rest) = expect(rest, Class::Close)?;
        Ok((grouped(self.alloc, open, group)?, rest))
    }

    #[tactic(auto, using(crate::proofs::Bodies::conditional_term_body), unfolding(asm_tree::specs::Terms::other_term))]
    fn conditional<'t>(
        &self,
        tokens: &'t [Lexeme],
        levels: usize,
    ) -> Result<(Phrase<'t>, &'t [Lexeme]), Stop>
        requires nests { Nests self.now.below self.now.script (F.pre self.now.operand) (F.post self.now.operand) }
        requires fits { levels ≤ self.now.below }
        ensures { Gives models (λ x. (seen_phrase x.0, all_seen x.1.now)) result (opened_in levels self.now.script (kind_of class_is.If ∷ []) ConditionalTerm terms.conditional_term (all_seen tokens.now)) }
    {
        let (first, levels, rest) = enter(tokens, Class::If, levels)?;
        let (guard, rest) = self.boxed_term(rest, levels)?;
        let (_, rest) = expect(rest, Class::Then)?;
        let (holds, rest) = self.boxed_term(rest, levels)?;
        let (fails, rest) = self.optional_term(Class::Else, rest, levels)?;
        let (_, rest) = expect(rest, Class::EndIf)?;
        let fails = other_or(self.alloc, first, fails)?;
        let kind = RawTermKind::Cond(guard, holds, fails);
        Ok((phrase_at(self.alloc, first, kind)?, rest))
    }

    #[tactic(auto, using(crate::proofs::Bodies::switch_term_body), unfolding(asm_tree::specs::Terms::otherwise_term))]
    fn switch<'t>(
        &self,
        tokens: &'t [Lexeme],
        levels: usize,
    ) -> Result<(Phrase<'t>, &'t [Lexeme]), Stop>
        requires nests { Nests self.now.below self.now.script (F.pre self.now.operand) (F.post self.now.operand) }
        requires fits { levels ≤ self.now.below }
        ensures { Gives models (λ x. (seen_phrase x.0, all_seen x.1.now)) result (opened_in levels self.now.script (kind_of class_is.Switch ∷ []) SwitchTerm terms.switch_term (all_seen tokens.now)) }
    {
        let (first, levels, rest) = enter(tokens, Class::Switch, levels)?;
        let (subject, rest) = self.boxed_term(rest, levels)?;
        let (cases, rest) = self.cases(rest, levels)?;
        let (otherwise, rest) = self.optional_term(Class::Otherwise, rest, levels)?;
        let (_, rest) = expect(rest, Class::EndSwitch)?;
        let otherwise = other_or(self.alloc, first, otherwise)?;
        let kind = RawTermKind::Switch(subject, cases, otherwise);
        Ok((phrase_at(self.alloc, first, kind)?, rest))
    }

    #[tactic(auto, using(crate::proofs::Forms::let_body))]
    fn let_in<'t>(
        &self,
        tokens: &'t [Lexeme],
        levels: usize,
    ) -> Result<(Phrase<'t>, &'t [Lexeme]), Stop>
        requires nests { Nests self.now.below self.now.script (F.pre self.now.operand) (F.post self.now.operand) }
        requires fits { levels ≤ self.now.below }
        ensures { Gives models (λ x. (seen_phrase x.0, all_seen x.1.now)) result (opened_in levels self.now.script (kind_of class_is.Let ∷ []) LetTerm terms.let_term (all_seen tokens.now)) }
    {
        let (first, levels, rest) = enter(tokens, Class::Let, levels)?;
        let (binds, rest) = self.binds(rest, levels)?;
        let (_, rest) = expect(rest, Class::In)?;
        let (term, rest) = self.boxed_term(rest, levels)?;
        let (_, rest) = expect(rest, Class::EndLet)?;
        let kind = RawTermKind::Let(binds, term);
        Ok((phrase_at(self.alloc, first, kind)?, rest))
    }

    /// A term with words around it, or in parentheses.
    #[tactic(auto, using(crate::proofs::Forms::enclosed_is))]
    fn enclosed<'t>(
        &self,
        tokens: &'t [Lexeme],
        levels: usize,
    ) -> Result<(Phrase<'t>, &'t [Lexeme]), Stop>
        requires nests { Nests self.now.below self.now.script (F.pre self.now.operand) (F.post self.now.operand) }
        requires fits { levels ≤ self.now.below }
        ensures { Gives models (λ x. (seen_phrase x.0, all_seen x.1.now)) result (read_in levels self.now.script (terms.enclosed self.now.script) (all_seen tokens.now)) }
    {
        if begins(tokens, Class::Open) {
            return self.group_in(tokens, levels);
        }
        if begins(tokens, Class::If) {
            return self.conditional(tokens, levels);
        }
        if begins(tokens, Class::Switch) {
            return self.switch(tokens, levels);
        }
        self.let_in(tokens, levels)
    }

    #[tactic(auto, using(crate::proofs::Forms::primary_is))]
    pub fn primary<'t>(
        &self,
        tokens: &'t [Lexeme],
        levels: usize,
    ) -> Result<(Phrase<'t>, &'t [Lexeme]), Stop>
        requires nests { Nests self.now.below self.now.script (F.pre self.now.operand) (F.post self.now.operand) }
        requires fits { levels ≤ self.now.below }
        ensures { Gives models (λ x. (seen_phrase x.0, all_seen x.1.now)) result (read_in levels self.now.script (terms.primary self.now.script) (all_seen tokens.now)) }
    {
        if begins_among(tokens, leaves()) {
            return leaf(self.alloc, tokens);
        }
        if begins_among(tokens, functions(self.script)) {
            return self.call(tokens, levels);
        }
        if begins_among(tokens, names()) {
            return self.named(tokens, levels);
        }
        self.enclosed(tokens, levels)
    }
}
