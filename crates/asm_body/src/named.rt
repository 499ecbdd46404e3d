//! Operators that are written as names before their operands, and quantifiers.

ghost use Rattle.std.specs.Prelude.{◌≡◌, if◌then◌else◌, ◌<◌, ◌≤◌, [], ◌∷◌, false, Ok};
ghost use Rattle.asm_grammar.specs.Grammar.{Gives, and_then, word_at};
ghost use Rattle.asm_tree.specs.Language.{models, ExistTerm, ForallTerm, MinusOperands, NamedMinus, NamedOne, NamedTwo, OneOperand, TwoOperands};
ghost use Rattle.asm_tree.specs.Terms as terms;
ghost use Rattle.asm_tree.specs.Words.{kind_of};
ghost use Rattle.asm_tree.specs.declared.class.Class.TheVariants as class_is;
ghost use Rattle.asm_tree.specs.declared.operator.UnaryOp.TheVariants as unary_is;
ghost use Rattle.asm_tree.specs.declared.operator.Quantifier.TheVariants as quantifier_is;
ghost use Rattle.asm_body.specs.Levels as levels_of;
ghost use Rattle.asm_body.specs.Nests.{Nests};
ghost use Rattle.asm_body.specs.Phrases.{seen_grouping, seen_phrase};
ghost use Rattle.asm_body.specs.Reading.{opened_in, read_in, read_flat};
ghost use Rattle.asm_body.specs.Seen.{seen, all_seen};

use crate::binding::{binders, unique};
use crate::level::Level;
use crate::lexeme::Lexeme;
use crate::operator::{op_of, unary_of};
use crate::phrase::{Phrase, binary_at, guard_or, minus_at, quantifier_at, unary_at};
use crate::reading::{begins, begins_among, enter, enter_among, expect};
use crate::sorts::{one_names, two_names};
use crate::terms::Terms;
use asm_grammar::Stop;
use asm_list::Boxed;
use asm_tree::Quantifier;
use asm_tree::class::Class;
use asm_tree::term::{RawTerm, RawTermKind};
use std::alloc::Global;

/// Whether one tuple, or just one, has to have a true guard.
fn existing(unique: bool) -> Quantifier
    ensures { result ≡ (if unique then quantifier_is.ExistUnique else quantifier_is.Exist) }
{
    if unique {
        Quantifier::ExistUnique
    } else {
        Quantifier::Exist
    }
}

impl<F: Fn(Global, Level, &[Lexeme], usize, bool) -> Result<(Phrase<'_>, &[Lexeme]), Stop>> Terms<
    F,
> {
    #[tactic(auto, using(crate::proofs::Bodies::one_operand_body))]
    fn one_operand<'t>(
        &self,
        tokens: &'t [Lexeme],
        levels: usize,
    ) -> Result<(Boxed<RawTerm>, &'t [Lexeme]), Stop>
        requires nests { Nests self.now.below self.now.script (F.pre self.now.operand) (F.post self.now.operand) }
        requires fits { levels ≤ self.now.below }
        ensures { Gives models (λ x. (x.0, all_seen x.1.now)) result (opened_in levels self.now.script (kind_of class_is.Open ∷ []) OneOperand (λ p. p.1) (all_seen tokens.now)) }
    {
        let (_, levels, rest) = enter(tokens, Class::Open, levels)?;
        let (operand, rest) = self.boxed_term(rest, levels)?;
        let (_, rest) = expect(rest, Class::Close)?;
        Ok((operand, rest))
    }

    #[tactic(auto, using(crate::proofs::Bodies::two_operands_body))]
    fn two_operands<'t>(
        &self,
        tokens: &'t [Lexeme],
        levels: usize,
    ) -> Result<((Boxed<RawTerm>, Boxed<RawTerm>), &'t [Lexeme]), Stop>
        requires nests { Nests self.now.below self.now.script (F.pre self.now.operand) (F.post self.now.operand) }
        requires fits { levels ≤ self.now.below }
        ensures { Gives models (λ x. (x.0, all_seen x.1.now)) result (opened_in levels self.now.script (kind_of class_is.Open ∷ []) TwoOperands (λ p. p.1) (all_seen tokens.now)) }
    {
        let (_, levels, rest) = enter(tokens, Class::Open, levels)?;
        let (left, rest) = self.boxed_term(rest, levels)?;
        let (_, rest) = expect(rest, Class::Comma)?;
        let (right, rest) = self.boxed_term(rest, levels)?;
        let (_, rest) = expect(rest, Class::Close)?;
        Ok(((left, right), rest))
    }

    #[tactic(auto, using(crate::proofs::Bodies::minus_operands_body), unfolding(asm_tree::specs::Terms::second_operand))]
    fn minus_operands<'t>(
        &self,
        tokens: &'t [Lexeme],
        levels: usize,
    ) -> Result<((Boxed<RawTerm>, Option<Boxed<RawTerm>>), &'t [Lexeme]), Stop>
        requires nests { Nests self.now.below self.now.script (F.pre self.now.operand) (F.post self.now.operand) }
        requires fits { levels ≤ self.now.below }
        ensures { Gives models (λ x. (x.0, all_seen x.1.now)) result (opened_in levels self.now.script (kind_of class_is.Open ∷ []) MinusOperands (λ p. p.1) (all_seen tokens.now)) }
    {
        let (_, levels, rest) = enter(tokens, Class::Open, levels)?;
        let (left, rest) = self.boxed_term(rest, levels)?;
        let (right, rest) = self.optional_term(Class::Comma, rest, levels)?;
        let (_, rest) = expect(rest, Class::Close)?;
        Ok(((left, right), rest))
    }

    #[tactic(auto, using(crate::proofs::Forms::one_inside))]
    fn named_one<'t>(
        &self,
        tokens: &'t [Lexeme],
        levels: usize,
    ) -> Result<(Phrase<'t>, &'t [Lexeme]), Stop>
        requires nests { Nests self.now.below self.now.script (F.pre self.now.operand) (F.post self.now.operand) }
        requires fits { levels ≤ self.now.below }
        ensures { Gives models (λ x. (seen_phrase x.0, all_seen x.1.now)) result (opened_in levels self.now.script terms.one_names NamedOne terms.named_one (all_seen tokens.now)) }
    {
        let (name, levels, rest) = enter_among(tokens, one_names(), levels)?;
        let (operand, rest) = self.one_operand(rest, levels)?;
        Ok((unary_at(self.alloc, name, unary_of(name), operand)?, rest))
    }

    #[tactic(auto, using(crate::proofs::Forms::two_inside))]
    fn named_two<'t>(
        &self,
        tokens: &'t [Lexeme],
        levels: usize,
    ) -> Result<(Phrase<'t>, &'t [Lexeme]), Stop>
        requires nests { Nests self.now.below self.now.script (F.pre self.now.operand) (F.post self.now.operand) }
        requires fits { levels ≤ self.now.below }
        ensures { Gives models (λ x. (seen_phrase x.0, all_seen x.1.now)) result (opened_in levels self.now.script terms.two_names NamedTwo terms.named_two (all_seen tokens.now)) }
    {
        let (name, levels, rest) = enter_among(tokens, two_names(), levels)?;
        let ((left, right), rest) = self.two_operands(rest, levels)?;
        Ok((binary_at(self.alloc, name, op_of(name), left, right)?, rest))
    }

    #[tactic(auto, using(crate::proofs::Forms::minus_inside))]
    fn named_minus<'t>(
        &self,
        tokens: &'t [Lexeme],
        levels: usize,
    ) -> Result<(Phrase<'t>, &'t [Lexeme]), Stop>
        requires nests { Nests self.now.below self.now.script (F.pre self.now.operand) (F.post self.now.operand) }
        requires fits { levels ≤ self.now.below }
        ensures { Gives models (λ x. (seen_phrase x.0, all_seen x.1.now)) result (opened_in levels self.now.script (kind_of class_is.MinusName ∷ []) NamedMinus terms.named_minus (all_seen tokens.now)) }
    {
        let (name, levels, rest) = enter(tokens, Class::MinusName, levels)?;
        let ((left, right), rest) = self.minus_operands(rest, levels)?;
        Ok((minus_at(self.alloc, name, left, right)?, rest))
    }

    /// An operator as a name, with its operands in parentheses.
    #[tactic(auto, using(crate::proofs::Forms::named_is))]
    pub fn named<'t>(
        &self,
        tokens: &'t [Lexeme],
        levels: usize,
    ) -> Result<(Phrase<'t>, &'t [Lexeme]), Stop>
        requires nests { Nests self.now.below self.now.script (F.pre self.now.operand) (F.post self.now.operand) }
        requires fits { levels ≤ self.now.below }
        ensures { Gives models (λ x. (seen_phrase x.0, all_seen x.1.now)) result (read_in levels self.now.script (terms.named self.now.script) (all_seen tokens.now)) }
    {
        if begins_among(tokens, one_names()) {
            return self.named_one(tokens, levels);
        }
        if begins_among(tokens, two_names()) {
            return self.named_two(tokens, levels);
        }
        self.named_minus(tokens, levels)
    }

    #[tactic(auto, using(crate::proofs::Bodies::forall_term_body, crate::proofs::Forms::binders_flat), unfolding(asm_tree::specs::Terms::guard))]
    fn forall<'t>(
        &self,
        tokens: &'t [Lexeme],
        levels: usize,
    ) -> Result<(Boxed<RawTermKind>, &'t [Lexeme]), Stop>
        requires nests { Nests self.now.below self.now.script (F.pre self.now.operand) (F.post self.now.operand) }
        requires fits { levels ≤ self.now.below }
        ensures { Gives models (λ x. (x.0, all_seen x.1.now)) result (opened_in levels self.now.script (kind_of class_is.Forall ∷ []) ForallTerm terms.forall_term (all_seen tokens.now)) }
    {
        let (first, levels, rest) = enter(tokens, Class::Forall, levels)?;
        let (binders, rest) = binders(self.alloc, rest)?;
        let (guard, rest) = self.optional_term(Class::With, rest, levels)?;
        let guard = guard_or(self.alloc, first, guard)?;
        let kind = quantifier_at(self.alloc, Quantifier::Forall, binders, guard)?;
        Ok((kind, rest))
    }

    #[tactic(auto, using(crate::proofs::Bodies::exist_term_body, crate::proofs::Forms::flats), unfolding(asm_tree::specs::Terms::guard))]
    fn exist<'t>(
        &self,
        tokens: &'t [Lexeme],
        levels: usize,
    ) -> Result<(Boxed<RawTermKind>, &'t [Lexeme]), Stop>
        requires nests { Nests self.now.below self.now.script (F.pre self.now.operand) (F.post self.now.operand) }
        requires fits { levels ≤ self.now.below }
        ensures { Gives models (λ x. (x.0, all_seen x.1.now)) result (opened_in levels self.now.script (kind_of class_is.Exist ∷ []) ExistTerm terms.exist_term (all_seen tokens.now)) }
    {
        let (first, levels, rest) = enter(tokens, Class::Exist, levels)?;
        let (unique, rest) = unique(rest)?;
        let (binders, rest) = binders(self.alloc, rest)?;
        let (guard, rest) = self.optional_term(Class::With, rest, levels)?;
        let guard = guard_or(self.alloc, first, guard)?;
        let kind = quantifier_at(self.alloc, existing(unique), binders, guard)?;
        Ok((kind, rest))
    }

    #[tactic(auto, using(crate::proofs::Forms::quantifier_is))]
    pub fn quantifier<'t>(
        &self,
        tokens: &'t [Lexeme],
        levels: usize,
    ) -> Result<(Boxed<RawTermKind>, &'t [Lexeme]), Stop>
        requires nests { Nests self.now.below self.now.script (F.pre self.now.operand) (F.post self.now.operand) }
        requires fits { levels ≤ self.now.below }
        ensures { Gives models (λ x. (x.0, all_seen x.1.now)) result (read_in levels self.now.script (terms.quantifier_term self.now.script) (all_seen tokens.now)) }
    {
        if begins(tokens, Class::Forall) {
            return self.forall(tokens, levels);
        }
        self.exist(tokens, levels)
    }
}
