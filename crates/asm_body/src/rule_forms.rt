//! Rules, form by form.

ghost use Rattle.std.specs.Prelude.{◌≡◌, ◌<◌, ◌≤◌, [], ◌∷◌, Some, None, Ok, IfOk};
ghost use Rattle.asm_grammar.specs.Grammar.{Gives, and_then, nothing, both, either, shown};
ghost use Rattle.asm_grammar.proofs.Loops.{with_front};
ghost use Rattle.asm_tree.specs.Language.{models, after, Actuals, Choose, Conditional, Forall, Let, Parallel, Sequence, Switch};
ghost use Rattle.asm_tree.specs.Rules as rules;
ghost use Rattle.asm_tree.specs.Words.{kind_of};
ghost use Rattle.asm_tree.specs.declared.class.Class.TheVariants as class_is;
ghost use Rattle.asm_body.specs.NestsRules.{NestsRules};
ghost use Rattle.asm_body.specs.Reading.{opened_in, read_in};
ghost use Rattle.asm_body.specs.Seen.{seen, all_seen};

use crate::binding::binders;
use crate::lexeme::Lexeme;
use crate::phrase::guard_or;
use crate::reading::{begins, begins_among, enter, expect, expect_among};
use crate::rules::Rules;
use crate::sorts::functions;
use crate::starts::begins_term;
use crate::term_reader::{boxed_term, operand};
use crate::terms::Terms;
use asm_grammar::Stop;
use asm_list::{Boxed, Listed, Name};
use asm_tree::class::Class;
use asm_tree::rule::{RawRule, RawRuleKind};
use asm_tree::term::RawTerm;
use std::alloc::{AllocError, Global};

/// The other rule, which is `skip` at the first token where none is written.
fn skip_or(
    alloc: Global,
    first: &Lexeme,
    other: Option<Boxed<RawRule>>,
) -> Result<Boxed<RawRule>, AllocError>
    ensures { IfOk result (λ r. r ≡ rules.skip_or (seen first.now) other) }
{
    match other {
        Some(other) => Ok(other),
        None => Boxed::new(
            alloc,
            RawRule {
                at: first.at,
                kind: RawRuleKind::Skip,
            },
        ),
    }
}

impl<R: Fn(Global, &[Lexeme], usize, bool) -> Result<(RawRule, &[Lexeme]), Stop>> Rules<R> {
    #[tactic(auto, unfolding(asm_tree::specs::Rules::update))]
    fn update<'t>(
        &self,
        tokens: &'t [Lexeme],
        levels: usize,
    ) -> Result<(RawRule, &'t [Lexeme]), Stop>
        requires nests { NestsRules self.now.below self.now.script (R.pre self.now.rule) (R.post self.now.rule) }
        requires fits { levels ≤ self.now.below }
        ensures { Gives models (λ x. (x.0, all_seen x.1.now)) result (read_in levels self.now.script (rules.update self.now.script) (all_seen tokens.now)) }
    {
        let terms = Terms {
            alloc: self.alloc,
            script: self.script,
            below: self.below,
            operand,
        };
        let (function, rest) = expect_among(tokens, functions(self.script))?;
        let (arguments, rest) = terms.arguments(rest, levels)?;
        let (_, rest) = expect(rest, Class::Assign)?;
        let (value, rest) = boxed_term(self.alloc, rest, levels, self.script)?;
        let name = Name::of(self.alloc, function.text.text())?;
        let rule = RawRule {
            at: function.at,
            kind: RawRuleKind::Update(name, arguments, value.into_inner()),
        };
        Ok((rule, rest))
    }

    /// Terms in brackets.
    #[tactic(auto, using(crate::proofs::Bodies::actuals_body))]
    fn actuals<'t>(
        &self,
        tokens: &'t [Lexeme],
        levels: usize,
    ) -> Result<(Listed<RawTerm>, &'t [Lexeme]), Stop>
        requires nests { NestsRules self.now.below self.now.script (R.pre self.now.rule) (R.post self.now.rule) }
        requires fits { levels ≤ self.now.below }
        ensures { Gives models (λ x. (x.0, all_seen x.1.now)) result (opened_in levels self.now.script (kind_of class_is.OpenBracket ∷ []) Actuals (λ p. p.1) (all_seen tokens.now)) }
    {
        let (_, levels, rest) = enter(tokens, Class::OpenBracket, levels)?;
        let terms = Terms {
            alloc: self.alloc,
            script: self.script,
            below: self.below,
            operand,
        };
        let (actuals, rest) = terms.any_terms(rest, levels)?;
        let (_, rest) = expect(rest, Class::CloseBracket)?;
        Ok((actuals, rest))
    }

    #[tactic(auto, using(crate::proofs::RuleForms::macro_is))]
    fn macro_call<'t>(
        &self,
        tokens: &'t [Lexeme],
        levels: usize,
    ) -> Result<(RawRule, &'t [Lexeme]), Stop>
        requires nests { NestsRules self.now.below self.now.script (R.pre self.now.rule) (R.post self.now.rule) }
        requires fits { levels ≤ self.now.below }
        ensures { Gives models (λ x. (x.0, all_seen x.1.now)) result (read_in levels self.now.script (rules.macro_call self.now.script) (all_seen tokens.now)) }
    {
        let (name, rest) = expect(tokens, Class::RuleName)?;
        let (actuals, rest) = self.actuals(rest, levels)?;
        let at = name.at;
        let name = Name::of(self.alloc, name.text.text())?;
        let rule = RawRule {
            at,
            kind: RawRuleKind::Call(name, actuals),
        };
        Ok((rule, rest))
    }

    #[tactic(auto, using(crate::proofs::Bodies::parallel_body))]
    fn parallel<'t>(
        &self,
        tokens: &'t [Lexeme],
        levels: usize,
    ) -> Result<(RawRule, &'t [Lexeme]), Stop>
        requires nests { NestsRules self.now.below self.now.script (R.pre self.now.rule) (R.post self.now.rule) }
        requires fits { levels ≤ self.now.below }
        ensures { Gives models (λ x. (x.0, all_seen x.1.now)) result (opened_in levels self.now.script (kind_of class_is.Par ∷ []) Parallel rules.par_rule (all_seen tokens.now)) }
    {
        let (first, levels, rest) = enter(tokens, Class::Par, levels)?;
        let (parts, rest) = self.rules(rest, levels)?;
        let (_, rest) = expect(rest, Class::EndPar)?;
        let rule = RawRule {
            at: first.at,
            kind: RawRuleKind::Par(parts),
        };
        Ok((rule, rest))
    }

    #[tactic(auto, using(crate::proofs::Bodies::sequence_body))]
    fn sequence<'t>(
        &self,
        tokens: &'t [Lexeme],
        levels: usize,
    ) -> Result<(RawRule, &'t [Lexeme]), Stop>
        requires nests { NestsRules self.now.below self.now.script (R.pre self.now.rule) (R.post self.now.rule) }
        requires fits { levels ≤ self.now.below }
        ensures { Gives models (λ x. (x.0, all_seen x.1.now)) result (opened_in levels self.now.script (kind_of class_is.Seq ∷ []) Sequence rules.seq_rule (all_seen tokens.now)) }
    {
        let (first, levels, rest) = enter(tokens, Class::Seq, levels)?;
        let (parts, rest) = self.rules(rest, levels)?;
        let (_, rest) = expect(rest, Class::EndSeq)?;
        let rule = RawRule {
            at: first.at,
            kind: RawRuleKind::Seq(parts),
        };
        Ok((rule, rest))
    }

    #[tactic(auto, using(crate::proofs::Bodies::conditional_body), unfolding(asm_tree::specs::Rules::other_rule))]
    fn conditional<'t>(
        &self,
        tokens: &'t [Lexeme],
        levels: usize,
    ) -> Result<(RawRule, &'t [Lexeme]), Stop>
        requires nests { NestsRules self.now.below self.now.script (R.pre self.now.rule) (R.post self.now.rule) }
        requires fits { levels ≤ self.now.below }
        ensures { Gives models (λ x. (x.0, all_seen x.1.now)) result (opened_in levels self.now.script (kind_of class_is.If ∷ []) Conditional rules.if_rule (all_seen tokens.now)) }
    {
        let (first, levels, rest) = enter(tokens, Class::If, levels)?;
        let (guard, rest) = boxed_term(self.alloc, rest, levels, self.script)?;
        let (_, rest) = expect(rest, Class::Then)?;
        let (holds, rest) = self.boxed_rule(rest, levels)?;
        let (fails, rest) = self.optional_rule(Class::Else, rest, levels)?;
        let (_, rest) = expect(rest, Class::EndIf)?;
        let fails = skip_or(self.alloc, first, fails)?;
        let rule = RawRule {
            at: first.at,
            kind: RawRuleKind::If(guard.into_inner(), holds, fails),
        };
        Ok((rule, rest))
    }

    #[tactic(auto, using(crate::proofs::Bodies::switch_body), unfolding(asm_tree::specs::Rules::otherwise_rule))]
    fn switch<'t>(
        &self,
        tokens: &'t [Lexeme],
        levels: usize,
    ) -> Result<(RawRule, &'t [Lexeme]), Stop>
        requires nests { NestsRules self.now.below self.now.script (R.pre self.now.rule) (R.post self.now.rule) }
        requires fits { levels ≤ self.now.below }
        ensures { Gives models (λ x. (x.0, all_seen x.1.now)) result (opened_in levels self.now.script (kind_of class_is.Switch ∷ []) Switch rules.switch_rule (all_seen tokens.now)) }
    {
        let (first, levels, rest) = enter(tokens, Class::Switch, levels)?;
        let (subject, rest) = boxed_term(self.alloc, rest, levels, self.script)?;
        let (cases, rest) = self.cases(rest, levels)?;
        let (otherwise, rest) = self.optional_rule(Class::Otherwise, rest, levels)?;
        let (_, rest) = expect(rest, Class::EndSwitch)?;
        let otherwise = skip_or(self.alloc, first, otherwise)?;
        let rule = RawRule {
            at: first.at,
            kind: RawRuleKind::Switch(subject.into_inner(), cases, otherwise),
        };
        Ok((rule, rest))
    }

    #[tactic(auto, using(crate::proofs::RuleForms::let_rule_body))]
    fn let_in<'t>(
        &self,
        tokens: &'t [Lexeme],
        levels: usize,
    ) -> Result<(RawRule, &'t [Lexeme]), Stop>
        requires nests { NestsRules self.now.below self.now.script (R.pre self.now.rule) (R.post self.now.rule) }
        requires fits { levels ≤ self.now.below }
        ensures { Gives models (λ x. (x.0, all_seen x.1.now)) result (opened_in levels self.now.script (kind_of class_is.Let ∷ []) Let rules.let_rule (all_seen tokens.now)) }
    {
        let (first, levels, rest) = enter(tokens, Class::Let, levels)?;
        let terms = Terms {
            alloc: self.alloc,
            script: self.script,
            below: self.below,
            operand,
        };
        let (binds, rest) = terms.binds(rest, levels)?;
        let (_, rest) = expect(rest, Class::In)?;
        let (inner, rest) = self.boxed_rule(rest, levels)?;
        let (_, rest) = expect(rest, Class::EndLet)?;
        let rule = RawRule {
            at: first.at,
            kind: RawRuleKind::Let(binds, inner),
        };
        Ok((rule, rest))
    }

    #[tactic(auto, using(crate::proofs::Bodies::forall_body, crate::proofs::Forms::binders_flat), unfolding(asm_tree::specs::Terms::guard))]
    fn forall<'t>(
        &self,
        tokens: &'t [Lexeme],
        levels: usize,
    ) -> Result<(RawRule, &'t [Lexeme]), Stop>
        requires nests { NestsRules self.now.below self.now.script (R.pre self.now.rule) (R.post self.now.rule) }
        requires fits { levels ≤ self.now.below }
        ensures { Gives models (λ x. (x.0, all_seen x.1.now)) result (opened_in levels self.now.script (kind_of class_is.Forall ∷ []) Forall rules.forall_rule (all_seen tokens.now)) }
    {
        let (first, levels, rest) = enter(tokens, Class::Forall, levels)?;
        let terms = Terms {
            alloc: self.alloc,
            script: self.script,
            below: self.below,
            operand,
        };
        let (binders, rest) = binders(self.alloc, rest)?;
        let (guard, rest) = terms.optional_term(Class::With, rest, levels)?;
        let (_, rest) = expect(rest, Class::Do)?;
        let (inner, rest) = self.boxed_rule(rest, levels)?;
        let guard = guard_or(self.alloc, first, guard)?;
        let rule = RawRule {
            at: first.at,
            kind: RawRuleKind::Forall(binders, guard.into_inner(), inner),
        };
        Ok((rule, rest))
    }

    #[tactic(auto, using(crate::proofs::Bodies::choose_body, crate::proofs::Forms::binders_flat), unfolding(asm_tree::specs::Terms::guard, asm_tree::specs::Rules::if_none))]
    fn choose<'t>(
        &self,
        tokens: &'t [Lexeme],
        levels: usize,
    ) -> Result<(RawRule, &'t [Lexeme]), Stop>
        requires nests { NestsRules self.now.below self.now.script (R.pre self.now.rule) (R.post self.now.rule) }
        requires fits { levels ≤ self.now.below }
        ensures { Gives models (λ x. (x.0, all_seen x.1.now)) result (opened_in levels self.now.script (kind_of class_is.Choose ∷ []) Choose rules.choose_rule (all_seen tokens.now)) }
    {
        let (first, levels, rest) = enter(tokens, Class::Choose, levels)?;
        let terms = Terms {
            alloc: self.alloc,
            script: self.script,
            below: self.below,
            operand,
        };
        let (binders, rest) = binders(self.alloc, rest)?;
        let (guard, rest) = terms.optional_term(Class::With, rest, levels)?;
        let (_, rest) = expect(rest, Class::Do)?;
        let (chosen, rest) = self.boxed_rule(rest, levels)?;
        let (none, rest) = self.optional_rule(Class::IfNone, rest, levels)?;
        let none = skip_or(self.alloc, first, none)?;
        let guard = guard_or(self.alloc, first, guard)?;
        let rule = RawRule {
            at: first.at,
            kind: RawRuleKind::Choose(binders, guard.into_inner(), chosen, none),
        };
        Ok((rule, rest))
    }

    /// A rule with words around it, or behind one.
    #[tactic(auto, using(crate::proofs::RuleForms::block_is))]
    fn block<'t>(
        &self,
        tokens: &'t [Lexeme],
        levels: usize,
    ) -> Result<(RawRule, &'t [Lexeme]), Stop>
        requires nests { NestsRules self.now.below self.now.script (R.pre self.now.rule) (R.post self.now.rule) }
        requires fits { levels ≤ self.now.below }
        ensures { Gives models (λ x. (x.0, all_seen x.1.now)) result (read_in levels self.now.script (rules.block self.now.script) (all_seen tokens.now)) }
    {
        if begins(tokens, Class::Par) {
            return self.parallel(tokens, levels);
        }
        if begins(tokens, Class::Seq) {
            return self.sequence(tokens, levels);
        }
        if begins(tokens, Class::If) {
            return self.conditional(tokens, levels);
        }
        if begins(tokens, Class::Switch) {
            return self.switch(tokens, levels);
        }
        if begins(tokens, Class::Let) {
            return self.let_in(tokens, levels);
        }
        if begins(tokens, Class::Forall) {
            return self.forall(tokens, levels);
        }
        self.choose(tokens, levels)
    }

    #[tactic(auto, using(crate::proofs::RuleForms::rule_is))]
    pub fn any<'t>(
        &self,
        tokens: &'t [Lexeme],
        levels: usize,
    ) -> Result<(RawRule, &'t [Lexeme]), Stop>
        requires nests { NestsRules self.now.below self.now.script (R.pre self.now.rule) (R.post self.now.rule) }
        requires fits { levels ≤ self.now.below }
        ensures { Gives models (λ x. (x.0, all_seen x.1.now)) result (read_in levels self.now.script (rules.rule self.now.script) (all_seen tokens.now)) }
    {
        if begins(tokens, Class::Skip) {
            let (first, rest) = expect(tokens, Class::Skip)?;
            let rule = RawRule {
                at: first.at,
                kind: RawRuleKind::Skip,
            };
            return Ok((rule, rest));
        }
        if begins_among(tokens, functions(self.script)) {
            return self.update(tokens, levels);
        }
        if begins(tokens, Class::RuleName) {
            return self.macro_call(tokens, levels);
        }
        self.block(tokens, levels)
    }
}
