//! Rules and lists of them inside other rules.

ghost use Rattle.std.specs.Prelude.{◌≡◌, ◌<◌, ◌≤◌, [], ◌∷◌, Some, None, Ok};
ghost use Rattle.asm_grammar.specs.Grammar.{Gives, and_then, nothing, both, either, shown};
ghost use Rattle.asm_grammar.proofs.Loops.{with_front};
ghost use Rattle.asm_tree.specs.Language.{models, after};
ghost use Rattle.asm_tree.specs.Rules as rules;
ghost use Rattle.asm_tree.specs.Words.{kind_of};
ghost use Rattle.asm_tree.specs.declared.class.Class.TheVariants as class_is;
ghost use Rattle.asm_body.specs.NestsRules.{NestsRules};
ghost use Rattle.asm_body.specs.Reading.{opened_in, read_in};
ghost use Rattle.asm_body.specs.Seen.{seen, all_seen};

use crate::lexeme::Lexeme;
use crate::reading::{begins, expect};
use crate::starts::begins_rule;
use crate::term_reader::boxed_term;
use asm_grammar::Stop;
use asm_list::{Boxed, Listed};
use asm_tree::class::Class;
use asm_tree::rule::{RawRule, RawRuleCase};
use std::alloc::Global;

/// The readers of rules, over a function that reads rules with fewer levels than `below`.
#[derive(Clone, Copy)]
pub struct Rules<R> {
    pub alloc: Global,
    pub script: bool,
    pub below: usize,
    pub rule: R,
}

impl<R: Fn(Global, &[Lexeme], usize, bool) -> Result<(RawRule, &[Lexeme]), Stop>> Rules<R> {
    pub fn rule<'t>(
        &self,
        tokens: &'t [Lexeme],
        levels: usize,
    ) -> Result<(RawRule, &'t [Lexeme]), Stop>
        requires nests { NestsRules self.now.below self.now.script (R.pre self.now.rule) (R.post self.now.rule) }
        requires less { levels < self.now.below }
        ensures { Gives models (λ x. (x.0, all_seen x.1.now)) result (read_in levels self.now.script (rules.rule self.now.script) (all_seen tokens.now)) }
    {
        (self.rule)(self.alloc, tokens, levels, self.script)
    }

    /// A rule in a box, so that it is let go by one call.
    pub fn boxed_rule<'t>(
        &self,
        tokens: &'t [Lexeme],
        levels: usize,
    ) -> Result<(Boxed<RawRule>, &'t [Lexeme]), Stop>
        requires nests { NestsRules self.now.below self.now.script (R.pre self.now.rule) (R.post self.now.rule) }
        requires less { levels < self.now.below }
        ensures { Gives models (λ x. (x.0, all_seen x.1.now)) result (read_in levels self.now.script (rules.rule self.now.script) (all_seen tokens.now)) }
    {
        let (rule, rest) = self.rule(tokens, levels)?;
        Ok((Boxed::new(self.alloc, rule)?, rest))
    }

    /// A rule behind this word.
    pub fn rule_after<'t>(
        &self,
        word: Class,
        tokens: &'t [Lexeme],
        levels: usize,
    ) -> Result<(RawRule, &'t [Lexeme]), Stop>
        requires nests { NestsRules self.now.below self.now.script (R.pre self.now.rule) (R.post self.now.rule) }
        requires less { levels < self.now.below }
        ensures { Gives models (λ x. (x.0, all_seen x.1.now)) result (read_in levels self.now.script (after word (rules.rule self.now.script)) (all_seen tokens.now)) }
    {
        let (_, rest) = expect(tokens, word)?;
        self.rule(rest, levels)
    }

    /// A rule behind this word, if the word is there.
    pub fn optional_rule<'t>(
        &self,
        word: Class,
        tokens: &'t [Lexeme],
        levels: usize,
    ) -> Result<(Option<Boxed<RawRule>>, &'t [Lexeme]), Stop>
        requires nests { NestsRules self.now.below self.now.script (R.pre self.now.rule) (R.post self.now.rule) }
        requires less { levels < self.now.below }
        ensures { Gives models (λ x. (x.0, all_seen x.1.now)) result (read_in levels self.now.script (either (shown Some (after word (rules.rule self.now.script))) (nothing [] None)) (all_seen tokens.now)) }
    {
        if !begins(tokens, word) {
            return Ok((None, tokens));
        }
        let (_, rest) = expect(tokens, word)?;
        let (rule, rest) = self.boxed_rule(rest, levels)?;
        Ok((Some(rule), rest))
    }

    /// The first one and those that follow.
    fn more_rules<'t>(
        &self,
        first: RawRule,
        tokens: &'t [Lexeme],
        levels: usize,
    ) -> Result<(Listed<RawRule>, &'t [Lexeme]), Stop>
        requires nests { NestsRules self.now.below self.now.script (R.pre self.now.rule) (R.post self.now.rule) }
        requires less { levels < self.now.below }
        ensures { Gives models (λ x. (x.0, all_seen x.1.now)) result (with_front models (first ∷ []) (read_in levels self.now.script (rules.more_rules self.now.script) (all_seen tokens.now))) }
    {
        let mut rules = Listed::new(self.alloc);
        rules.push(first)?;
        let mut rest = tokens;
        'rules: for _turn in 0..tokens.len() {
            if !begins_rule(rest, self.script) {
                return Ok((rules, rest));
            }
            let (rule, after) = self.rule(rest, levels)?;
            rules.push(rule)?;
            rest = after;
        }
        Ok((rules, rest))
    }

    pub fn rules<'t>(
        &self,
        tokens: &'t [Lexeme],
        levels: usize,
    ) -> Result<(Listed<RawRule>, &'t [Lexeme]), Stop>
        requires nests { NestsRules self.now.below self.now.script (R.pre self.now.rule) (R.post self.now.rule) }
        requires less { levels < self.now.below }
        ensures { Gives models (λ x. (x.0, all_seen x.1.now)) result (read_in levels self.now.script (shown (λ p. p.0 ∷ p.1) (both (rules.rule self.now.script) (rules.more_rules self.now.script))) (all_seen tokens.now)) }
    {
        let (first, rest) = self.rule(tokens, levels)?;
        self.more_rules(first, rest, levels)
    }

    #[tactic(auto, unfolding(asm_tree::specs::Rules::case_rule))]
    fn case<'t>(
        &self,
        tokens: &'t [Lexeme],
        levels: usize,
    ) -> Result<(RawRuleCase, &'t [Lexeme]), Stop>
        requires nests { NestsRules self.now.below self.now.script (R.pre self.now.rule) (R.post self.now.rule) }
        requires less { levels < self.now.below }
        ensures { Gives models (λ x. (x.0, all_seen x.1.now)) result (read_in levels self.now.script (rules.case_rule self.now.script) (all_seen tokens.now)) }
    {
        let (_, rest) = expect(tokens, Class::Case)?;
        let (label, rest) = boxed_term(self.alloc, rest, levels, self.script)?;
        let (rule, rest) = self.rule_after(Class::Colon, rest, levels)?;
        let label = label.into_inner();
        Ok((RawRuleCase { label, rule }, rest))
    }

    /// The first one and those that follow.
    fn more_cases<'t>(
        &self,
        first: RawRuleCase,
        tokens: &'t [Lexeme],
        levels: usize,
    ) -> Result<(Listed<RawRuleCase>, &'t [Lexeme]), Stop>
        requires nests { NestsRules self.now.below self.now.script (R.pre self.now.rule) (R.post self.now.rule) }
        requires less { levels < self.now.below }
        ensures { Gives models (λ x. (x.0, all_seen x.1.now)) result (with_front models (first ∷ []) (read_in levels self.now.script (rules.more_case_rules self.now.script) (all_seen tokens.now))) }
    {
        let mut cases = Listed::new(self.alloc);
        cases.push(first)?;
        let mut rest = tokens;
        'cases: for _turn in 0..tokens.len() {
            if !begins(rest, Class::Case) {
                return Ok((cases, rest));
            }
            let (case, after) = self.case(rest, levels)?;
            cases.push(case)?;
            rest = after;
        }
        Ok((cases, rest))
    }

    pub fn cases<'t>(
        &self,
        tokens: &'t [Lexeme],
        levels: usize,
    ) -> Result<(Listed<RawRuleCase>, &'t [Lexeme]), Stop>
        requires nests { NestsRules self.now.below self.now.script (R.pre self.now.rule) (R.post self.now.rule) }
        requires less { levels < self.now.below }
        ensures { Gives models (λ x. (x.0, all_seen x.1.now)) result (read_in levels self.now.script (shown (λ p. p.0 ∷ p.1) (both (rules.case_rule self.now.script) (rules.more_case_rules self.now.script))) (all_seen tokens.now)) }
    {
        let (first, rest) = self.case(tokens, levels)?;
        self.more_cases(first, rest, levels)
    }
}
