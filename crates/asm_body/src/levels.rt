//! Operators, level by level.

ghost use Rattle.std.specs.Prelude.{◌≡◌, ◌<◌, ◌≤◌, [], ◌∷◌};
ghost use Rattle.asm_grammar.specs.Grammar.{Gives};
ghost use Rattle.asm_tree.specs.Language.{models};
ghost use Rattle.asm_tree.specs.Terms as terms;
ghost use Rattle.asm_body.specs.Levels as levels_of;
ghost use Rattle.asm_body.specs.Levels.{joined_to, tail};
ghost use Rattle.asm_body.specs.Nests.{Nests};
ghost use Rattle.asm_body.specs.Phrases.{seen_phrase};
ghost use Rattle.asm_body.specs.Reading.{read_in};
ghost use Rattle.asm_body.specs.Seen.{all_seen};

use crate::chain::Chain;
use crate::level::Level;
use crate::lexeme::Lexeme;
use crate::phrase::{Phrase, joined, unary_at};
use crate::reading::{begins, begins_among, enter, enter_among};
use crate::sorts::{comparisons, operators};
use crate::terms::Terms;
use asm_grammar::Stop;
use asm_tree::UnaryOp;
use asm_tree::class::Class;
use std::alloc::Global;

/// The level of the operands of a chain.
fn inner_level(chain: Chain) -> Level
    ensures { result ≡ levels_of.inner_level chain }
{
    match chain {
        Chain::Equivalence => Level::Implication,
        Chain::Disjunction => Level::Conjunction,
        Chain::Conjunction => Level::Negation,
        Chain::Sum => Level::Product,
        Chain::Product => Level::Opposite,
    }
}

impl<F: Fn(Global, Level, &[Lexeme], usize, bool) -> Result<(Phrase<'_>, &[Lexeme]), Stop>> Terms<
    F,
> {
    #[tactic(auto, using(crate::proofs::Sides::opposite_is, crate::proofs::Bodies::opposed_body))]
    pub fn opposite<'t>(
        &self,
        tokens: &'t [Lexeme],
        levels: usize,
    ) -> Result<(Phrase<'t>, &'t [Lexeme]), Stop>
        requires nests { Nests self.now.below self.now.script (F.pre self.now.operand) (F.post self.now.operand) }
        requires fits { levels ≤ self.now.below }
        ensures { Gives models (λ x. (seen_phrase x.0, all_seen x.1.now)) result (read_in levels self.now.script (terms.opposite self.now.script) (all_seen tokens.now)) }
    {
        if !begins(tokens, Class::Minus) {
            return self.primary(tokens, levels);
        }
        let (minus, levels, rest) = enter(tokens, Class::Minus, levels)?;
        let (operand, rest) = self.operand(Level::Opposite, rest, levels)?;
        Ok((
            unary_at(self.alloc, minus, UnaryOp::Negate, operand.term)?,
            rest,
        ))
    }

    #[tactic(auto, using(crate::proofs::Sides::negation_is, crate::proofs::Bodies::negated_body))]
    pub fn negation<'t>(
        &self,
        tokens: &'t [Lexeme],
        levels: usize,
    ) -> Result<(Phrase<'t>, &'t [Lexeme]), Stop>
        requires nests { Nests self.now.below self.now.script (F.pre self.now.operand) (F.post self.now.operand) }
        requires fits { levels ≤ self.now.below }
        ensures { Gives models (λ x. (seen_phrase x.0, all_seen x.1.now)) result (read_in levels self.now.script (terms.negation self.now.script) (all_seen tokens.now)) }
    {
        if !begins(tokens, Class::Not) {
            return self.comparison(tokens, levels);
        }
        let (not, levels, rest) = enter(tokens, Class::Not, levels)?;
        let (operand, rest) = self.operand(Level::Negation, rest, levels)?;
        Ok((unary_at(self.alloc, not, UnaryOp::Not, operand.term)?, rest))
    }

    #[tactic(auto, using(crate::proofs::Sides::comparison_tail_is, crate::proofs::Bodies::compared_body), unfolding(asm_tree::specs::Terms::comparison))]
    fn comparison<'t>(
        &self,
        tokens: &'t [Lexeme],
        levels: usize,
    ) -> Result<(Phrase<'t>, &'t [Lexeme]), Stop>
        requires nests { Nests self.now.below self.now.script (F.pre self.now.operand) (F.post self.now.operand) }
        requires fits { levels ≤ self.now.below }
        ensures { Gives models (λ x. (seen_phrase x.0, all_seen x.1.now)) result (read_in levels self.now.script (terms.comparison self.now.script) (all_seen tokens.now)) }
    {
        let (left, rest) = self.sum(tokens, levels)?;
        if !begins_among(rest, comparisons()) {
            return Ok((left, rest));
        }
        let (operator, levels, rest) = enter_among(rest, comparisons(), levels)?;
        let (right, rest) = self.operand(Level::Sum, rest, levels)?;
        Ok((joined(self.alloc, left, operator, right)?, rest))
    }

    #[tactic(auto, using(crate::proofs::Sides::implication_tail_is, crate::proofs::Bodies::implied_body), unfolding(asm_tree::specs::Terms::implication))]
    pub fn implication<'t>(
        &self,
        tokens: &'t [Lexeme],
        levels: usize,
    ) -> Result<(Phrase<'t>, &'t [Lexeme]), Stop>
        requires nests { Nests self.now.below self.now.script (F.pre self.now.operand) (F.post self.now.operand) }
        requires fits { levels ≤ self.now.below }
        ensures { Gives models (λ x. (seen_phrase x.0, all_seen x.1.now)) result (read_in levels self.now.script (terms.implication self.now.script) (all_seen tokens.now)) }
    {
        let (left, rest) = self.disjunction(tokens, levels)?;
        if !begins(rest, Class::Implies) {
            return Ok((left, rest));
        }
        let (operator, levels, rest) = enter(rest, Class::Implies, levels)?;
        let (right, rest) = self.operand(Level::Implication, rest, levels)?;
        Ok((joined(self.alloc, left, operator, right)?, rest))
    }

    /// The first operand with the operators and operands of the chain that follow; the first operator binds first.
    fn chained<'t>(
        &self,
        chain: Chain,
        first: Phrase<'t>,
        tokens: &'t [Lexeme],
        levels: usize,
    ) -> Result<(Phrase<'t>, &'t [Lexeme]), Stop>
        requires nests { Nests self.now.below self.now.script (F.pre self.now.operand) (F.post self.now.operand) }
        requires fits { levels ≤ self.now.below }
        ensures { Gives models (λ x. (seen_phrase x.0, all_seen x.1.now)) result (joined_to (seen_phrase first.entry) (read_in levels self.now.script (tail self.now.script chain) (all_seen tokens.now))) }
    {
        let level = inner_level(chain);
        let wanted = operators(chain);
        let mut left = first;
        let mut rest = tokens;
        let mut free = levels;
        'turns: while begins_among(rest, wanted) {
            let (operator, fewer, after) = enter_among(rest, wanted, free)?;
            let (right, after) = self.operand(level, after, fewer)?;
            left = joined(self.alloc, left, operator, right)?;
            free = fewer;
            rest = after;
        }
        Ok((left, rest))
    }

    #[tactic(auto, using(crate::proofs::Sides::product_begins), unfolding(asm_tree::specs::Terms::product))]
    pub fn product<'t>(
        &self,
        tokens: &'t [Lexeme],
        levels: usize,
    ) -> Result<(Phrase<'t>, &'t [Lexeme]), Stop>
        requires nests { Nests self.now.below self.now.script (F.pre self.now.operand) (F.post self.now.operand) }
        requires fits { levels ≤ self.now.below }
        ensures { Gives models (λ x. (seen_phrase x.0, all_seen x.1.now)) result (read_in levels self.now.script (terms.product self.now.script) (all_seen tokens.now)) }
    {
        let (first, rest) = self.opposite(tokens, levels)?;
        self.chained(Chain::Product, first, rest, levels)
    }

    #[tactic(auto, using(crate::proofs::Sides::sum_begins), unfolding(asm_tree::specs::Terms::sum))]
    pub fn sum<'t>(
        &self,
        tokens: &'t [Lexeme],
        levels: usize,
    ) -> Result<(Phrase<'t>, &'t [Lexeme]), Stop>
        requires nests { Nests self.now.below self.now.script (F.pre self.now.operand) (F.post self.now.operand) }
        requires fits { levels ≤ self.now.below }
        ensures { Gives models (λ x. (seen_phrase x.0, all_seen x.1.now)) result (read_in levels self.now.script (terms.sum self.now.script) (all_seen tokens.now)) }
    {
        let (first, rest) = self.product(tokens, levels)?;
        self.chained(Chain::Sum, first, rest, levels)
    }

    #[tactic(auto, using(crate::proofs::Sides::conjunction_begins), unfolding(asm_tree::specs::Terms::conjunction))]
    pub fn conjunction<'t>(
        &self,
        tokens: &'t [Lexeme],
        levels: usize,
    ) -> Result<(Phrase<'t>, &'t [Lexeme]), Stop>
        requires nests { Nests self.now.below self.now.script (F.pre self.now.operand) (F.post self.now.operand) }
        requires fits { levels ≤ self.now.below }
        ensures { Gives models (λ x. (seen_phrase x.0, all_seen x.1.now)) result (read_in levels self.now.script (terms.conjunction self.now.script) (all_seen tokens.now)) }
    {
        let (first, rest) = self.negation(tokens, levels)?;
        self.chained(Chain::Conjunction, first, rest, levels)
    }

    #[tactic(auto, using(crate::proofs::Sides::disjunction_begins), unfolding(asm_tree::specs::Terms::disjunction))]
    fn disjunction<'t>(
        &self,
        tokens: &'t [Lexeme],
        levels: usize,
    ) -> Result<(Phrase<'t>, &'t [Lexeme]), Stop>
        requires nests { Nests self.now.below self.now.script (F.pre self.now.operand) (F.post self.now.operand) }
        requires fits { levels ≤ self.now.below }
        ensures { Gives models (λ x. (seen_phrase x.0, all_seen x.1.now)) result (read_in levels self.now.script (terms.disjunction self.now.script) (all_seen tokens.now)) }
    {
        let (first, rest) = self.conjunction(tokens, levels)?;
        self.chained(Chain::Disjunction, first, rest, levels)
    }

    #[tactic(auto, using(crate::proofs::Sides::equivalence_begins), unfolding(asm_tree::specs::Terms::equivalence))]
    pub fn equivalence<'t>(
        &self,
        tokens: &'t [Lexeme],
        levels: usize,
    ) -> Result<(Phrase<'t>, &'t [Lexeme]), Stop>
        requires nests { Nests self.now.below self.now.script (F.pre self.now.operand) (F.post self.now.operand) }
        requires fits { levels ≤ self.now.below }
        ensures { Gives models (λ x. (seen_phrase x.0, all_seen x.1.now)) result (read_in levels self.now.script (terms.equivalence self.now.script) (all_seen tokens.now)) }
    {
        let (first, rest) = self.implication(tokens, levels)?;
        self.chained(Chain::Equivalence, first, rest, levels)
    }
}
