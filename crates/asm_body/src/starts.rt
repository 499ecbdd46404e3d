//! Which tokens terms and rules begin with.

ghost use Rattle.std.specs.Prelude.{◌≡◌};
ghost use Rattle.asm_grammar.specs.Grammar.{has, ahead, firsts};
ghost use Rattle.asm_tree.specs.Language.{models};
ghost use Rattle.asm_tree.specs.Rules as rules;
ghost use Rattle.asm_tree.specs.Terms as terms;
ghost use Rattle.asm_body.specs.Seen.{all_seen};

use crate::lexeme::Lexeme;
use crate::reading::{begins, begins_among};
use crate::sorts::{functions, leaves, names};
use asm_tree::class::Class;

/// Whether the first token begins a term.
#[tactic(auto, using(crate::proofs::FirstTokens::term_starts))]
pub fn begins_term(tokens: &[Lexeme], script: bool) -> bool
    ensures { result ≡ has (ahead models (all_seen tokens.now) 0) (firsts models (terms.terms script)) }
{
    begins_among(tokens, &[Class::Not, Class::Minus])
        || begins_among(tokens, leaves())
        || begins_among(tokens, functions(script))
        || begins_among(tokens, names())
        || begins_among(tokens, &[Class::Open, Class::If, Class::Switch, Class::Let])
}

/// Whether the first token begins a rule.
#[tactic(auto, using(crate::proofs::FirstTokens::rule_starts))]
pub fn begins_rule(tokens: &[Lexeme], script: bool) -> bool
    ensures { result ≡ has (ahead models (all_seen tokens.now) 0) (firsts models (rules.rule script)) }
{
    begins(tokens, Class::Skip)
        || begins_among(tokens, functions(script))
        || begins_among(
            tokens,
            &[
                Class::RuleName,
                Class::Par,
                Class::Seq,
                Class::If,
                Class::Switch,
                Class::Let,
                Class::Forall,
                Class::Choose,
            ],
        )
}
