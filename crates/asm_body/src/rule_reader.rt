//! Rules: the readers of rules stand on this reader, with fewer levels.

ghost use Rattle.asm_grammar.specs.Grammar.{Gives};
ghost use Rattle.asm_tree.specs.Language.{models};
ghost use Rattle.asm_tree.specs.Rules as rules;
ghost use Rattle.asm_body.specs.Reading.{read_in};
ghost use Rattle.asm_body.specs.Seen.{all_seen};

use crate::lexeme::Lexeme;
use crate::rules::Rules;
use asm_grammar::Stop;
use asm_tree::rule::RawRule;
use std::alloc::Global;

/// The rule at the front, where so many levels of nesting are left. Where `script` is true, the words of scenarios are
/// reserved.
pub fn read_rule(
    alloc: Global,
    tokens: &[Lexeme],
    levels: usize,
    script: bool,
) -> Result<(RawRule, &[Lexeme]), Stop>
    ensures { Gives models (λ x. (x.0, all_seen x.1.now)) result (read_in levels script (rules.rule script) (all_seen tokens.now)) }
{
    let rules = Rules {
        alloc,
        script,
        below: levels,
        rule: read_rule,
    };
    rules.any(tokens, levels)
}
