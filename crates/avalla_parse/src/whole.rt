//! A whole input file, and a whole scenario.

ghost use Rattle.std.specs.Prelude.{true};
ghost use Rattle.asm_grammar.specs.Whole.{GivesWhole, whole_at};
ghost use Rattle.asm_tree.specs.Language.{models};
ghost use Rattle.asm_tree.specs.Rules.{body};
ghost use Rattle.asm_tree.specs.Scripts as scripts;
ghost use Rattle.asm_tree.specs.Spelling.{limit};
ghost use Rattle.asm_body.specs.Seen.{all_seen};

use crate::block::scenario_from;
use crate::step::inputs_from;
use asm_body::Lexeme;
use asm_grammar::Stop;
use asm_tree::script::{RawInputs, RawScenario};
use std::alloc::Global;

/// The greatest nesting.
const LIMIT: usize = 64;

/// The settings that the tokens are.
#[tactic(auto, using(whole_file::proofs::Ending::endings), unfolding(asm_grammar::specs::Whole::whole_at))]
pub fn whole_inputs(alloc: Global, tokens: &[Lexeme]) -> Result<RawInputs, Stop>
    ensures { GivesWhole result (whole_at models (body true) scripts.inputs limit (all_seen tokens.now)) }
{
    let (inputs, rest) = inputs_from(alloc, tokens, LIMIT)?;
    if rest.is_empty() {
        Ok(inputs)
    } else {
        Err(Stop::Syntax(rest.len()))
    }
}

/// The scenario that the tokens are.
#[tactic(auto, using(whole_file::proofs::Ending::endings), unfolding(asm_grammar::specs::Whole::whole_at))]
pub fn whole_scenario(alloc: Global, tokens: &[Lexeme]) -> Result<RawScenario, Stop>
    ensures { GivesWhole result (whole_at models (body true) scripts.scenario limit (all_seen tokens.now)) }
{
    let (scenario, rest) = scenario_from(alloc, tokens, LIMIT)?;
    if rest.is_empty() {
        Ok(scenario)
    } else {
        Err(Stop::Syntax(rest.len()))
    }
}
