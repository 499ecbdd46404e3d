//! Laws of the language.

ghost use Rattle.std.specs.Prelude.{true, false};
ghost use Rattle.asm_grammar.specs.Text.{OneTree};
ghost use Rattle.asm_tree.specs.Language.{models};
ghost use Rattle.asm_tree.specs.Rules.{body};
ghost use Rattle.asm_tree.specs.Scripts as scripts;
ghost use Rattle.asm_tree.specs.Units as units;

/// A text has at most one tree as a file of a model, as an input file, and as a scenario, and its tokens determine how
/// deep each nests.
#[tactic(auto, using(crate::proofs::Unique::one_unit, crate::proofs::Unique::one_inputs, crate::proofs::Unique::one_scenario))]
pub fn one_tree()
    ensures unit { OneTree models (body false) units.unit }
    ensures inputs { OneTree models (body true) scripts.inputs }
    ensures scenario { OneTree models (body true) scripts.scenario }
{}
