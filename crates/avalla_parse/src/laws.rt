//! What the definitions of an input file and of a scenario stand on.

ghost use Rattle.std.specs.Prelude.{◌≡◌, ◌≢◌, ◌↔◌, ℕ, List, Ok, Err};
ghost use Rattle.asm_lex.specs.declared.token.Token.{Token};
ghost use Rattle.asm_tree.specs.Scripts as language;
ghost use Rattle.asm_tree.specs.declared.error.ParseError.{ParseError};
ghost use Rattle.asm_tree.specs.declared.error.ParseError.TheVariants.{Memory};
ghost use Rattle.asm_tree.specs.declared.script.RawInputs.{RawInputs};
ghost use Rattle.asm_tree.specs.declared.script.RawScenario.{RawScenario};
ghost use Rattle.avalla_parse.specs.Parsed.{parsed_inputs, parsed_scenario};
ghost use Rattle.whole_file.specs.Trees.{IsTree, Explains};

/// The law that `parsed_inputs` gives the settings that tokens spell where they spell an input file, and the
/// error that explains why they don't where they spell none; and that `parsed_scenario` does so for scenarios.
pub fn parsed_is_spelled()
    ensures inputs { (text : List ℕ) (ts : List Token) (y : RawInputs) → (parsed_inputs text ts ≡ Ok y) ↔ IsTree language.inputs text ts y }
    ensures error { (text : List ℕ) (ts : List Token) (e : ParseError) → e ≢ Memory → (parsed_inputs text ts ≡ Err e) ↔ Explains language.inputs text ts e }
    ensures scenario { (text : List ℕ) (ts : List Token) (y : RawScenario) → (parsed_scenario text ts ≡ Ok y) ↔ IsTree language.scenario text ts y }
    ensures scenario_error { (text : List ℕ) (ts : List Token) (e : ParseError) → e ≢ Memory → (parsed_scenario text ts ≡ Err e) ↔ Explains language.scenario text ts e }
{}
