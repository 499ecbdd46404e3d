//! The calls that read an input file and a scenario.

ghost use Rattle.std.specs.Prelude.{◌≡◌, ◌≢◌, ◌<◌, ◌^◌, length, Ok, IfOk, IfErr};
ghost use Rattle.asm_lex.specs.Cut.{cut};
ghost use Rattle.asm_tree.specs.Scripts as language;
ghost use Rattle.asm_tree.specs.declared.error.ParseError.{ParseError};
ghost use Rattle.asm_tree.specs.declared.error.ParseError.TheVariants.{Memory};
ghost use Rattle.asm_tree.specs.declared.script.RawInputs.{RawInputs};
ghost use Rattle.asm_tree.specs.declared.script.RawScenario.{RawScenario};
ghost use Rattle.avalla_parse.specs.Parsed.{parsed_inputs, parsed_scenario};
ghost use Rattle.whole_file.specs.Parsed.{Parses};
ghost use Rattle.whole_file.specs.Trees.{IsTree, AgreesWith, Explains, RefusesWith};

use crate::whole::{whole_inputs, whole_scenario};
use asm_body::lexemes;
use asm_lex::Token;
use asm_tree::ParseError;
use asm_tree::script::{RawInputs, RawScenario};
use std::alloc::Global;
use whole_file::explained;

/// The settings that the tokens of an input file are.
pub fn inputs(alloc: Global, text: &[u8], tokens: &[Token]) -> Result<RawInputs, ParseError>
    requires together { cut text.now ≡ Ok tokens.now }
    requires small { length text.now < 2 ^ 31 }

    // What is read is spelled so, and none of its tokens nests too deep.
    ensures found { IfOk result (λ y. IsTree language.inputs text.now tokens.now y) }
    // What is spelled so is read, unless memory runs out.
    ensures only { (y : RawInputs) → IsTree language.inputs text.now tokens.now y → AgreesWith y result }
    // An error is at the first token with which no input file goes on, or the first that nests too deep.
    ensures refused { IfErr result (λ e. Explains language.inputs text.now tokens.now e) }
    // Where there is such a token, that is the error, unless memory runs out.
    ensures refuses { (e : ParseError) → e ≢ Memory → Explains language.inputs text.now tokens.now e → RefusesWith e result }
    // The same as a function of the text.
    ensures parses { Parses result (parsed_inputs text.now tokens.now) }
{
    read_inputs(alloc, text, tokens)
}

/// The scenario that the tokens are.
pub fn scenario(alloc: Global, text: &[u8], tokens: &[Token]) -> Result<RawScenario, ParseError>
    requires together { cut text.now ≡ Ok tokens.now }
    requires small { length text.now < 2 ^ 31 }

    // What is read is spelled so, and none of its tokens nests too deep.
    ensures found { IfOk result (λ y. IsTree language.scenario text.now tokens.now y) }
    // What is spelled so is read, unless memory runs out.
    ensures only { (y : RawScenario) → IsTree language.scenario text.now tokens.now y → AgreesWith y result }
    // An error is at the first token with which no scenario goes on, or the first that nests too deep.
    ensures refused { IfErr result (λ e. Explains language.scenario text.now tokens.now e) }
    // Where there is such a token, that is the error, unless memory runs out.
    ensures refuses { (e : ParseError) → e ≢ Memory → Explains language.scenario text.now tokens.now e → RefusesWith e result }
    // The same as a function of the text.
    ensures parses { Parses result (parsed_scenario text.now tokens.now) }
{
    read_scenario(alloc, text, tokens)
}

/// The settings as a function of the text alone.
fn read_inputs(alloc: Global, text: &[u8], tokens: &[Token]) -> Result<RawInputs, ParseError>
    requires together { cut text.now ≡ Ok tokens.now }
    requires small { length text.now < 2 ^ 31 }
    ensures { Parses result (parsed_inputs text.now tokens.now) }
{
    let lexemes = lexemes(alloc, text, tokens)?;
    let listed = lexemes.as_slice();
    match whole_inputs(alloc, listed) {
        Ok(inputs) => Ok(inputs),
        Err(stop) => Err(explained(listed, stop)),
    }
}

/// The scenario as a function of the text alone.
fn read_scenario(alloc: Global, text: &[u8], tokens: &[Token]) -> Result<RawScenario, ParseError>
    requires together { cut text.now ≡ Ok tokens.now }
    requires small { length text.now < 2 ^ 31 }
    ensures { Parses result (parsed_scenario text.now tokens.now) }
{
    let lexemes = lexemes(alloc, text, tokens)?;
    let listed = lexemes.as_slice();
    match whole_scenario(alloc, listed) {
        Ok(scenario) => Ok(scenario),
        Err(stop) => Err(explained(listed, stop)),
    }
}
