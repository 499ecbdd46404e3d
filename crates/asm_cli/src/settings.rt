//! The settings of an input file.
ghost use Rattle.std.specs.Prelude.{◌≡◌, ◌≤◌, ◌<◌, ◌^◌, IfErr, Ok, length};
ghost use Rattle.asm_io.specs.Outside.{Told, Rose};
ghost use Rattle.asm_source.specs.Spots.{text_of};
ghost use Rattle.asm_lex.specs.Cut.{cut};
ghost use Rattle.asm_unit.specs.Loading.{tokens_in, Follows, OnRead, AddsFiles, Judges};
ghost use Rattle.asm_unit.specs.Spelled as unit_spec;
ghost use Rattle.avalla_parse.specs.Parsed.{parsed_inputs};
ghost use Rattle.asm_cli.specs.Answer as spec;
ghost use Rattle.asm_cli.specs.Saying as saying;
ghost use Rattle.asm_cli.specs.Words.{name_seen};

use crate::fault::text_in;
use asm_io::{Place, Shelf, Sources};
use asm_lex::Token;
use asm_list::Listed;
use asm_tree::ParseError;
use asm_tree::script::RawInputs;
use asm_unit::{LoadError, load_one};
use avalla_parse::inputs;
use std::alloc::Global;

/// The greatest number of bytes of an input file and of a scenario.
pub const MOST_BYTES: u64 = 1_048_576;

/// The settings of the input file of this name, which is added to the sources. Without a name nothing is given.
pub fn settings<S: Shelf>(
    alloc: Global,
    name: Option<&str>,
    shelf: &mut S,
    sources: &mut Sources,
) -> Result<RawInputs, LoadError>
    requires few { length sources.old < 2 ^ 31 }
    ensures told { Told (S.files shelf.old) (λ files. Follows (spec.settings files (name_seen name.entry) sources.old) sources.new result) }
    ensures failed { IfErr result (λ e. OnRead e (Rose (S.faults shelf.old) (S.faults shelf.new))) }
    ensures added { AddsFiles spec.most_input_bytes sources.old sources.new }
    ensures files { S.files shelf.new ≡ S.files shelf.old }
    ensures later { S.faults shelf.old ≤ S.faults shelf.new }
{
    match name {
        Some(name) => settings_of(alloc, name, shelf, sources),
        None => Ok(RawInputs {
            steps: Listed::new(alloc),
        }),
    }
}

/// The settings of the input file of this name.
fn settings_of<S: Shelf>(
    alloc: Global,
    name: &str,
    shelf: &mut S,
    sources: &mut Sources,
) -> Result<RawInputs, LoadError>
    requires few { length sources.old < 2 ^ 31 }
    ensures told { Told (S.files shelf.old) (λ files. Follows (spec.settings_of (length sources.old) (tokens_in files spec.most_input_bytes name.now sources.old)) sources.new result) }
    ensures failed { IfErr result (λ e. OnRead e (Rose (S.faults shelf.old) (S.faults shelf.new))) }
    ensures added { AddsFiles spec.most_input_bytes sources.old sources.new }
    ensures files { S.files shelf.new ≡ S.files shelf.old }
    ensures later { S.faults shelf.old ≤ S.faults shelf.new }
{
    let file = sources.len() as u32;
    let tokens = load_one(alloc, shelf, name, MOST_BYTES, sources)?;
    spelled(alloc, file, text_in(sources, file), tokens.slice())
}

/// What the tokens of the text of the file of this number spell.
fn spelled(alloc: Global, file: u32, text: &[u8], tokens: &[Token]) -> Result<RawInputs, LoadError>
    requires together { cut text.now ≡ Ok tokens.now }
    requires small { length text.now < 2 ^ 31 }
    ensures { Judges result (saying.spelled file text.now tokens.now (parsed_inputs text.now tokens.now)) }
{
    match inputs(alloc, text, tokens) {
        Ok(raw) => Ok(raw),
        Err(error) => Err(parse_fault(file, text, tokens, error)),
    }
}

/// The fault at the token where the settings end too soon or go on.
pub fn parse_fault(file: u32, text: &[u8], tokens: &[Token], error: ParseError) -> LoadError
    requires { length text.now < 2 ^ 31 }
    ensures { result ≡ unit_spec.parse_fault file text.now tokens.now error }
{
    let number = match error {
        ParseError::Syntax(number) => number,
        ParseError::Unsupported(number) => number,
        ParseError::TooDeep(number) => number,
        ParseError::Memory => return LoadError::Memory,
    };
    let at = token_place(text, tokens, number);
    LoadError::Parse(Place { file, at }, error)
}

/// The byte of token `number`, or the end of the text.
fn token_place(text: &[u8], tokens: &[Token], number: u32) -> u32
    requires { length text.now < 2 ^ 31 }
    ensures { result ≡ unit_spec.token_place text.now tokens.now number }
{
    match tokens.get(number as usize) {
        Some(token) => token.from,
        None => text.len() as u32,
    }
}
