//! The file of a scenario.
ghost use Rattle.std.specs.Prelude.{◌≡◌, ◌+◌, ◌≤◌, ◌<◌, ◌^◌, [], IfErr, Ok, length};
ghost use Rattle.asm_io.specs.Outside.{Told, Rose};
ghost use Rattle.asm_lex.specs.Cut.{cut};
ghost use Rattle.asm_unit.specs.Loading.{Follows, OnRead, AddsFiles, Judges};
ghost use Rattle.avalla_parse.specs.Parsed.{parsed_scenario};
ghost use Rattle.asm_cli.specs.Saying as spec;
ghost use Rattle.asm_cli.specs.Plays.{scenario_in};

use crate::fault::text_in;
use crate::settings::{MOST_BYTES, parse_fault};
use asm_io::{Shelf, Sources};
use asm_lex::Token;
use asm_tree::script::RawScenario;
use asm_unit::{LoadError, load_one};
use avalla_parse::scenario;
use std::alloc::Global;

/// The scenario of this name, whose file is the first of the sources.
pub fn read_scenario<S: Shelf>(
    alloc: Global,
    name: &str,
    shelf: &mut S,
    sources: &mut Sources,
) -> Result<RawScenario, LoadError>
    requires none { sources.old ≡ [] }
    ensures told { Told (S.files shelf.old) (λ files. Follows (scenario_in files name.now) sources.new result) }
    ensures failed { IfErr result (λ e. OnRead e (Rose (S.faults shelf.old) (S.faults shelf.new))) }
    ensures added { AddsFiles spec.most_input_bytes sources.old sources.new }
    ensures one { length sources.new ≤ length sources.old + 1 }
    ensures files { S.files shelf.new ≡ S.files shelf.old }
    ensures later { S.faults shelf.old ≤ S.faults shelf.new }
{
    let tokens = load_one(alloc, shelf, name, MOST_BYTES, sources)?;
    spelled(alloc, 0, text_in(sources, 0), tokens.slice())
}

/// What the tokens of the text of the file of this number spell.
fn spelled(
    alloc: Global,
    file: u32,
    text: &[u8],
    tokens: &[Token],
) -> Result<RawScenario, LoadError>
    requires together { cut text.now ≡ Ok tokens.now }
    requires small { length text.now < 2 ^ 31 }
    ensures { Judges result (spec.spelled file text.now tokens.now (parsed_scenario text.now tokens.now)) }
{
    match scenario(alloc, text, tokens) {
        Ok(raw) => Ok(raw),
        Err(error) => Err(parse_fault(file, text, tokens, error)),
    }
}
