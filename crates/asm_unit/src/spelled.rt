//! What the text of a file is.
ghost use Rattle.std.specs.Prelude.{◌≡◌, ◌≢◌, ◌≤◌, ◌<◌, ◌^◌, length, Ok};
ghost use Rattle.asm_lex.specs.Cut.{cut};
ghost use Rattle.asm_unit.specs.Spelled as spelled;
ghost use Rattle.asm_unit.specs.Loading.{Judges};

use crate::error::LoadError;
use crate::one::tokens_of;
use crate::parse::parsed;
use asm_lex::Token;
use asm_list::Boxed;
use asm_source::Place;
use asm_tree::ParseError;
use asm_tree::unit::RawUnit;
use std::alloc::Global;

/// The byte of token `number`, or the end of the text.
fn token_place(text: &[u8], tokens: &[Token], number: u32) -> u32
    requires { length text.now < 2 ^ 31 }
    ensures { result ≡ spelled.token_place text.now tokens.now number }
{
    match tokens.get(number as usize) {
        Some(token) => token.from,
        None => text.len() as u32,
    }
}

fn parse_fault(file: u32, text: &[u8], tokens: &[Token], error: ParseError) -> LoadError
    requires { length text.now < 2 ^ 31 }
    ensures { result ≡ spelled.parse_fault file text.now tokens.now error }
{
    let number = match error {
        ParseError::Syntax(number) => number,
        ParseError::Unsupported(number) => number,
        ParseError::TooDeep(number) => number,
        ParseError::Memory => return LoadError::Memory,
    };
    let at = token_place(text, tokens, number);
    LoadError::Parse(Place { file, at }, error)
}

/// The unit of the text of the file of this number, in a box.
pub fn boxed_tree_of(alloc: Global, file: u32, text: &[u8]) -> Result<Boxed<RawUnit>, LoadError>
    requires { length text.now ≤ 1048576 }
    ensures { Judges result (spelled.tree_of file text.now) }
{
    let unit = tree_of(alloc, file, text)?;
    Ok(Boxed::new(alloc, unit)?)
}

/// The unit of the text of the file of this number.
#[tactic(auto, unfolding(crate::specs::Spelled::tree_of))]
fn tree_of(alloc: Global, file: u32, text: &[u8]) -> Result<RawUnit, LoadError>
    requires { length text.now ≤ 1048576 }
    ensures { Judges result (spelled.tree_of file text.now) }
{
    let tokens = tokens_of(alloc, file, text)?;
    let listed = tokens.slice();
    match parsed(alloc, text, listed) {
        Ok(unit) => Ok(unit),
        Err(error) => Err(parse_fault(file, text, listed, error)),
    }
}
