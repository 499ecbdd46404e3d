//! The call that reads a unit.

ghost use Rattle.std.specs.Prelude.{◌≡◌, ◌≢◌, ◌≤◌, ◌<◌, ◌^◌, length, Ok, IfOk, IfErr};
ghost use Rattle.asm_lex.specs.Cut.{cut};
ghost use Rattle.asm_tree.specs.declared.error.ParseError.{ParseError};
ghost use Rattle.asm_tree.specs.declared.error.ParseError.TheVariants.{Memory};
ghost use Rattle.asm_tree.specs.declared.unit.RawUnit.{RawUnit};
ghost use Rattle.asm_body.specs.Seen.{all_seen};
ghost use Rattle.asm_unit.specs.Spelled as spelled;
ghost use Rattle.asm_unit.specs.Spelled.{Counts, Parses};
ghost use Rattle.asm_unit.specs.Unit.{IsUnit, AgreesWith, Explains, RefusesWith};

use crate::whole::whole;
use asm_body::{Lexeme, lexemes};
use asm_grammar::Stop;
use asm_lex::Token;
use asm_tree::ParseError;
use asm_tree::class::{Class, kind};
use asm_tree::unit::RawUnit;
use std::alloc::Global;

/// The unit that the tokens of the text are.
pub fn unit(alloc: Global, text: &[u8], tokens: &[Token]) -> Result<RawUnit, ParseError>
    requires together { cut text.now ≡ Ok tokens.now }
    requires small { length text.now < 2 ^ 31 }

    // What is read is spelled so, and none of its tokens nests too deep.
    ensures found { IfOk result (λ y. IsUnit text.now tokens.now y) }
    // What is spelled so is read, unless memory runs out.
    ensures only { (y : RawUnit) → IsUnit text.now tokens.now y → AgreesWith y result }
    // An error is at the first token with which no unit goes on, or the first that nests too deep.
    ensures refused { IfErr result (λ e. Explains text.now tokens.now e) }
    // Where there is such a token, that is the error, unless memory runs out.
    ensures refuses { (e : ParseError) → e ≢ Memory → Explains text.now tokens.now e → RefusesWith e result }
{
    parsed(alloc, text, tokens)
}

/// The same as a function of the text.
pub fn parsed(alloc: Global, text: &[u8], tokens: &[Token]) -> Result<RawUnit, ParseError>
    requires together { cut text.now ≡ Ok tokens.now }
    requires small { length text.now < 2 ^ 31 }
    ensures { Parses result (spelled.parsed text.now tokens.now) }
{
    let lexemes = lexemes(alloc, text, tokens)?;
    let listed = lexemes.as_slice();
    match whole(alloc, listed) {
        Ok(unit) => Ok(unit),
        Err(stop) => Err(explained(listed, stop)),
    }
}

/// The error where reading stopped.
fn explained(tokens: &[Lexeme], stop: Stop) -> ParseError
    requires counts { Counts (length tokens.now) stop }
    requires few { length tokens.now < 2 ^ 31 }
    ensures { result ≡ spelled.error_of (all_seen tokens.now) stop }
{
    match stop {
        Stop::Memory => ParseError::Memory,
        Stop::Syntax(left) => refusal(tokens, tokens.len() - left),
        Stop::TooDeep(left) => ParseError::TooDeep((tokens.len() - left) as u32),
    }
}

/// The error where this token is refused.
fn refusal(tokens: &[Lexeme], number: usize) -> ParseError
    requires { number < 2 ^ 32 }
    ensures { result ≡ spelled.refusal (all_seen tokens.now) number }
{
    if is_left_out(tokens, number) {
        ParseError::Unsupported(number as u32)
    } else {
        ParseError::Syntax(number as u32)
    }
}

/// Whether this token is a word of a form that the language leaves out.
fn is_left_out(tokens: &[Lexeme], number: usize) -> bool
    ensures { result ≡ spelled.is_left_out (all_seen tokens.now) number }
{
    match tokens.get(number) {
        Some(token) => kind(token.class) == kind(Class::Unsupported),
        None => false,
    }
}
