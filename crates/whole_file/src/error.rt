//! Why a file wasn't read.

ghost use Rattle.std.specs.Prelude.{◌≡◌, ◌<◌, ◌^◌, length};
ghost use Rattle.asm_body.specs.Fronts.{Counts, error_of};
ghost use Rattle.asm_body.specs.Seen.{all_seen};

use asm_body::{Lexeme, begins};
use asm_grammar::Stop;
use asm_tree::ParseError;
use asm_tree::class::Class;

/// The error where reading stopped.
#[tactic(auto, using(asm_body::proofs::Parsing::stops))]
pub fn explained(tokens: &[Lexeme], stop: Stop) -> ParseError
    requires counts { Counts (length tokens.now) stop }
    requires few { length tokens.now < 2 ^ 31 }
    ensures { result ≡ error_of (all_seen tokens.now) (length tokens.now) stop }
{
    match stop {
        Stop::Memory => ParseError::Memory,
        Stop::Syntax(left) => {
            if begins(&tokens[tokens.len() - left..], Class::Unsupported) {
                ParseError::Unsupported((tokens.len() - left) as u32)
            } else {
                ParseError::Syntax((tokens.len() - left) as u32)
            }
        }
        Stop::TooDeep(left) => ParseError::TooDeep((tokens.len() - left) as u32),
    }
}
