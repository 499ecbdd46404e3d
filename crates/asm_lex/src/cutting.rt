//! The tokens of a text.

ghost use Rattle.std.specs.Prelude.{◌≡◌, ◌≤◌, length};
ghost use Rattle.asm_lex.specs.Cut.{cut, GivesCut};

use crate::error::LexError;
use crate::piece::{Piece, piece_at};
use crate::token::{Token, Tokens};
use asm_list::Listed;
use std::alloc::Global;

/// The tokens of the text, each the longest at its place. The error is that of the first place where
/// no token is taken and nothing that separates tokens.
pub fn lex(alloc: Global, text: &[u8]) -> Result<Tokens, LexError>
    requires { length text.now ≤ 1048576 }
    ensures { GivesCut result (cut text.now) }
{
    let mut tokens = Listed::new(alloc);
    let mut at = 0usize;
    'pieces: while at < text.len() {
        match piece_at(text, at)? {
            (length, Piece::Gap) => at += length,
            (length, Piece::Token(kind)) => {
                let to = at + length;
                tokens.push(Token {
                    kind,
                    from: at as u32,
                    to: to as u32,
                })?;
                at = to;
            }
        }
    }
    Ok(tokens)
}
