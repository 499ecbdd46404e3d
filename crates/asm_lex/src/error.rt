//! Why a text has no tokens.

ghost use Rattle.std.specs.Prelude.{◌≡◌};
ghost use Rattle.asm_lex.specs.declared.error.LexError.TheVariants.{Memory};

use std::alloc::AllocError;

/// Each with the place of a byte.
#[derive(Clone, Copy, Debug, PartialEq, Eq)]
pub enum LexError {
    /// The byte at this place begins no token and separates none.
    BadByte(u32),
    /// The comment that begins at this place with `/*` is never closed.
    OpenComment(u32),
    /// The number that begins at this place is above 2,147,483,648.
    NumberTooBig(u32),
    Memory,
}

impl From<AllocError> for LexError {
    ghost from_gives = { λ _ e. e ≡ Memory };

    fn from(_error: AllocError) -> LexError {
        LexError::Memory
    }
}
