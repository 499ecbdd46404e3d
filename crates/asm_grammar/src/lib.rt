//! The theory of grammars as data: what a grammar spells, and how one is read with one token ahead.
#![tactic(auto)]

ghost use Rattle.std.specs.Prelude.{◌≡◌};
ghost use Rattle.asm_grammar.specs.declared.Stop.TheVariants.{Memory};

use std::alloc::AllocError;

/// Why reading stopped.
#[derive(Clone, Copy, Debug, PartialEq, Eq)]
pub enum Stop {
    Memory,
    /// No text goes on with the token that has this many tokens from it on.
    Syntax(usize),
    /// The token that has this many tokens from it on nests too deep.
    TooDeep(usize),
}

impl From<AllocError> for Stop {
    ghost from_gives = { λ _ e. e ≡ Memory };

    fn from(_error: AllocError) -> Stop {
        Stop::Memory
    }
}
