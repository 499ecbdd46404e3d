//! Tokens.

use asm_list::Listed;

#[derive(Clone, Copy, Debug, PartialEq, Eq)]
pub enum Kind {
    Word,
    /// A word behind `$`.
    Variable,
    /// Digits whose number is at most 2,147,483,648.
    Number,
    Symbol,
}

/// A token of a text: the bytes from the place `from` up to, and without, the place `to`.
#[derive(Clone, Copy, Debug, PartialEq, Eq)]
pub struct Token {
    pub kind: Kind,
    pub from: u32,
    pub to: u32,
}

/// The tokens of a text, in its order.
pub type Tokens = Listed<Token>;
