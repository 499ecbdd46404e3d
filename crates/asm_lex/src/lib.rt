//! Cuts a text into tokens.
#![tactic(auto)]

mod cutting;
mod error;
mod piece;
mod token;

pub use cutting::lex;
pub use error::LexError;
pub use token::{Kind, Token, Tokens};
