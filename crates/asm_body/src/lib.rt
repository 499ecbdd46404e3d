//! Reads the tokens of terms and rules into their trees.
#![tactic(auto)]

mod binding;
mod chain;
mod class;
mod digits;
mod leaf;
mod level;
mod levels;
mod lexeme;
mod named;
mod operator;
mod parse;
mod parts;
mod phrase;
mod primary;
mod reading;
mod rule_forms;
mod rule_reader;
mod rules;
mod sorts;
mod starts;
mod taking;
mod term_reader;
mod terms;

pub use binding::binders;
pub use lexeme::Lexeme;
pub use parse::{one_tree, rule, term};
pub use reading::{
    any_word, begins, begins_among, enter, enter_among, expect, expect_among, name, name_of, number,
};
pub use rule_reader::read_rule;
pub use sorts::{domains, functions};
pub use taking::lexemes;
pub use term_reader::{boxed_term, read_term};
