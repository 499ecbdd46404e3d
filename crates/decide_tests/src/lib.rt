//! The tests of decisions, over a table of two answers and two cases.
#![tactic(auto)]

mod choice;
mod rows;
mod table;
#[cfg(test)]
mod verdicts;
