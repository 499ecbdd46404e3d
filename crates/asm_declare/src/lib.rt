//! What is wrong with the names and the domains that files declare, and the lists of their signature.
#![tactic(auto)]

mod constants;
mod defining;
mod enter;
mod listing;
mod locations;
mod measure;
mod measuring;
mod naming;
mod numbers;
mod numerals;
mod own;
mod passes;
mod standing;
mod tables;
mod targets;
mod universe;

pub use listing::function_list;
pub use naming::names;
pub use passes::{domains, functions};
pub use universe::domain_list;
