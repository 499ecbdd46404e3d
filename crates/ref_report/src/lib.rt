//! What a refinement came to, and how it is printed.
#![tactic(auto)]

mod input;
mod linked;
mod links;
mod outcome;
mod report;
mod step;

pub use linked::LinkedModels;
pub use links::print_links;
pub use outcome::print_report;
pub use report::{Difference, Possible, Report, Step};
