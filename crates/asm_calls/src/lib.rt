//! Who calls whom in a model, and what is wrong with that: cycles and long chains of definitions and of rules, and reads
//! of functions that may not be read.
#![tactic(auto)]

mod call_pass;
mod called;
mod caller;
mod endless;
mod gather;
mod graphs;
mod marks;
mod places;
mod read;
mod read_pass;

pub use call_pass::calls;
pub use read_pass::reads;
