//! The types of terms, and what is wrong with a term in a scope.
#![tactic(auto)]

mod binders;
mod body_pass;
mod collecting;
mod domains;
mod functions;
mod given;
mod heads;
mod kind;
mod missing_pass;
mod note;
mod parts;
pub mod rule;
mod scope;
pub mod term;

pub use binders::{binder_faults, within};
pub use body_pass::bodies;
pub use heads::{Heads, Types};
pub use missing_pass::missing;
pub use scope::Scope;
