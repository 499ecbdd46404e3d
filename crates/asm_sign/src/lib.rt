//! The signature of a model: its domains and functions, and its dynamic locations in their order.
#![tactic(auto)]

mod function;
mod search;
mod signature;
mod tuple;

pub use function::{DeclaredDomain, Domains, FunKind, Function, Functions};
pub use signature::{Args, Signature};
