//! The values of terms, and the states in which runs begin.
#![tactic(auto)]

mod begin;
mod bind;
mod error;
mod location;
mod number;
mod operation;
mod quantify;
mod terms;
mod truth;
mod tuple;
mod world;

pub use asm_node::{is_element, within};
pub use begin::initial;
pub use bind::{bound, parameters};
pub use error::{EvalError, InitError};
pub use location::constant_of;
pub use operation::apply;
pub use terms::{eval, eval_all, eval_in};
pub use truth::is_undef;
pub use tuple::{Tuples, tuples_of};
pub use world::World;
