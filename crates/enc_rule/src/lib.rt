//! What each form of rule gives, as pairs with literals, from what its parts give.
#![tactic(auto)]

mod cases;
mod forms;
mod guards;
mod laws;
mod written;

pub use cases::{case_updates, let_updates};
pub use forms::{forall_updates, par_updates, skip_updates};
pub use guards::if_updates;
pub use laws::calls_are_bodies;
pub use written::write_updates;
