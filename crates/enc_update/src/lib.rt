//! What rules give as pairs with literals, and their union, guards and clashes as gates.
#![tactic(auto)]

mod agreement;
mod clash;
mod guarded;
mod laws;
mod pair;
mod slots;
mod union;

pub use agreement::no_clash;
pub use clash::two_of;
pub use guarded::{guarded_updates, pairs_under};
pub use laws::{clashes_are_told, consistent_sets_are_written};
pub use pair::{Pair, Pairs, UpdateBits};
pub use slots::{by_slot, lits_of, next_group};
pub use union::all_updates;
