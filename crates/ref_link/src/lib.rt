//! Links between the functions of two models, and what it is to refine.
#![tactic(auto)]

mod domains;
mod error;
mod link;
mod linking;
mod reads;
mod refining_law;
mod side;

pub use error::LinkError;
pub use link::{Link, Links};
pub use linking::{default_links, links};
pub use refining_law::{answered_steps_refine, no_counter_steps};
