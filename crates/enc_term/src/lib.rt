//! Terms as groups of literals.
#![tactic(auto)]

mod bits;
mod call;
mod forms;
mod guards;
mod literal_law;
mod operating;
mod range_law;
mod reading;
mod term;

pub use bits::{Bits, Context, Site, Version};
pub use call::{call_group, inside};
pub use forms::{choice, get_group, let_group};
pub use guards::quantify;
pub use literal_law::literals_tell_values;
pub use operating::operate;
pub use range_law::{ranged_terms_stay_small, terms_stay_in_range};
pub use reading::read_group;
pub use term::{term_group, term_tuples};
