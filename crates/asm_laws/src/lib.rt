//! Laws of what terms and rules mean.
#![tactic(auto)]

mod choosing_law;
mod extending_law;
mod free_law;
mod full_law;
mod level_law;
mod range_law;

pub use choosing_law::{
    choices_extend, sites_suffice, small_words_are_words, tuples_are_different, words_are_choices,
};
pub use extending_law::{steps_extend, values_extend};
pub use free_law::free_variables_decide;
pub use full_law::{full_inputs_exist, full_inputs_suffice};
pub use level_law::levels_suffice;
pub use range_law::{definitions_are_ranged, ranges_hold, worlds_are_filled};
