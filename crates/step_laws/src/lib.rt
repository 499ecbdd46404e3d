//! Laws of states, steps and runs.
#![tactic(auto)]

mod run_law;
mod step_law;

pub use run_law::printed_runs_are_runs;
pub use step_law::{
    choices_lead_once, drawn_words_lead, initial_states_are_states, runs_have_states,
    steps_lead_to_states, words_are_steps,
};
