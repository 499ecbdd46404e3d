ghost use Rattle.std.specs.Prelude.{◌≡◌};
ghost use Rattle.avalla_prepare.specs.declared.error.ScenarioError.TheVariants.{Memory};

use asm_faults::ModelError;
use asm_list::Name;
use asm_source::Place;
use std::alloc::AllocError;

/// Why a scenario can't be played over a model.
#[derive(Debug, Drop)]
pub enum ScenarioError {
    /// No block of this name, which stands after an `execblock`, has ended before.
    NoBlock(Name, Place),
    /// A bad setting, by its function's name.
    BadSet(Name, Place),
    /// What is wrong with a condition or a rule.
    Model(ModelError),
    /// More than 64 blocks, or more than 100,000 commands, in the file of this number.
    TooLong(u32),
    Memory,
}

impl From<AllocError> for ScenarioError {
    ghost from_gives = { λ _ e. e ≡ Memory };

    fn from(_error: AllocError) -> ScenarioError {
        ScenarioError::Memory
    }
}
