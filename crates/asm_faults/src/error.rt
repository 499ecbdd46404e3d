ghost use Rattle.std.specs.Prelude.{◌≡◌};
ghost use Rattle.asm_faults.specs.declared.error.ModelError.TheVariants.{Memory};

use crate::ModelFault;
use asm_list::Name;
use asm_source::Place;
use std::alloc::AllocError;

/// Why files are no model.
#[derive(Debug, Drop)]
pub enum ModelError {
    /// What is wrong first, with the text of the token where it is, and that token's place.
    Fault(ModelFault, Name, Place),
    Memory,
}

impl From<AllocError> for ModelError {
    ghost from_gives = { λ _ e. e ≡ Memory };

    fn from(_error: AllocError) -> ModelError {
        ModelError::Memory
    }
}
