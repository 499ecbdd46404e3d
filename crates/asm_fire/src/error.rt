ghost use Rattle.std.specs.Prelude.{◌≡◌};
ghost use Rattle.asm_fire.specs.declared.error.FireError.TheVariants.{Memory};
ghost use Rattle.asm_fire.specs.Fault.{fire_error};

use asm_eval::EvalError;
use asm_node::Stop;
use std::alloc::AllocError;

/// Why a rule gives no set.
#[derive(Clone, Copy, Debug, PartialEq, Eq)]
pub enum FireError {
    /// The first fault.
    Stop(Stop),
    Memory,
}

impl From<AllocError> for FireError {
    ghost from_gives = { λ _ e. e ≡ Memory };

    fn from(_error: AllocError) -> FireError {
        FireError::Memory
    }
}

impl From<EvalError> for FireError {
    ghost from_gives = { λ e f. f ≡ fire_error e };

    fn from(error: EvalError) -> FireError {
        match error {
            EvalError::Need(slot) => FireError::Stop(Stop::Input(slot)),
            EvalError::Memory => FireError::Memory,
        }
    }
}
