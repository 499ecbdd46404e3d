ghost use Rattle.std.specs.Prelude.{◌≡◌};
ghost use Rattle.asm_eval.specs.declared.error.EvalError.TheVariants.{Memory};
ghost use Rattle.asm_eval.specs.declared.error.InitError.TheVariants.{Memory as NoMemory};

use asm_domain::Value;
use std::alloc::AllocError;

/// Why an evaluation gives no value.
#[derive(Clone, Copy, Debug, PartialEq, Eq)]
pub enum EvalError {
    /// The input gives no value to the monitored location of this slot, which is the first that is needed.
    Need(u32),
    Memory,
}

impl From<AllocError> for EvalError {
    ghost from_gives = { λ _ e. e ≡ Memory };

    fn from(_error: AllocError) -> EvalError {
        EvalError::Memory
    }
}

/// Why a run has no initial state.
#[derive(Clone, Copy, Debug, PartialEq, Eq)]
pub enum InitError {
    /// The first location, by its slot, whose initial value is neither `undef` nor in its codomain, and that value.
    BadInitial(u32, Value),
    Memory,
}

impl From<AllocError> for InitError {
    ghost from_gives = { λ _ e. e ≡ NoMemory };

    fn from(_error: AllocError) -> InitError {
        InitError::Memory
    }
}
