//! Why a step isn't made, and why a run isn't printed.
ghost use Rattle.std.specs.Prelude.{◌≡◌};

use asm_fire::FireError;
use asm_io::SinkError;
use asm_node::Stop;
use std::alloc::AllocError;

/// Why a step isn't made, or stops the session.
#[derive(Clone, Copy, Debug, PartialEq, Eq)]
pub enum StepError {
    /// The first stop of the step, or the first invariant that is false in the state that it leads to.
    Stop(Stop),
    Memory,
}

impl From<AllocError> for StepError {
    ghost use Rattle.asm_run.specs.declared.error.StepError.TheVariants.{Memory};

    ghost from_gives = { λ _ e. e ≡ Memory };

    fn from(_error: AllocError) -> StepError {
        StepError::Memory
    }
}

impl From<FireError> for StepError {
    ghost use Rattle.asm_fire.specs.declared.error.FireError.TheVariants as fire;
    ghost use Rattle.asm_run.specs.Fault.{step_error_of};

    ghost from_gives = { λ f e. e ≡ step_error_of f };

    fn from(error: FireError) -> StepError {
        match error {
            FireError::Stop(stop) => StepError::Stop(stop),
            FireError::Memory => StepError::Memory,
        }
    }
}

/// Why a run was not printed, or not wholly.
#[derive(Clone, Copy, Debug, PartialEq, Eq)]
pub enum OutError {
    /// The sink has failed.
    Write,
    Memory,
}

impl From<AllocError> for OutError {
    ghost use Rattle.asm_run.specs.declared.error.OutError.TheVariants.{Memory};

    ghost from_gives = { λ _ e. e ≡ Memory };

    fn from(_error: AllocError) -> OutError {
        OutError::Memory
    }
}

impl From<SinkError> for OutError {
    ghost use Rattle.asm_io.specs.declared.sink.SinkError.TheVariants as sink;
    ghost use Rattle.asm_run.specs.Fault.{out_error_of};

    ghost from_gives = { λ s e. e ≡ out_error_of s };

    fn from(error: SinkError) -> OutError {
        match error {
            SinkError::Failed => OutError::Write,
            SinkError::Memory => OutError::Memory,
        }
    }
}
