ghost use Rattle.std.specs.Prelude.{◌≡◌};
ghost use Rattle.asm_domain.specs.declared.error.DomainError.TheVariants.{Memory};

use std::alloc::AllocError;

/// Why some elements make no domain.
#[derive(Clone, Copy, Debug, PartialEq, Eq)]
pub enum DomainError {
    /// There is no element.
    Empty,
    /// There are more than 256 elements.
    TooLarge,
    /// The element at this place, counted from 0, is the first that stands at an earlier place too.
    Repeated(u32),
    /// There is no memory for the elements.
    Memory,
}

impl From<AllocError> for DomainError {
    ghost from_gives = { λ _ e. e ≡ Memory };

    fn from(_error: AllocError) -> DomainError {
        DomainError::Memory
    }
}
