//! What may be wrong with a link file.
ghost use Rattle.std.specs.Prelude.{◌≡◌};
ghost use Rattle.ref_link.specs.declared.error.LinkError.TheVariants.{Memory};

use asm_list::Name;
use asm_tree::ParseError;
use std::alloc::AllocError;

/// Why a link file links nothing. A number is the place of the name's first byte.
#[derive(Debug, Drop)]
pub enum LinkError {
    /// The tokens spell no link file.
    Parse(ParseError),
    /// No function of the model has this name.
    Unknown(Name, u32),
    /// The function may not be linked, or not with the other one.
    WrongKind(Name, u32),
    /// The domains of the functions don't agree; the function of the abstract model is named.
    DomainsDiffer(Name, u32),
    Memory,
}

impl From<AllocError> for LinkError {
    ghost from_gives = { λ _ e. e ≡ Memory };

    fn from(_error: AllocError) -> LinkError {
        LinkError::Memory
    }
}
