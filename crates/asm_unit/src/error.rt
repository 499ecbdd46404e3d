//! Why the files of a model aren't loaded.

ghost use Rattle.std.specs.Prelude.{◌≡◌};
ghost use Rattle.asm_unit.specs.declared.error.LoadError.TheVariants.{Memory};

use asm_lex::LexError;
use asm_list::Name;
use asm_source::Place;
use asm_tree::ParseError;
use std::alloc::AllocError;

/// Each but `Memory` with the name of the file in its normal form, or with a place.
#[derive(Debug, Drop)]
pub enum LoadError {
    /// No file has this name.
    Absent(Name),
    /// The file has more bytes than the limit.
    TooLong(Name),
    /// The shelf has failed.
    Read(Name),
    /// The file has no tokens.
    Lex(Place, LexError),
    /// The file's tokens are no unit.
    Parse(Place, ParseError),
    /// The file's imports are being loaded, and it is named again.
    ImportCycle(Name),
    /// The file would be the 65th of the model.
    TooManyFiles(Name),
    Memory,
}

impl From<AllocError> for LoadError {
    ghost from_gives = { λ _ e. e ≡ Memory };

    fn from(_error: AllocError) -> LoadError {
        LoadError::Memory
    }
}
