ghost use Rattle.std.specs.Prelude.{◌≡◌};
ghost use Rattle.asm_bind.specs.declared.error.BadSet.TheVariants.{Memory};

use asm_list::Name;
use std::alloc::AllocError;

/// Why settings give no inputs.
#[derive(Debug, Drop)]
pub enum BadSet {
    /// The first bad setting, by the byte and the text of its function's name.
    At(u32, Name),
    Memory,
}

impl From<AllocError> for BadSet {
    ghost from_gives = { λ _ e. e ≡ Memory };

    fn from(_error: AllocError) -> BadSet {
        BadSet::Memory
    }
}
