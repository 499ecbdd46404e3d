ghost use Rattle.std.specs.Prelude.{◌≡◌, ◌≤◌, ℕ, List, Option, OnOk, OnErr, IsErrOf};
ghost use Rattle.asm_io.specs.declared.sink.SinkError.TheVariants.{Memory};
ghost use Rattle.asm_io.specs.Outside.{Rose, Adds, AddsPart};

use std::alloc::AllocError;
use thiserror::Error;

/// Why a piece was not written, or not wholly.
#[derive(Clone, Copy, Debug, PartialEq, Eq, Error)]
pub enum SinkError {
    /// The outside has failed.
    #[error("the write has failed")]
    Failed,
    #[error("out of memory")]
    Memory,
}

impl From<AllocError> for SinkError {
    ghost from_gives = { λ _ e. e ≡ Memory };

    fn from(_: AllocError) -> Self {
        SinkError::Memory
    }
}

/// Where the program writes to.
pub trait Sink {
    /// The bytes written so far, where it tells them.
    ghost written: { Self → Option (List ℕ) };

    /// How often the outside has failed it.
    ghost faults: { Self → ℕ };

    /// Writes a piece, after what is written.
    fn write(&mut self, piece: &[u8]) -> Result<(), SinkError>
        ensures ok { OnOk result (Adds (written self.old) (written self.new) piece.now) }
        ensures err { OnErr result (AddsPart (written self.old) (written self.new) piece.now) }
        ensures memory { IsErrOf result SinkError.Memory → written self.new ≡ written self.old }
        ensures later { faults self.old ≤ faults self.new }
        ensures failed { IsErrOf result SinkError.Failed → Rose (faults self.old) (faults self.new) };
}
