ghost use Rattle.std.specs.Prelude.{◌≡◌, ◌≤◌, ℕ, Option, length, IfOk, IsErrOf};
ghost use Rattle.asm_io.specs.declared.shelf.ReadError.TheVariants.{Memory};
ghost use Rattle.asm_io.specs.Outside.{Files, Told, Rose};
ghost use Rattle.asm_io.specs.Reads.{Reads};

use crate::Text;
use std::alloc::{AllocError, Global};
use thiserror::Error;

/// Why a file was not read.
#[derive(Clone, Copy, Debug, PartialEq, Eq, Error)]
pub enum ReadError {
    /// No file has this name.
    #[error("no such file")]
    Absent,
    /// The file is longer than the limit.
    #[error("the file is too long")]
    TooLong,
    /// The outside has failed.
    #[error("the read has failed")]
    Failed,
    #[error("out of memory")]
    Memory,
}

impl From<AllocError> for ReadError {
    ghost from_gives = { λ _ e. e ≡ Memory };

    fn from(_: AllocError) -> Self {
        ReadError::Memory
    }
}

/// Where files are read from.
pub trait Shelf {
    /// The files that it holds, where it tells them.
    ghost files: { Self → Option Files };

    /// How often the outside has failed it.
    ghost faults: { Self → ℕ };

    /// Reads a whole file of at most `limit` bytes.
    fn read(&mut self, alloc: Global, name: &str, limit: u64) -> Result<Text, ReadError>
        ensures short { IfOk result (λ text. length text ≤ limit) }
        ensures told { Told (files self.old) (λ held. Reads held name.now limit result) }
        ensures same { files self.new ≡ files self.old }
        ensures later { faults self.old ≤ faults self.new }
        ensures failed { IsErrOf result ReadError.Failed → Rose (faults self.old) (faults self.new) };
}
