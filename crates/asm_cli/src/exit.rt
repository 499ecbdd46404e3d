//! How a command ends.
ghost use Rattle.std.specs.Prelude.{◌≡◌};
ghost use Rattle.asm_cli.specs.Exit.{status_of};

/// How a command ends.
#[derive(Clone, Copy, Debug, PartialEq, Eq)]
pub enum Exit {
    /// It answered, with this status.
    Code(u8),
    /// The shelf has failed.
    ReadFault,
    /// The sink has failed.
    WriteFault,
    /// There was no memory.
    Memory,
}

impl Exit {
    /// The status of the process.
    pub fn status(self) -> u8
        ensures { result ≡ status_of self }
    {
        match self {
            Exit::Code(code) => code,
            Exit::ReadFault => 7,
            Exit::WriteFault => 8,
            Exit::Memory => 9,
        }
    }
}
