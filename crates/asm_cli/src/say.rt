//! Prints a line and answers a code.
ghost use Rattle.asm_cli.specs.Answer.{SaysBytes};
ghost use Rattle.asm_cli.specs.Reply.{Replies};

use crate::exit::Exit;
use asm_io::{Sink, SinkError, write_text};

/// Prints these bytes.
pub fn say<K: Sink>(sink: &mut K, bytes: &[u8], code: u8) -> Exit
    ensures { Replies K.written K.faults sink.old sink.new (SaysBytes bytes.now code) result }
{
    match write_text(sink, bytes) {
        Ok(()) => Exit::Code(code),
        Err(SinkError::Failed) => Exit::WriteFault,
        Err(SinkError::Memory) => Exit::Memory,
    }
}
