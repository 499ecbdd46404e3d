ghost use Rattle.std.specs.Prelude.{◌≡◌, ◌++◌};
ghost use Rattle.asm_io.specs.declared.sink.SinkError.TheVariants.{Failed};
ghost use Rattle.asm_io.specs.Writes.{Writes};

use crate::{Sink, SinkError};

/// Writes a text in one piece.
pub fn write_text<K: Sink>(sink: &mut K, text: &[u8]) -> Result<(), SinkError>
    ensures { Writes K.written K.faults sink.old sink.new text.now Failed result }
{
    sink.write(text)
}

/// Writes one text after the other.
pub fn write_both<K: Sink>(sink: &mut K, first: &[u8], second: &[u8]) -> Result<(), SinkError>
    ensures { Writes K.written K.faults sink.old sink.new (first.now ++ second.now) Failed result }
{
    write_text(sink, first)?;
    write_text(sink, second)
}
