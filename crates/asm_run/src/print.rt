//! The parts of a printed run.
ghost use Rattle.std.specs.Prelude.{◌≡◌, ◌≤◌, All, IfOk, codes, length};
ghost use Rattle.asm_io.specs.Writes.{Writes};
ghost use Rattle.asm_run.specs.declared.error.OutError.TheVariants.{Write};
ghost use Rattle.asm_run.specs.Printed.{numbered_state};
ghost use Rattle.asm_text.specs.Texts.{AreShort, line, stop_line};

use crate::error::OutError;
use crate::session::Session;
use asm_io::{Sink, Sources, Text, append_number, append_str, write_text};
use asm_node::Stop;
use asm_sign::Signature;
use std::alloc::{AllocError, Global};

/// Prints the present state with its number.
pub fn print_state<K: Sink>(
    alloc: Global,
    session: &Session<'_>,
    number: u64,
    sink: &mut K,
) -> Result<(), OutError>
    ensures { Writes K.written K.faults sink.old sink.new (numbered_state session.now.machine number session.now.state) Write result }
{
    let text = state_text(alloc, session, number)?;
    write_text(sink, text.slice())?;
    Ok(())
}

/// The text of the present state with its number.
fn state_text(alloc: Global, session: &Session<'_>, number: u64) -> Result<Text, AllocError>
    ensures { IfOk result (λ text. text ≡ numbered_state session.now.machine number session.now.state) }
{
    let mut text = Text::new(alloc);
    append_str(&mut text, "state ")?;
    append_number(&mut text, number)?;
    append_str(&mut text, "\n")?;
    asm_text::print_state(session.signature(), session.state(), &mut text)?;
    Ok(text)
}

/// Prints the line of a stop.
pub fn print_stop<K: Sink>(
    alloc: Global,
    signature: &Signature,
    sources: &Sources,
    stop: Stop,
    sink: &mut K,
) -> Result<(), OutError>
    requires { AreShort sources.now }
    ensures { Writes K.written K.faults sink.old sink.new (stop_line signature.now sources.now stop) Write result }
{
    let text = stop_text(alloc, signature, sources, stop)?;
    write_text(sink, text.slice())?;
    Ok(())
}

/// The line of a stop.
fn stop_text(
    alloc: Global,
    signature: &Signature,
    sources: &Sources,
    stop: Stop,
) -> Result<Text, AllocError>
    requires { AreShort sources.now }
    ensures { IfOk result (λ text. text ≡ stop_line signature.now sources.now stop) }
{
    let mut text = Text::new(alloc);
    asm_text::print_stop(signature, sources, &stop, &mut text)?;
    Ok(text)
}

/// Prints the last line of a run that made all its steps.
pub fn print_end<K: Sink>(sink: &mut K) -> Result<(), OutError>
    ensures { Writes K.written K.faults sink.old sink.new (line (codes "end")) Write result }
{
    write_text(sink, b"end\n")?;
    Ok(())
}
