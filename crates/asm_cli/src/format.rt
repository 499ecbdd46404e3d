//! The command `format`.
ghost use Rattle.std.specs.Prelude.{◌≡◌, ◌≢◌, ◌≤◌};
ghost use Rattle.asm_io.specs.Outside.{Told, Rose};
ghost use Rattle.asm_canonical.specs.Units.{canonical};
ghost use Rattle.asm_cli.specs.Exit.{OnCode, OnFault};
ghost use Rattle.asm_cli.specs.Answer.{Prints, PrintsPart, SaysBytes, says_canonical, says_outcome, alone};
ghost use Rattle.asm_cli.specs.Reply.{Replies};

use crate::exit::Exit;
use crate::fault::refuse_load;
use crate::say::say;
use asm_canonical::print_unit;
use asm_io::{Shelf, Sink, Sources, Text};
use asm_tree::unit::RawUnit;
use asm_unit::load_unit;
use std::alloc::Global;

/// Prints the canonical text of the file of this name. What it imports isn't read.
pub fn format_file<S: Shelf, K: Sink>(
    alloc: Global,
    model: &str,
    shelf: &mut S,
    sink: &mut K,
) -> Exit
    ensures answer { Told (S.files shelf.old) (λ files. OnCode result (Prints (K.written sink.old) (K.written sink.new) (says_outcome says_canonical (alone files model.now)))) }
    ensures prefix { Told (S.files shelf.old) (λ files. OnFault result (PrintsPart (K.written sink.old) (K.written sink.new) (says_outcome says_canonical (alone files model.now)))) }
    ensures good_words { OnCode result (λ code. code ≢ 2) }
    ensures few_codes { OnCode result (λ code. code ≤ 4) }
    ensures read_fault { result ≡ Exit.ReadFault → Rose (S.faults shelf.old) (S.faults shelf.new) }
    ensures write_fault { result ≡ Exit.WriteFault → Rose (K.faults sink.old) (K.faults sink.new) }
    ensures files { S.files shelf.new ≡ S.files shelf.old }
    ensures shelf_later { S.faults shelf.old ≤ S.faults shelf.new }
    ensures sink_later { K.faults sink.old ≤ K.faults sink.new }
{
    let mut sources = Sources::new(alloc);
    match load_unit(alloc, shelf, model, &mut sources) {
        Ok(unit) => say_canonical(alloc, unit.get(), sink),
        Err(error) => refuse_load(alloc, &sources, &error, sink),
    }
}

/// Prints the canonical text of a unit.
fn say_canonical<K: Sink>(alloc: Global, unit: &RawUnit, sink: &mut K) -> Exit
    ensures { Replies K.written K.faults sink.old sink.new (SaysBytes (canonical unit.now) 0) result }
{
    let mut text = Text::new(alloc);
    match print_unit(alloc, unit, &mut text) {
        Ok(()) => say(sink, text.slice(), 0),
        Err(_) => Exit::Memory,
    }
}
