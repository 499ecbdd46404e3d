//! The command `check`.
ghost use Rattle.std.specs.Prelude.{◌≡◌, ◌≢◌, ◌≤◌, All, None, length};
ghost use Rattle.asm_io.specs.Outside.{Told, Rose};
ghost use Rattle.asm_node.specs.Model.{machine_of};
ghost use Rattle.asm_unit.specs.Loading.{AreUnits};
ghost use Rattle.asm_faults.specs.Check.{model_fault};
ghost use Rattle.asm_faults.specs.Model.{IsModelOf};
ghost use Rattle.asm_cli.specs.Counts.{counts_of, counts_text};
ghost use Rattle.asm_cli.specs.Exit.{OnCode, OnFault};
ghost use Rattle.asm_cli.specs.Answer.{Prints, PrintsPart, Says, says_checked, says_outcome, loaded};
ghost use Rattle.asm_cli.specs.Reply.{Replies};
ghost use Rattle.asm_text.specs.Texts.{AreShort};

use crate::counts::counts_line;
use crate::exit::Exit;
use crate::fault::refuse_load;
use crate::model_fault::refuse_model;
use crate::say::say;
use asm_io::{Shelf, Sink, Sources};
use asm_node::Model;
use asm_resolve::{ModelError, resolve};
use asm_tree::unit::Units;
use asm_unit::load_all;
use std::alloc::Global;

/// Checks the model of this name, and prints how much it declares, or what is wrong first.
pub fn check_model<S: Shelf, K: Sink>(
    alloc: Global,
    model: &str,
    shelf: &mut S,
    sink: &mut K,
) -> Exit
    ensures answer { Told (S.files shelf.old) (λ files. OnCode result (Prints (K.written sink.old) (K.written sink.new) (says_outcome says_checked (loaded files model.now)))) }
    ensures prefix { Told (S.files shelf.old) (λ files. OnFault result (PrintsPart (K.written sink.old) (K.written sink.new) (says_outcome says_checked (loaded files model.now)))) }
    ensures good_words { OnCode result (λ code. code ≢ 2) }
    ensures few_codes { OnCode result (λ code. code ≤ 4) }
    ensures read_fault { result ≡ Exit.ReadFault → Rose (S.faults shelf.old) (S.faults shelf.new) }
    ensures write_fault { result ≡ Exit.WriteFault → Rose (K.faults sink.old) (K.faults sink.new) }
    ensures files { S.files shelf.new ≡ S.files shelf.old }
    ensures shelf_later { S.faults shelf.old ≤ S.faults shelf.new }
    ensures sink_later { K.faults sink.old ≤ K.faults sink.new }
{
    let mut sources = Sources::new(alloc);
    match load_all(alloc, shelf, model, &mut sources) {
        Ok(units) => check_units(alloc, &units, &sources, sink),
        Err(error) => refuse_load(alloc, &sources, &error, sink),
    }
}

/// Checks the model of these units.
fn check_units<K: Sink>(alloc: Global, units: &Units, sources: &Sources, sink: &mut K) -> Exit
    requires known { AreUnits sources.now units.now }
    requires short { AreShort sources.now }
    ensures { Replies K.written K.faults sink.old sink.new (says_checked sources.now units.now) result }
{
    match resolve(alloc, units) {
        Ok(model) => say_counts(alloc, units, &model, sink),
        Err(ModelError::Fault(kind, name, place)) => {
            refuse_model(alloc, sources, kind, &name, place, sink)
        }
        Err(ModelError::Memory) => Exit::Memory,
    }
}

/// Prints how much the files of a model declare.
fn say_counts<K: Sink>(alloc: Global, units: &Units, model: &Model, sink: &mut K) -> Exit
    requires { IsModelOf units.now (machine_of model.now) }
    ensures { Replies K.written K.faults sink.old sink.new (Says (counts_text (counts_of units.now)) 0) result }
{
    match counts_line(alloc, units, model) {
        Ok(text) => say(sink, text.slice(), 0),
        Err(_) => Exit::Memory,
    }
}
