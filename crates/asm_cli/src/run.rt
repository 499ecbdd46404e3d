//! The command `run`.
ghost use Rattle.std.specs.Prelude.{◌≡◌, ◌≢◌, ◌≤◌, ◌<◌, ◌^◌, All, length, unwrap_or};
ghost use Rattle.asm_io.specs.Outside.{Told, Rose};
ghost use Rattle.asm_node.specs.Model.{machine_of};
ghost use Rattle.asm_node.specs.Step.{IsInput};
ghost use Rattle.asm_unit.specs.Loading.{AreUnits};
ghost use Rattle.asm_renaming.specs.Coded.{coded_machine};
ghost use Rattle.asm_faults.specs.Model.{IsModelOf};
ghost use Rattle.asm_run.specs.Printed.{run_of};
ghost use Rattle.asm_cli.specs.Exit.{OnCode, OnFault};
ghost use Rattle.asm_cli.specs.Answer.{Prints, PrintsPart, SaysRun, says_given, says_settled, says_run, says_outcome, loaded};
ghost use Rattle.asm_cli.specs.Reply.{Replies, Serves};
ghost use Rattle.asm_cli.specs.Words.{plan_seen};
ghost use Rattle.asm_text.specs.Texts.{AreShort};

use crate::command::Run;
use crate::exit::Exit;
use crate::fault::refuse_load;
use crate::model_fault::{refuse_model, refuse_set};
use crate::settings::settings;
use asm_bind::{BadSet, bind_inputs};
use asm_io::{Place, Shelf, Sink, Sources};
use asm_list::Listed;
use asm_node::{Inputs, Model, Words};
use asm_renaming::numbers_are_free;
use asm_resolve::{ModelError, resolve};
use asm_run::{OutError, RunEnd, print_run};
use asm_tree::script::RawInputs;
use asm_tree::unit::Units;
use asm_unit::load_all;
use std::alloc::Global;

/// Runs a model as it is planned, and prints its states.
pub fn run_model<S: Shelf, K: Sink>(
    alloc: Global,
    run: Run<'_>,
    shelf: &mut S,
    sink: &mut K,
) -> Exit
    ensures answer { Told (S.files shelf.old) (λ files. OnCode result (Prints (K.written sink.old) (K.written sink.new) (says_outcome (says_run (plan_seen run.entry) files) (loaded files (plan_seen run.entry).model)))) }
    ensures prefix { Told (S.files shelf.old) (λ files. OnFault result (PrintsPart (K.written sink.old) (K.written sink.new) (says_outcome (says_run (plan_seen run.entry) files) (loaded files (plan_seen run.entry).model)))) }
    ensures good_words { OnCode result (λ code. code ≢ 2) }
    ensures few_codes { OnCode result (λ code. code ≤ 4) }
    ensures read_fault { result ≡ Exit.ReadFault → Rose (S.faults shelf.old) (S.faults shelf.new) }
    ensures write_fault { result ≡ Exit.WriteFault → Rose (K.faults sink.old) (K.faults sink.new) }
    ensures files { S.files shelf.new ≡ S.files shelf.old }
    ensures shelf_later { S.faults shelf.old ≤ S.faults shelf.new }
    ensures sink_later { K.faults sink.old ≤ K.faults sink.new }
{
    let mut sources = Sources::new(alloc);
    match load_all(alloc, shelf, run.model, &mut sources) {
        Ok(units) => run_units(alloc, run, &units, &mut sources, shelf, sink),
        Err(error) => refuse_load(alloc, &sources, &error, sink),
    }
}

/// Runs the model of these units.
fn run_units<S: Shelf, K: Sink>(
    alloc: Global,
    run: Run<'_>,
    units: &Units,
    sources: &mut Sources,
    shelf: &mut S,
    sink: &mut K,
) -> Exit
    requires known { AreUnits sources.old units.now }
    requires few { length sources.old < 2 ^ 31 }
    requires short { AreShort sources.old }
    ensures { Serves S.files S.faults K.written K.faults shelf.old shelf.new sink.old sink.new (λ files. says_run (plan_seen run.entry) files sources.old units.now) result }
{
    match resolve(alloc, units) {
        Ok(model) => run_in(alloc, run, units, &model, sources, shelf, sink),
        Err(ModelError::Fault(kind, name, place)) => {
            refuse_model(alloc, sources, kind, &name, place, sink)
        }
        Err(ModelError::Memory) => Exit::Memory,
    }
}

/// Runs the model of these units, in which nothing is wrong. Which numbers its variables have makes no difference.
fn run_in<S: Shelf, K: Sink>(
    alloc: Global,
    run: Run<'_>,
    units: &Units,
    model: &Model,
    sources: &mut Sources,
    shelf: &mut S,
    sink: &mut K,
) -> Exit
    requires model { IsModelOf units.now (machine_of model.now) }
    requires few { length sources.old < 2 ^ 31 }
    requires short { AreShort sources.old }
    ensures { Serves S.files S.faults K.written K.faults shelf.old shelf.new sink.old sink.new (λ files. says_settled (plan_seen run.entry) (coded_machine units.now) files sources.old) result }
{
    let _units = units;
    numbers_are_free();
    run_settled(alloc, run, model, sources, shelf, sink)
}

/// Runs a model under the settings of the input file.
fn run_settled<S: Shelf, K: Sink>(
    alloc: Global,
    run: Run<'_>,
    model: &Model,
    sources: &mut Sources,
    shelf: &mut S,
    sink: &mut K,
) -> Exit
    requires few { length sources.old < 2 ^ 31 }
    requires short { AreShort sources.old }
    ensures { Serves S.files S.faults K.written K.faults shelf.old shelf.new sink.old sink.new (λ files. says_settled (plan_seen run.entry) (machine_of model.now) files sources.old) result }
{
    let file = sources.len() as u32;
    match settings(alloc, run.inputs, shelf, sources) {
        Ok(raw) => run_given(alloc, run, model, &raw, file, sources, sink),
        Err(error) => refuse_load(alloc, sources, &error, sink),
    }
}

/// Runs a model under these settings of the file of this number.
fn run_given<K: Sink>(
    alloc: Global,
    run: Run<'_>,
    model: &Model,
    raw: &RawInputs,
    file: u32,
    sources: &Sources,
    sink: &mut K,
) -> Exit
    requires { AreShort sources.now }
    ensures { Replies K.written K.faults sink.old sink.new (says_given (plan_seen run.entry) (machine_of model.now) file sources.now raw.now) result }
{
    let steps = steps_in(run.steps, raw);
    match bind_inputs(alloc, model, raw) {
        Ok(inputs) => run_under(alloc, model, &inputs, run.choices, steps, sources, sink),
        Err(BadSet::At(at, name)) => refuse_set(alloc, sources, &name, Place { file, at }, sink),
        Err(BadSet::Memory) => Exit::Memory,
    }
}

/// How many steps are made.
fn steps_in(steps: Option<u64>, raw: &RawInputs) -> u64
    ensures { result ≡ unwrap_or steps (length raw.now.steps) }
{
    match steps {
        Some(steps) => steps,
        None => raw.steps.len() as u64,
    }
}

/// Runs a model under these inputs and choice words.
fn run_under<K: Sink>(
    alloc: Global,
    model: &Model,
    inputs: &Inputs,
    choices: Listed<u32>,
    steps: u64,
    sources: &Sources,
    sink: &mut K,
) -> Exit
    requires inputs { All (IsInput (machine_of model.now)) inputs.now }
    requires short { AreShort sources.now }
    ensures { Replies K.written K.faults sink.old sink.new (SaysRun (run_of (machine_of model.now) sources.now inputs.now choices steps)) result }
{
    let mut words = Words::of(choices);
    match print_run(alloc, model, inputs, &mut words, steps, sources, sink) {
        Ok(RunEnd::Done) => Exit::Code(0),
        Ok(RunEnd::Stopped(_)) => Exit::Code(4),
        Err(OutError::Write) => Exit::WriteFault,
        Err(OutError::Memory) => Exit::Memory,
    }
}
