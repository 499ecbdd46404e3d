//! The command `play`.
ghost use Rattle.std.specs.Prelude.{◌≡◌, ◌≤◌, ◌<◌, ◌^◌, All, None, IfOk, length};
ghost use Rattle.asm_node.specs.Model.{machine_of};
ghost use Rattle.asm_unit.specs.Loading.{AreUnits};
ghost use Rattle.asm_faults.specs.Check.{model_fault};
ghost use Rattle.asm_renaming.specs.Coded.{coded_machine};
ghost use Rattle.asm_faults.specs.Model.{IsModelOf};
ghost use Rattle.avalla_command.specs.Acts.{IsAct, acts_of};
ghost use Rattle.avalla_play.specs.Printed.{play_of};
ghost use Rattle.avalla_prepare.specs.Prepared.{scenario_fault};
ghost use Rattle.asm_cli.specs.Reply.{Replies, Serves};
ghost use Rattle.asm_cli.specs.Saying.{says_outcome};
ghost use Rattle.asm_cli.specs.Plays.{SaysPlay, loaded_by, model_named, says_loaded, says_play, says_prepared, says_scenario};
ghost use Rattle.asm_cli.specs.Words.{play_plan_seen};
ghost use Rattle.asm_text.specs.Texts.{AreShort};

use crate::command::ScenarioPlay;
use crate::exit::Exit;
use crate::fault::refuse_load;
use crate::model_fault::{refuse_model, refuse_scenario};
use crate::scenario_file::read_scenario;
use asm_io::{Shelf, Sink, Sources};
use asm_list::{Listed, Name};
use asm_node::{Model, Words};
use asm_renaming::{numbers_are_free, script_numbers_are_free};
use asm_resolve::{ModelError, resolve};
use asm_run::OutError;
use asm_tree::script::RawScenario;
use asm_tree::unit::Units;
use asm_unit::{import_name, load_all, normalised};
use avalla_play::{Play, Played, play};
use avalla_prepare::prepare;
use std::alloc::{AllocError, Global};

/// Plays a scenario, and prints its states and its checks.
pub fn play_scenario<S: Shelf, K: Sink>(
    alloc: Global,
    plan: ScenarioPlay<'_>,
    shelf: &mut S,
    sink: &mut K,
) -> Exit
    ensures { Serves S.files S.faults K.written K.faults shelf.old shelf.new sink.old sink.new (says_play (play_plan_seen plan.entry)) result }
{
    let mut sources = Sources::new(alloc);
    match read_scenario(alloc, plan.scenario, shelf, &mut sources) {
        Ok(raw) => play_read(alloc, plan, &raw, &mut sources, shelf, sink),
        Err(error) => refuse_load(alloc, &sources, &error, sink),
    }
}

/// Plays a scenario, whose file was read.
fn play_read<S: Shelf, K: Sink>(
    alloc: Global,
    plan: ScenarioPlay<'_>,
    raw: &RawScenario,
    sources: &mut Sources,
    shelf: &mut S,
    sink: &mut K,
) -> Exit
    requires few { length sources.old < 2 ^ 31 }
    requires short { AreShort sources.old }
    ensures { Serves S.files S.faults K.written K.faults shelf.old shelf.new sink.old sink.new (λ files. says_scenario (play_plan_seen plan.entry) files sources.old raw.now) result }
{
    match model_name(alloc, plan.scenario, raw) {
        Ok(model) => play_over(alloc, plan, raw, &model, sources, shelf, sink),
        Err(_) => Exit::Memory,
    }
}

/// The name of the model that a scenario loads.
fn model_name(alloc: Global, scenario: &str, raw: &RawScenario) -> Result<Name, AllocError>
    ensures { IfOk result (λ name. name ≡ model_named scenario.now raw.now) }
{
    let from = normalised(alloc, scenario)?;
    import_name(alloc, from.text(), &raw.load)
}

/// Plays a scenario over the model of this name.
fn play_over<S: Shelf, K: Sink>(
    alloc: Global,
    plan: ScenarioPlay<'_>,
    raw: &RawScenario,
    model: &Name,
    sources: &mut Sources,
    shelf: &mut S,
    sink: &mut K,
) -> Exit
    requires few { length sources.old < 2 ^ 31 }
    requires short { AreShort sources.old }
    requires named { model.now ≡ model_named (play_plan_seen plan).scenario raw.now }
    ensures { Serves S.files S.faults K.written K.faults shelf.old shelf.new sink.old sink.new (λ files. says_scenario (play_plan_seen plan.entry) files sources.old raw.now) result }
{
    match load_all(alloc, shelf, model.text(), sources) {
        Ok(units) => play_units(alloc, plan, raw, &units, sources, sink),
        Err(error) => refuse_load(alloc, sources, &error, sink),
    }
}

/// Plays a scenario over the model of these units.
fn play_units<K: Sink>(
    alloc: Global,
    plan: ScenarioPlay<'_>,
    raw: &RawScenario,
    units: &Units,
    sources: &Sources,
    sink: &mut K,
) -> Exit
    requires known { AreUnits sources.now units.now }
    requires short { AreShort sources.now }
    ensures { Replies K.written K.faults sink.old sink.new (says_loaded (play_plan_seen plan.entry) raw.now sources.now units.now) result }
{
    match resolve(alloc, units) {
        Ok(model) => play_in(alloc, plan, raw, units, &model, sources, sink),
        Err(ModelError::Fault(kind, name, place)) => {
            refuse_model(alloc, sources, kind, &name, place, sink)
        }
        Err(ModelError::Memory) => Exit::Memory,
    }
}

/// Plays a scenario over the model of these units, in which nothing is wrong.
fn play_in<K: Sink>(
    alloc: Global,
    plan: ScenarioPlay<'_>,
    raw: &RawScenario,
    units: &Units,
    model: &Model,
    sources: &Sources,
    sink: &mut K,
) -> Exit
    requires model { IsModelOf units.now (machine_of model.now) }
    requires faultless { model_fault units.now ≡ None }
    requires short { AreShort sources.now }
    ensures { Replies K.written K.faults sink.old sink.new (says_prepared (play_plan_seen plan.entry) sources.now units.now raw.now (scenario_fault (coded_machine units.now) 0 raw.now)) result }
{
    numbers_are_free();
    script_numbers_are_free();
    let ScenarioPlay {
        scenario: _,
        choices,
        budget,
    } = plan;
    match prepare(alloc, model, raw, 0) {
        Ok(commands) => play_prepared(alloc, model, &commands, choices, budget, sources, sink),
        Err(error) => refuse_scenario(alloc, sources, &error, sink),
    }
}

/// Plays commands over a model.
fn play_prepared<K: Sink>(
    alloc: Global,
    model: &Model,
    commands: &Play,
    choices: Listed<u32>,
    budget: u64,
    sources: &Sources,
    sink: &mut K,
) -> Exit
    requires acts { All (IsAct (machine_of model.now)) (acts_of commands.now) }
    requires few { length commands.now ≤ 100000 }
    requires short { AreShort sources.now }
    ensures { Replies K.written K.faults sink.old sink.new (SaysPlay (play_of (machine_of model.now) sources.now (acts_of commands.now) choices budget)) result }
{
    let mut words = Words::of(choices);
    match play(alloc, model, commands, &mut words, budget, sources, sink) {
        Ok(Played::Passed) => Exit::Code(0),
        Ok(Played::CheckFailed(_)) => Exit::Code(1),
        Ok(Played::Stopped(_)) => Exit::Code(4),
        Ok(Played::Budget) => Exit::Code(4),
        Err(OutError::Write) => Exit::WriteFault,
        Err(OutError::Memory) => Exit::Memory,
    }
}
