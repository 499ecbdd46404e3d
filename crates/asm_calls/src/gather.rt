//! The definitions, initial values, invariants and rules of all files, in load order.

ghost use Rattle.std.specs.Prelude.{◌≡◌, ◌++◌, length, map, IfOk, OnOk};
ghost use Rattle.std.specs.List.{flat_map};
ghost use Rattle.asm_faults.specs.Files as files;
ghost use Rattle.asm_faults.specs.Files.{to_list, definition_in, invariant_in, rule_in, main_in, named_of};
ghost use Rattle.asm_calls.specs.Callers.{function_caller, invariant_caller, rule_caller, rule_names, callers_in, of_unit, definitions_from};

use crate::caller::{Caller, add_function, add_invariant, add_rule, names_of};
use asm_faults::Known;
use asm_list::Listed;
use asm_tree::unit::{LoadedUnit, RawDefinition, RawFunction, RawUnit};
use name_table::Table;
use std::alloc::{AllocError, Global};

/// What is gathered of the definitions of files.
#[derive(Clone, Copy)]
pub enum Part {
    Functions,
    Invariants,
    Rules,
}

/// The definitions of functions.
pub fn definitions(
    alloc: Global,
    known: &Known,
    units: &[LoadedUnit],
) -> Result<Listed<Caller>, AllocError>
    ensures { IfOk result (λ callers. callers ≡ map (function_caller known.now) (files.definitions units.now)) }
{
    let none = Table::new(alloc);
    let callers = gather(alloc, known, &none, Part::Functions, units)?;
    Ok(callers)
}

/// The invariants.
pub fn invariants(
    alloc: Global,
    known: &Known,
    units: &[LoadedUnit],
) -> Result<Listed<Caller>, AllocError>
    ensures { IfOk result (λ callers. callers ≡ map (invariant_caller known.now) (files.invariants units.now)) }
{
    let none = Table::new(alloc);
    let callers = gather(alloc, known, &none, Part::Invariants, units)?;
    Ok(callers)
}

/// The rules, of which the main rule is the last. A name stands for the first rule that has it.
pub fn rules(
    alloc: Global,
    known: &Known,
    units: &[LoadedUnit],
) -> Result<Listed<Caller>, AllocError>
    ensures { IfOk result (λ callers. callers ≡ map (rule_caller (rule_names units.now)) (files.rules units.now)) }
{
    let none = Table::new(alloc);
    let unnumbered = rules_among(alloc, known, &none, units)?;
    let names = names_of(alloc, unnumbered.slice())?;
    let callers = rules_among(alloc, known, &names, units)?;
    Ok(callers)
}

/// The rules, with those among some names that they call.
fn rules_among(
    alloc: Global,
    known: &Known,
    names: &Table,
    units: &[LoadedUnit],
) -> Result<Listed<Caller>, AllocError>
    ensures { IfOk result (λ callers. callers ≡ map (rule_caller names.now) (files.rules units.now)) }
{
    let mut callers = gather(alloc, known, names, Part::Rules, units)?;
    add_main(alloc, names, units, &mut callers)?;
    Ok(callers)
}

/// The initial values.
pub fn initials(
    alloc: Global,
    known: &Known,
    units: &[LoadedUnit],
) -> Result<Listed<Caller>, AllocError>
    ensures { IfOk result (λ callers. callers ≡ map (function_caller known.now) (files.initials units.now)) }
{
    let mut callers = Listed::new(alloc);
    let count = count(units)?;
    if count == 0 {
        return Ok(callers);
    }
    let last = count - 1;
    add_initials(alloc, known, last, &units[last as usize].unit, &mut callers)?;
    Ok(callers)
}

/// How many files there are. There are numbers for 4,294,967,295 files.
fn count(units: &[LoadedUnit]) -> Result<u32, AllocError>
    ensures { IfOk result (λ count. count ≡ length units.now) }
{
    if units.len() > u32::MAX as usize {
        return Err(AllocError);
    }
    Ok(units.len() as u32)
}

/// One part of the definitions of all files.
fn gather(
    alloc: Global,
    known: &Known,
    names: &Table,
    part: Part,
    units: &[LoadedUnit],
) -> Result<Listed<Caller>, AllocError>
    ensures { IfOk result (λ callers. callers ≡ flat_map (callers_in part known.now names.now) (definitions_from 0 units.now)) }
{
    let mut callers = Listed::new(alloc);
    let count = count(units)?;
    'units: for number in 0..count {
        let unit = &units[number as usize].unit;
        add_unit(
            alloc,
            known,
            names,
            part,
            number,
            unit.definitions.slice(),
            &mut callers,
        )?;
    }
    Ok(callers)
}

#[tactic(auto, using(crate::proofs::Gathering::unit_step, crate::proofs::Gathering::none_left))]
fn add_unit(
    alloc: Global,
    known: &Known,
    names: &Table,
    part: Part,
    number: u32,
    definitions: &[RawDefinition],
    callers: &mut Listed<Caller>,
) -> Result<(), AllocError>
    ensures { OnOk result (callers.new ≡ callers.old ++ flat_map (callers_in part known.now names.now) (of_unit number definitions.now)) }
{
    'definitions: for definition in definitions {
        add_definition(alloc, known, names, part, number, definition, callers)?;
    }
    Ok(())
}

fn add_definition(
    alloc: Global,
    known: &Known,
    names: &Table,
    part: Part,
    number: u32,
    definition: &RawDefinition,
    callers: &mut Listed<Caller>,
) -> Result<(), AllocError>
    ensures { OnOk result (callers.new ≡ callers.old ++ callers_in part known.now names.now (number, definition.now)) }
{
    match part {
        Part::Functions => add_if_function(alloc, known, number, definition, callers),
        Part::Invariants => add_if_invariant(alloc, known, number, definition, callers),
        Part::Rules => add_if_rule(alloc, names, number, definition, callers),
    }
}

#[tactic(auto, using(crate::proofs::Gathering::none_left))]
fn add_if_function(
    alloc: Global,
    known: &Known,
    number: u32,
    definition: &RawDefinition,
    callers: &mut Listed<Caller>,
) -> Result<(), AllocError>
    ensures { OnOk result (callers.new ≡ callers.old ++ map (function_caller known.now) (definition_in (number, definition.now))) }
{
    match definition {
        RawDefinition::Function(function) => add_function(alloc, known, number, function, callers),
        RawDefinition::Range(_, _, _) => Ok(()),
        RawDefinition::List(_, _) => Ok(()),
        RawDefinition::Rule(_, _, _) => Ok(()),
        RawDefinition::Invariant(_) => Ok(()),
    }
}

#[tactic(auto, using(crate::proofs::Gathering::none_left))]
fn add_if_invariant(
    alloc: Global,
    known: &Known,
    number: u32,
    definition: &RawDefinition,
    callers: &mut Listed<Caller>,
) -> Result<(), AllocError>
    ensures { OnOk result (callers.new ≡ callers.old ++ map (invariant_caller known.now) (invariant_in (number, definition.now))) }
{
    match definition {
        RawDefinition::Invariant(invariant) => add_invariant(
            alloc, known, number, invariant, callers,
        ),
        RawDefinition::Range(_, _, _) => Ok(()),
        RawDefinition::List(_, _) => Ok(()),
        RawDefinition::Rule(_, _, _) => Ok(()),
        RawDefinition::Function(_) => Ok(()),
    }
}

#[tactic(auto, using(crate::proofs::Gathering::none_left))]
fn add_if_rule(
    alloc: Global,
    names: &Table,
    number: u32,
    definition: &RawDefinition,
    callers: &mut Listed<Caller>,
) -> Result<(), AllocError>
    ensures { OnOk result (callers.new ≡ callers.old ++ map (rule_caller names.now) (rule_in (number, definition.now))) }
{
    match definition {
        RawDefinition::Rule(name, _, body) => add_rule(alloc, names, number, name, body, callers),
        RawDefinition::Range(_, _, _) => Ok(()),
        RawDefinition::List(_, _) => Ok(()),
        RawDefinition::Function(_) => Ok(()),
        RawDefinition::Invariant(_) => Ok(()),
    }
}

/// Adds the main rule, if the last file has one.
fn add_main(
    alloc: Global,
    names: &Table,
    units: &[LoadedUnit],
    callers: &mut Listed<Caller>,
) -> Result<(), AllocError>
    ensures { OnOk result (callers.new ≡ callers.old ++ map (rule_caller names.now) (map main_in (named_of (λ u. to_list u.main) units.now))) }
{
    let count = count(units)?;
    if count == 0 {
        return Ok(());
    }
    let last = count - 1;
    add_main_of(alloc, names, last, &units[last as usize].unit, callers)?;
    Ok(())
}

#[tactic(auto, using(crate::proofs::Gathering::none_left))]
fn add_main_of(
    alloc: Global,
    names: &Table,
    number: u32,
    unit: &RawUnit,
    callers: &mut Listed<Caller>,
) -> Result<(), AllocError>
    ensures { OnOk result (callers.new ≡ callers.old ++ map (rule_caller names.now) (map main_in (of_unit number (to_list unit.now.main)))) }
{
    match &unit.main {
        Some(main) => add_rule(alloc, names, number, &main.name, &main.rule, callers),
        None => Ok(()),
    }
}

/// Adds the initial values of a file.
#[tactic(auto, using(crate::proofs::Gathering::none_left))]
fn add_initials(
    alloc: Global,
    known: &Known,
    number: u32,
    unit: &RawUnit,
    callers: &mut Listed<Caller>,
) -> Result<(), AllocError>
    ensures { OnOk result (callers.new ≡ callers.old ++ map (function_caller known.now) (of_unit number (flat_map (λ i. i.functions) (to_list unit.now.init)))) }
{
    match &unit.init {
        Some(init) => add_functions(alloc, known, number, init.functions.slice(), callers),
        None => Ok(()),
    }
}

#[tactic(auto, using(crate::proofs::Gathering::functions_step, crate::proofs::Gathering::none_left))]
fn add_functions(
    alloc: Global,
    known: &Known,
    number: u32,
    functions: &[RawFunction],
    callers: &mut Listed<Caller>,
) -> Result<(), AllocError>
    ensures { OnOk result (callers.new ≡ callers.old ++ map (function_caller known.now) (of_unit number functions.now)) }
{
    'functions: for function in functions {
        add_function(alloc, known, number, function, callers)?;
    }
    Ok(())
}
