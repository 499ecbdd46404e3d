//! Files: where an interval is refused in what they define.

ghost use Rattle.std.specs.Prelude.{◌≡◌, [], length, OnOk, IfOk};
ghost use Rattle.std.specs.List.{flat_map};
ghost use Rattle.asm_faults.specs.First.{noted};
ghost use Rattle.asm_faults.specs.Files.{initials};
ghost use Rattle.asm_faults.specs.Ranges as bounds;
ghost use Rattle.asm_faults.specs.Ranges.{range_faults, function_faults, rule_faults, term_faults};
ghost use Rattle.asm_ranges.specs.Parts.{function_part, rule_part, invariant_part, part_faults, all_part_faults, main_faults};

use crate::intervals::Intervals;
use crate::rule::rule;
use crate::scope::Scope;
use crate::term::{term, within};
use asm_faults::First;
use asm_sign::Signature;
use asm_tree::rule::RawRule;
use asm_tree::term::RawBinder;
use asm_tree::unit::{LoadedUnit, RawDefinition, RawFunction, RawInvariant, Units};
use std::alloc::{AllocError, Global};

/// What definitions are looked through for.
#[derive(Clone, Copy, Debug, PartialEq, Eq)]
enum Part {
    Functions,
    Rules,
    Invariants,
}

/// Notes where an interval is refused in definitions, rules, invariants and initial values, since it may pass 2^62.
///
/// There are numbers for 4,294,967,295 files.
pub fn ranges(
    alloc: Global,
    units: &Units,
    signature: &Signature,
    first: &mut First,
) -> Result<(), AllocError>
    ensures { OnOk result (first.new ≡ noted first.old (range_faults signature.now units.now)) }
{
    let known = Intervals::new(alloc, signature)?;
    let files = units.slice();
    let count = count(files)?;
    definitions(&known, Part::Functions, first, files, count)?;
    definitions(&known, Part::Rules, first, files, count)?;
    main_rule(&known, first, files, count)?;
    definitions(&known, Part::Invariants, first, files, count)?;
    initials(&known, first, files, count)?;
    Ok(())
}

/// How many files there are.
fn count(units: &[LoadedUnit]) -> Result<u32, AllocError>
    ensures { IfOk result (λ count. count ≡ length units.now) }
{
    if units.len() > u32::MAX as usize {
        return Err(AllocError);
    }
    Ok(units.len() as u32)
}

/// Notes where an interval is refused in the definitions of all files.
fn definitions(
    known: &Intervals,
    part: Part,
    first: &mut First,
    units: &[LoadedUnit],
    count: u32,
) -> Result<(), AllocError>
    requires { count ≡ length units.now }
    ensures { OnOk result (first.new ≡ noted first.old (all_part_faults part known.now units.now)) }
{
    'units: for number in 0..count {
        let unit = &units[number as usize].unit;
        in_unit(known, part, number, first, unit.definitions.slice())?;
    }
    Ok(())
}

fn in_unit(
    known: &Intervals,
    part: Part,
    unit: u32,
    first: &mut First,
    items: &[RawDefinition],
) -> Result<(), AllocError>
    ensures { OnOk result (first.new ≡ noted first.old (flat_map (λ d. part_faults part known.now (unit, d)) items.now)) }
{
    'items: for item in items {
        definition(known, part, unit, first, item)?;
    }
    Ok(())
}

fn definition(
    known: &Intervals,
    part: Part,
    unit: u32,
    first: &mut First,
    item: &RawDefinition,
) -> Result<(), AllocError>
    ensures { OnOk result (first.new ≡ noted first.old (part_faults part known.now (unit, item.now))) }
{
    match part {
        Part::Functions => in_function(known, unit, first, item),
        Part::Rules => in_rule(known, unit, first, item),
        Part::Invariants => in_invariant(known, unit, first, item),
    }
}

fn in_function(
    known: &Intervals,
    unit: u32,
    first: &mut First,
    item: &RawDefinition,
) -> Result<(), AllocError>
    ensures { OnOk result (first.new ≡ noted first.old (function_part known.now (unit, item.now))) }
{
    match item {
        RawDefinition::Range(_, _, _) => Ok(()),
        RawDefinition::List(_, _) => Ok(()),
        RawDefinition::Function(defined) => function(known, unit, first, defined),
        RawDefinition::Rule(_, _, _) => Ok(()),
        RawDefinition::Invariant(_) => Ok(()),
    }
}

fn in_rule(
    known: &Intervals,
    unit: u32,
    first: &mut First,
    item: &RawDefinition,
) -> Result<(), AllocError>
    ensures { OnOk result (first.new ≡ noted first.old (rule_part known.now (unit, item.now))) }
{
    match item {
        RawDefinition::Range(_, _, _) => Ok(()),
        RawDefinition::List(_, _) => Ok(()),
        RawDefinition::Function(_) => Ok(()),
        RawDefinition::Rule(_, parameters, body) => {
            macro_rule(known, unit, first, parameters.slice(), body)
        }
        RawDefinition::Invariant(_) => Ok(()),
    }
}

fn in_invariant(
    known: &Intervals,
    unit: u32,
    first: &mut First,
    item: &RawDefinition,
) -> Result<(), AllocError>
    ensures { OnOk result (first.new ≡ noted first.old (invariant_part known.now (unit, item.now))) }
{
    match item {
        RawDefinition::Range(_, _, _) => Ok(()),
        RawDefinition::List(_, _) => Ok(()),
        RawDefinition::Function(_) => Ok(()),
        RawDefinition::Rule(_, _, _) => Ok(()),
        RawDefinition::Invariant(stated) => invariant(known, unit, first, stated),
    }
}

fn function(
    known: &Intervals,
    unit: u32,
    first: &mut First,
    item: &RawFunction,
) -> Result<(), AllocError>
    ensures { OnOk result (first.new ≡ noted first.old (function_faults known.now (unit, item.now))) }
{
    let mut scope = Scope::new(known.alloc());
    within(known, &mut scope, item.parameters.slice())?;
    term(known, unit, &mut scope, first, &item.term)?;
    Ok(())
}

fn macro_rule(
    known: &Intervals,
    unit: u32,
    first: &mut First,
    parameters: &[RawBinder],
    body: &RawRule,
) -> Result<(), AllocError>
    ensures { OnOk result (first.new ≡ noted first.old (rule_faults known.now unit body.now (bounds.within known.now parameters.now []))) }
{
    let mut scope = Scope::new(known.alloc());
    within(known, &mut scope, parameters)?;
    rule(known, unit, &mut scope, first, body)?;
    Ok(())
}

fn invariant(
    known: &Intervals,
    unit: u32,
    first: &mut First,
    item: &RawInvariant,
) -> Result<(), AllocError>
    ensures { OnOk result (first.new ≡ noted first.old (term_faults known.now unit item.now.term [])) }
{
    let mut scope = Scope::new(known.alloc());
    term(known, unit, &mut scope, first, &item.term)?;
    Ok(())
}

/// Notes where an interval is refused in the main rule of the last file.
fn main_rule(
    known: &Intervals,
    first: &mut First,
    units: &[LoadedUnit],
    count: u32,
) -> Result<(), AllocError>
    requires { count ≡ length units.now }
    ensures { OnOk result (first.new ≡ noted first.old (main_faults known.now units.now)) }
{
    if count == 0 {
        return Ok(());
    }
    let last = count - 1;
    match &units[last as usize].unit.main {
        Some(main) => macro_rule(known, last, first, &[], &main.rule),
        None => Ok(()),
    }
}

/// Notes where an interval is refused in the initial values of the last file.
fn initials(
    known: &Intervals,
    first: &mut First,
    units: &[LoadedUnit],
    count: u32,
) -> Result<(), AllocError>
    requires { count ≡ length units.now }
    ensures { OnOk result (first.new ≡ noted first.old (flat_map (function_faults known.now) (initials units.now))) }
{
    if count == 0 {
        return Ok(());
    }
    let last = count - 1;
    match &units[last as usize].unit.init {
        Some(init) => functions(known, last, first, init.functions.slice()),
        None => Ok(()),
    }
}

fn functions(
    known: &Intervals,
    unit: u32,
    first: &mut First,
    items: &[RawFunction],
) -> Result<(), AllocError>
    ensures { OnOk result (first.new ≡ noted first.old (flat_map (λ f. function_faults known.now (unit, f)) items.now)) }
{
    'items: for item in items {
        function(known, unit, first, item)?;
    }
    Ok(())
}
