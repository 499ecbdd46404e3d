//! Which domains are defined, and by which numbers.
ghost use Rattle.std.specs.Prelude.{◌≡◌, ◌∷◌, [], ◌||◌, ◌≤◌, if◌then◌else◌, length, map, take, OnOk};
ghost use Rattle.std.specs.List.{flat_map, list_any};
ghost use Rattle.std.specs.Ordering.{int_eq};
ghost use Rattle.asm_tree.specs.declared.unit.RawInt.{RawInt};
ghost use Rattle.asm_faults.specs.declared.fault.ModelFault.TheVariants.{Duplicate, WrongKind};
ghost use Rattle.asm_faults.specs.At.{fault_at, token};
ghost use Rattle.asm_faults.specs.First.{noted};
ghost use Rattle.asm_faults.specs.DomainFaults.{boolean, integer, is_listed, domain_definition_in, domain_definitions, number_repeats};
ghost use Rattle.asm_declare.specs.Measures.{found, definitions_in};
ghost use Rattle.asm_declare.specs.Targets.{faults_of_target, faults_of_definition};

use crate::standing::is_standing;
use crate::tables::{Measure, Measures};
use asm_faults::{First, ModelFault};
use asm_tree::term::RawName;
use asm_tree::unit::{LoadedUnit, RawDefinition, RawInt};
use std::alloc::AllocError;

/// Notes what is wrong with the domains that are defined and with the numbers of the definitions.
pub fn targets(
    first: &mut First,
    measures: &Measures,
    units: &[LoadedUnit],
    count: u32,
) -> Result<(), AllocError>
    requires { count ≡ length units.now }
    ensures { OnOk result (first.new ≡ noted first.old (flat_map (faults_of_definition measures.now.names measures.now.measures) (domain_definitions units.now))) }
{
    for number in 0..count {
        let unit = &units[number as usize].unit;
        unit_targets(first, measures, number, unit.definitions.slice())?;
    }
    Ok(())
}

fn unit_targets(
    first: &mut First,
    measures: &Measures,
    number: u32,
    items: &[RawDefinition],
) -> Result<(), AllocError>
    ensures { OnOk result (first.new ≡ noted first.old (flat_map (faults_of_definition measures.now.names measures.now.measures) (definitions_in number items.now))) }
{
    for item in items {
        definition(first, measures, number, item)?;
    }
    Ok(())
}

fn definition(
    first: &mut First,
    measures: &Measures,
    number: u32,
    item: &RawDefinition,
) -> Result<(), AllocError>
    ensures { OnOk result (first.new ≡ noted first.old (flat_map (faults_of_definition measures.now.names measures.now.measures) (domain_definition_in (number, item.now)))) }
{
    match item {
        RawDefinition::Range(name, _, _) => {
            target(first, measures, number, name)?;
            Ok(())
        }
        RawDefinition::List(name, numbers) => {
            target(first, measures, number, name)?;
            numerals(first, number, numbers.slice())?;
            Ok(())
        }
        RawDefinition::Function(_) => Ok(()),
        RawDefinition::Rule(_, _, _) => Ok(()),
        RawDefinition::Invariant(_) => Ok(()),
    }
}

/// Notes a domain that may not be defined.
fn target(
    first: &mut First,
    measures: &Measures,
    number: u32,
    name: &RawName,
) -> Result<(), AllocError>
    ensures { OnOk result (first.new ≡ noted first.old (faults_of_target (is_listed (boolean ∷ integer ∷ []) name.now.text) (found measures.now.names measures.now.measures name.now.text) number name.now)) }
{
    let standing = is_standing(&name.text);
    let known = measures.measure(&name.text);
    note_target(first, standing, known, number, name)?;
    Ok(())
}

fn note_target(
    first: &mut First,
    standing: bool,
    known: Option<Measure>,
    number: u32,
    name: &RawName,
) -> Result<(), AllocError>
    ensures { OnOk result (first.new ≡ noted first.old (faults_of_target standing known number name.now)) }
{
    if standing {
        return first.note(ModelFault::WrongKind, number, name.at, &name.text);
    }
    match known {
        Some(measure) => note_whole(first, measure.is_part, number, name),
        None => first.note(ModelFault::Unknown, number, name.at, &name.text),
    }
}

/// Notes a domain that isn't a part of another.
fn note_whole(
    first: &mut First,
    is_part: bool,
    number: u32,
    name: &RawName,
) -> Result<(), AllocError>
    ensures { OnOk result (first.new ≡ noted first.old (if is_part then [] else fault_at WrongKind number name.now ∷ [])) }
{
    if is_part {
        Ok(())
    } else {
        first.note(ModelFault::WrongKind, number, name.at, &name.text)
    }
}

/// Notes the numbers that stand earlier in their list.
fn numerals(first: &mut First, number: u32, numbers: &[RawInt]) -> Result<(), AllocError>
    ensures { OnOk result (first.new ≡ noted first.old (number_repeats number [] numbers.now)) }
{
    for place in 0..numbers.len() {
        let numeral = &numbers[place];
        let repeated = is_among(numbers, place, numeral);
        note_repeated(first, repeated, number, numeral)?;
    }
    Ok(())
}

fn note_repeated(
    first: &mut First,
    repeated: bool,
    number: u32,
    numeral: &RawInt,
) -> Result<(), AllocError>
    ensures { OnOk result (first.new ≡ noted first.old (if repeated then token Duplicate number numeral.now.at numeral.now.first ∷ [] else [])) }
{
    if repeated {
        first.note(ModelFault::Duplicate, number, numeral.at, &numeral.first)
    } else {
        Ok(())
    }
}

/// Whether the numbers before a place have one of this value.
fn is_among(numbers: &[RawInt], place: usize, numeral: &RawInt) -> bool
    requires { place ≤ length numbers.now }
    ensures { result ≡ list_any (int_eq numeral.now.value) (map (λ (x : RawInt). x.value) (take place numbers.now)) }
{
    let mut among = false;
    for at in 0..place {
        among = either(among, same_value(numeral, &numbers[at]));
    }
    among
}

fn either(first: bool, second: bool) -> bool
    ensures { result ≡ (first || second) }
{
    first || second
}

fn same_value(numeral: &RawInt, other: &RawInt) -> bool
    ensures { result ≡ int_eq numeral.now.value other.now.value }
{
    numeral.value == other.value
}
