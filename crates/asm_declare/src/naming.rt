//! Which names are declared twice.
ghost use Rattle.std.specs.Prelude.{◌≡◌, length, OnOk, IfOk};
ghost use Rattle.std.specs.List.{flat_map};
ghost use Rattle.asm_faults.specs.First.{noted};
ghost use Rattle.asm_faults.specs.Files.{all_of, named_of, names_in_declaration, names_in_definition, names_in, main_names};
ghost use Rattle.asm_faults.specs.DomainFaults.{name_faults};
ghost use Rattle.asm_declare.specs.Entered.{of_unit, AreEntered};

use crate::enter::{enter, enter_all};
use crate::standing::standing;
use asm_faults::First;
use asm_tree::unit::{LoadedUnit, RawDeclaration, RawDefinition, RawUnit, Units};
use name_table::Table;
use std::alloc::{AllocError, Global};

/// Notes the names that files declare twice, where the truth values and the whole numbers count as declared before all.
///
/// There are numbers for 4,294,967,295 names and as many files.
pub fn names(alloc: Global, units: &Units, first: &mut First) -> Result<(), AllocError>
    ensures { OnOk result (first.new ≡ noted first.old (name_faults units.now)) }
{
    let files = units.slice();
    let count = count(files)?;
    let mut names = standing(alloc)?;
    all_names(&mut names, first, files, count)?;
    last_name(&mut names, first, files, count)?;
    Ok(())
}

/// How many files there are.
pub fn count(units: &[LoadedUnit]) -> Result<u32, AllocError>
    ensures { IfOk result (λ count. count ≡ length units.now) }
{
    if units.len() > u32::MAX as usize {
        return Err(AllocError);
    }
    Ok(units.len() as u32)
}

/// Takes the names of all files but that of the main rule.
fn all_names(
    names: &mut Table,
    first: &mut First,
    units: &[LoadedUnit],
    count: u32,
) -> Result<(), AllocError>
    requires { count ≡ length units.now }
    ensures { OnOk result (AreEntered first.old names.old (all_of names_in units.now) first.new names.new) }
{
    for number in 0..count {
        unit_names(names, first, number, &units[number as usize].unit)?;
    }
    Ok(())
}

/// Takes the name of the main rule.
fn last_name(
    names: &mut Table,
    first: &mut First,
    units: &[LoadedUnit],
    count: u32,
) -> Result<(), AllocError>
    requires { count ≡ length units.now }
    ensures { OnOk result (AreEntered first.old names.old (named_of main_names units.now) first.new names.new) }
{
    if count == 0 {
        return Ok(());
    }
    let last = count - 1;
    match &units[last as usize].unit.main {
        Some(main) => {
            enter(names, first, last, &main.name)?;
            Ok(())
        }
        None => Ok(()),
    }
}

/// Takes the names of a file.
fn unit_names(
    names: &mut Table,
    first: &mut First,
    number: u32,
    unit: &RawUnit,
) -> Result<(), AllocError>
    ensures { OnOk result (AreEntered first.old names.old (of_unit number (names_in unit.now)) first.new names.new) }
{
    declared(names, first, number, unit.declarations.slice())?;
    defined(names, first, number, unit.definitions.slice())?;
    Ok(())
}

fn declared(
    names: &mut Table,
    first: &mut First,
    number: u32,
    declarations: &[RawDeclaration],
) -> Result<(), AllocError>
    ensures { OnOk result (AreEntered first.old names.old (of_unit number (flat_map names_in_declaration declarations.now)) first.new names.new) }
{
    for declaration in declarations {
        declaration_names(names, first, number, declaration)?;
    }
    Ok(())
}

fn declaration_names(
    names: &mut Table,
    first: &mut First,
    number: u32,
    declaration: &RawDeclaration,
) -> Result<(), AllocError>
    ensures { OnOk result (AreEntered first.old names.old (of_unit number (names_in_declaration declaration.now)) first.new names.new) }
{
    match declaration {
        RawDeclaration::Enumeration(name, elements) => {
            enter(names, first, number, name)?;
            enter_all(names, first, number, elements.slice())?;
            Ok(())
        }
        RawDeclaration::Subset(name, _) => enter(names, first, number, name),
        RawDeclaration::Abstract(name) => enter(names, first, number, name),
        RawDeclaration::Function(_, name, _, _) => enter(names, first, number, name),
    }
}

fn defined(
    names: &mut Table,
    first: &mut First,
    number: u32,
    definitions: &[RawDefinition],
) -> Result<(), AllocError>
    ensures { OnOk result (AreEntered first.old names.old (of_unit number (flat_map names_in_definition definitions.now)) first.new names.new) }
{
    for definition in definitions {
        definition_names(names, first, number, definition)?;
    }
    Ok(())
}

fn definition_names(
    names: &mut Table,
    first: &mut First,
    number: u32,
    definition: &RawDefinition,
) -> Result<(), AllocError>
    ensures { OnOk result (AreEntered first.old names.old (of_unit number (names_in_definition definition.now)) first.new names.new) }
{
    match definition {
        RawDefinition::Rule(name, _, _) => enter(names, first, number, name),
        RawDefinition::Invariant(invariant) => match &invariant.name {
            Some(name) => enter(names, first, number, name),
            None => Ok(()),
        },
        RawDefinition::Range(_, _, _) => Ok(()),
        RawDefinition::List(_, _) => Ok(()),
        RawDefinition::Function(_) => Ok(()),
    }
}
