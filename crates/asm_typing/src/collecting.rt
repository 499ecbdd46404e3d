//! What all files together declare: the heads of rules, names, and functions that have a term.

ghost use Rattle.std.specs.Prelude.{◌≡◌, ◌++◌, map, length, IfOk, OnOk};
ghost use Rattle.std.specs.List.{flat_map};
ghost use Rattle.asm_tree.specs.declared.term.RawName.{RawName};
ghost use Rattle.asm_tree.specs.declared.term.RawBinder.{RawBinder};
ghost use Rattle.asm_tree.specs.declared.unit.RawDeclaration.{RawDeclaration};
ghost use Rattle.asm_tree.specs.declared.unit.RawDefinition.{RawDefinition};
ghost use Rattle.asm_faults.specs.Files.{Of, names_in_declaration, names_in_definition, declared_names};
ghost use Rattle.asm_faults.specs.Terms.{type_named};
ghost use Rattle.asm_faults.specs.Bodies.{heads_of};
ghost use Rattle.asm_typing.specs.BodyPieces.{given_name, over_definitions, AreMet, head_in, main_heads, texts_of, main_texts};

use crate::heads::{Heads, Types};
use crate::note::see;
use asm_faults::{First, Known};
use asm_list::Listed;
use asm_tree::term::{RawBinder, RawName};
use asm_tree::unit::{LoadedUnit, RawDeclaration, RawDefinition};
use name_table::Table;
use std::alloc::{AllocError, Global};

// ---- rules

/// The heads of all rules, the main rule last.
pub fn all_heads(known: &Known, units: &[LoadedUnit], count: u32) -> Result<Heads, AllocError>
    requires { count ≡ length units.now }
    ensures { IfOk result (λ heads. heads ≡ heads_of known.now units.now) }
{
    let mut heads = Heads::new(known.alloc());
    'units: for number in 0..count {
        let unit = &units[number as usize].unit;
        heads = unit_heads(known, heads, unit.definitions.slice())?;
    }
    let all = main_head(known, heads, units, count)?;
    Ok(all)
}

fn unit_heads(known: &Known, before: Heads, items: &[RawDefinition]) -> Result<Heads, AllocError>
    ensures { IfOk result (λ heads. heads ≡ before ++ flat_map (head_in known.now) items.now) }
{
    let mut heads = before;
    'items: for item in items {
        heads = add_head(known, heads, item)?;
    }
    Ok(heads)
}

fn add_head(known: &Known, heads: Heads, item: &RawDefinition) -> Result<Heads, AllocError>
    ensures { IfOk result (λ all. all ≡ heads ++ head_in known.now item.now) }
{
    match item {
        RawDefinition::Rule(name, parameters, _) => {
            let types = types_of(known, parameters.slice())?;
            let all = heads.add(&name.text, types)?;
            Ok(all)
        }
        RawDefinition::Range(_, _, _) => Ok(heads),
        RawDefinition::List(_, _) => Ok(heads),
        RawDefinition::Function(_) => Ok(heads),
        RawDefinition::Invariant(_) => Ok(heads),
    }
}

fn types_of(known: &Known, items: &[RawBinder]) -> Result<Types, AllocError>
    ensures { IfOk result (λ types. types ≡ map (λ (b : RawBinder). type_named known.now b.domain.text) items.now) }
{
    let mut types = Listed::new(known.alloc());
    'items: for item in items {
        types.push(known.type_named(&item.domain.text))?;
    }
    Ok(types)
}

/// Adds the main rule, which has no parameters.
fn main_head(
    known: &Known,
    heads: Heads,
    units: &[LoadedUnit],
    count: u32,
) -> Result<Heads, AllocError>
    requires { count ≡ length units.now }
    ensures { IfOk result (λ all. all ≡ heads ++ main_heads units.now) }
{
    if count == 0 {
        return Ok(heads);
    }
    let last = count - 1;
    match &units[last as usize].unit.main {
        Some(main) => {
            let types = Listed::new(known.alloc());
            let all = heads.add(&main.name.text, types)?;
            Ok(all)
        }
        None => Ok(heads),
    }
}

// ---- names

/// The names that all files declare.
pub fn all_names(alloc: Global, units: &[LoadedUnit], count: u32) -> Result<Table, AllocError>
    requires { count ≡ length units.now }
    ensures { IfOk result (λ names. names ≡ map (λ (p : Of RawName). p.1.text) (declared_names units.now)) }
{
    let mut names = Table::new(alloc);
    'units: for number in 0..count {
        let unit = &units[number as usize].unit;
        declared(&mut names, unit.declarations.slice())?;
        defined(&mut names, unit.definitions.slice())?;
    }
    main_name(&mut names, units, count)?;
    Ok(names)
}

fn declared(names: &mut Table, items: &[RawDeclaration]) -> Result<(), AllocError>
    ensures { OnOk result (names.new ≡ names.old ++ flat_map (λ (d : RawDeclaration). texts_of (names_in_declaration d)) items.now) }
{
    'items: for item in items {
        declaration_names(names, item)?;
    }
    Ok(())
}

fn declaration_names(names: &mut Table, item: &RawDeclaration) -> Result<(), AllocError>
    ensures { OnOk result (names.new ≡ names.old ++ texts_of (names_in_declaration item.now)) }
{
    match item {
        RawDeclaration::Enumeration(name, elements) => {
            names.add(&name.text)?;
            add_all(names, elements.slice())?;
            Ok(())
        }
        RawDeclaration::Subset(name, _) => {
            names.add(&name.text)?;
            Ok(())
        }
        RawDeclaration::Abstract(name) => {
            names.add(&name.text)?;
            Ok(())
        }
        RawDeclaration::Function(_, name, _, _) => {
            names.add(&name.text)?;
            Ok(())
        }
    }
}

fn add_all(names: &mut Table, items: &[RawName]) -> Result<(), AllocError>
    ensures { OnOk result (names.new ≡ names.old ++ texts_of items.now) }
{
    'items: for item in items {
        names.add(&item.text)?;
    }
    Ok(())
}

fn defined(names: &mut Table, items: &[RawDefinition]) -> Result<(), AllocError>
    ensures { OnOk result (names.new ≡ names.old ++ flat_map (λ (d : RawDefinition). texts_of (names_in_definition d)) items.now) }
{
    'items: for item in items {
        definition_names(names, item)?;
    }
    Ok(())
}

fn definition_names(names: &mut Table, item: &RawDefinition) -> Result<(), AllocError>
    ensures { OnOk result (names.new ≡ names.old ++ texts_of (names_in_definition item.now)) }
{
    match item {
        RawDefinition::Rule(name, _, _) => {
            names.add(&name.text)?;
            Ok(())
        }
        RawDefinition::Invariant(invariant) => match &invariant.name {
            Some(name) => {
                names.add(&name.text)?;
                Ok(())
            }
            None => Ok(()),
        },
        RawDefinition::Range(_, _, _) => Ok(()),
        RawDefinition::List(_, _) => Ok(()),
        RawDefinition::Function(_) => Ok(()),
    }
}

/// Adds the name of the main rule.
fn main_name(names: &mut Table, units: &[LoadedUnit], count: u32) -> Result<(), AllocError>
    requires { count ≡ length units.now }
    ensures { OnOk result (names.new ≡ names.old ++ main_texts units.now) }
{
    if count == 0 {
        return Ok(());
    }
    let last = count - 1;
    match &units[last as usize].unit.main {
        Some(main) => {
            names.add(&main.name.text)?;
            Ok(())
        }
        None => Ok(()),
    }
}

// ---- functions that have a term

/// Notes functions that are defined again. The names of all that are defined are added.
pub fn all_given(
    units: &[LoadedUnit],
    count: u32,
    first: &mut First,
    seen: &mut Table,
) -> Result<(), AllocError>
    requires { count ≡ length units.now }
    ensures { OnOk result (AreMet first.old seen.old (over_definitions given_name units.now) first.new seen.new) }
{
    'units: for number in 0..count {
        let unit = &units[number as usize].unit;
        unit_given(number, first, seen, unit.definitions.slice())?;
    }
    Ok(())
}

fn unit_given(
    unit: u32,
    first: &mut First,
    seen: &mut Table,
    items: &[RawDefinition],
) -> Result<(), AllocError>
    ensures { OnOk result (AreMet first.old seen.old (flat_map (λ (d : RawDefinition). given_name (unit, d)) items.now) first.new seen.new) }
{
    'items: for item in items {
        see_given(unit, first, seen, item)?;
    }
    Ok(())
}

fn see_given(
    unit: u32,
    first: &mut First,
    seen: &mut Table,
    item: &RawDefinition,
) -> Result<(), AllocError>
    ensures { OnOk result (AreMet first.old seen.old (given_name (unit, item.now)) first.new seen.new) }
{
    match item {
        RawDefinition::Function(function) => {
            see(first, unit, seen, &function.name)?;
            Ok(())
        }
        RawDefinition::Range(_, _, _) => Ok(()),
        RawDefinition::List(_, _) => Ok(()),
        RawDefinition::Rule(_, _, _) => Ok(()),
        RawDefinition::Invariant(_) => Ok(()),
    }
}
