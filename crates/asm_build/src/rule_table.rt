//! The names of rules in load order.
ghost use Rattle.std.specs.Prelude.{◌≡◌, ◌<◌, ℕ, ◌++◌, map, length, slice_get, Some, IfOk, OnOk};
ghost use Rattle.std.specs.List.{flat_map};
ghost use Rattle.asm_faults.specs.Files.{DeclaredRule, rule_in, main_in, all_of, named_of, to_list};
ghost use Rattle.asm_build.specs.MadeRules.{rule_names};

use asm_tree::unit::{LoadedUnit, RawDefinition};
use name_table::Table;
use std::alloc::{AllocError, Global};

/// The names of the rules of files, in load order; that of the main rule is the last.
pub fn table_of(alloc: Global, units: &[LoadedUnit]) -> Result<Table, AllocError>
    ensures { IfOk result (λ names. names ≡ rule_names units.now) }
{
    let mut names = Table::new(alloc);
    all_names(&mut names, units)?;
    last_name(&mut names, units)?;
    Ok(names)
}

fn rule_name(names: &mut Table, raw: &RawDefinition) -> Result<(), AllocError>
    ensures { (n : ℕ) → OnOk result (names.new ≡ names.old ++ map (λ (r : DeclaredRule). r.name.text) (rule_in (n, raw.now))) }
{
    match raw {
        RawDefinition::Rule(name, _, _) => Ok(names.add(&name.text)?),
        RawDefinition::Range(_, _, _) => Ok(()),
        RawDefinition::List(_, _) => Ok(()),
        RawDefinition::Function(_) => Ok(()),
        RawDefinition::Invariant(_) => Ok(()),
    }
}

fn unit_names(names: &mut Table, raws: &[RawDefinition]) -> Result<(), AllocError>
    ensures { (n : ℕ) → OnOk result (names.new ≡ names.old ++ map (λ (r : DeclaredRule). r.name.text) (flat_map (λ d. rule_in (n, d)) raws.now)) }
{
    'raws: for raw in raws {
        rule_name(names, raw)?;
    }
    Ok(())
}

fn all_names(names: &mut Table, units: &[LoadedUnit]) -> Result<(), AllocError>
    ensures { OnOk result (names.new ≡ names.old ++ map (λ (r : DeclaredRule). r.name.text) (flat_map rule_in (all_of (λ u. u.definitions) units.now))) }
{
    'units: for unit in units {
        unit_names(names, unit.unit.definitions.slice())?;
    }
    Ok(())
}

/// Adds the name of the main rule.
fn last_name(names: &mut Table, units: &[LoadedUnit]) -> Result<(), AllocError>
    ensures { OnOk result (names.new ≡ names.old ++ map (λ (r : DeclaredRule). r.name.text) (map main_in (named_of (λ u. to_list u.main) units.now))) }
{
    if units.is_empty() {
        return Ok(());
    }
    let last = units.len() - 1;
    let unit = unit_at(units, last);
    match &unit.unit.main {
        Some(main) => Ok(names.add(&main.name.text)?),
        None => Ok(()),
    }
}

/// The file at a place.
pub fn unit_at(units: &[LoadedUnit], place: usize) -> &LoadedUnit
    requires { place < length units.now }
    ensures { slice_get units.now place ≡ Some result.now }
{
    &units[place]
}
