//! The definitions of domains, of which a second one of a domain is noted.
ghost use Rattle.std.specs.Prelude.{◌≡◌, [], ◌∷◌, ◌++◌, length, OnOk, IfOk};
ghost use Rattle.asm_faults.specs.First.{noted};
ghost use Rattle.asm_faults.specs.DomainFaults.{domain_definition_in, domain_definitions, definition_repeats};
ghost use Rattle.asm_declare.specs.Entered.{AreEntered};
ghost use Rattle.asm_declare.specs.Measures.{definitions_in, AreDefined, AreDefinitions};

use crate::enter::enter;
use crate::measure::{capped, count_between};
use crate::tables::Definitions;
use asm_faults::First;
use asm_tree::term::RawName;
use asm_tree::unit::{LoadedUnit, RawDefinition};
use std::alloc::{AllocError, Global};

/// The definitions of domains in all files. A domain that is defined again is noted.
pub fn definitions(
    alloc: Global,
    units: &[LoadedUnit],
    count: u32,
    first: &mut First,
) -> Result<Definitions, AllocError>
    requires { count ≡ length units.now }
    ensures noted { OnOk result (first.new ≡ noted first.old (definition_repeats (domain_definitions units.now))) }
    ensures defined { IfOk result (λ d. AreDefinitions units.now d.names d.sizes) }
{
    let mut definitions = Definitions::new(alloc);
    all_definitions(&mut definitions, first, units, count)?;
    Ok(definitions)
}

fn all_definitions(
    definitions: &mut Definitions,
    first: &mut First,
    units: &[LoadedUnit],
    count: u32,
) -> Result<(), AllocError>
    requires { count ≡ length units.now }
    ensures { OnOk result (AreDefined first.old definitions.old.names definitions.old.sizes (domain_definitions units.now) first.new definitions.new.names definitions.new.sizes) }
{
    for number in 0..count {
        let unit = &units[number as usize].unit;
        unit_definitions(definitions, first, number, unit.definitions.slice())?;
    }
    Ok(())
}

fn unit_definitions(
    definitions: &mut Definitions,
    first: &mut First,
    number: u32,
    items: &[RawDefinition],
) -> Result<(), AllocError>
    ensures { OnOk result (AreDefined first.old definitions.old.names definitions.old.sizes (definitions_in number items.now) first.new definitions.new.names definitions.new.sizes) }
{
    for item in items {
        take(definitions, first, number, item)?;
    }
    Ok(())
}

fn take(
    definitions: &mut Definitions,
    first: &mut First,
    number: u32,
    item: &RawDefinition,
) -> Result<(), AllocError>
    ensures { OnOk result (AreDefined first.old definitions.old.names definitions.old.sizes (domain_definition_in (number, item.now)) first.new definitions.new.names definitions.new.sizes) }
{
    match item {
        RawDefinition::Range(name, low, high) => {
            let size = count_between(low.value, high.value);
            define(definitions, first, number, name, size)?;
            Ok(())
        }
        RawDefinition::List(name, numbers) => {
            let size = capped(numbers.len());
            define(definitions, first, number, name, size)?;
            Ok(())
        }
        RawDefinition::Function(_) => Ok(()),
        RawDefinition::Rule(_, _, _) => Ok(()),
        RawDefinition::Invariant(_) => Ok(()),
    }
}

fn define(
    definitions: &mut Definitions,
    first: &mut First,
    number: u32,
    name: &RawName,
    size: u32,
) -> Result<(), AllocError>
    ensures entered { OnOk result (AreEntered first.old definitions.old.names ((number, name.now) ∷ []) first.new definitions.new.names) }
    ensures sizes { OnOk result (definitions.new.sizes ≡ definitions.old.sizes ++ size ∷ []) }
{
    enter(&mut definitions.names, first, number, name)?;
    definitions.sizes.push(size)?;
    Ok(())
}
