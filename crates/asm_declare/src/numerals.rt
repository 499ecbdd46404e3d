//! The numbers of parts of the whole numbers.
ghost use Rattle.std.specs.Prelude.{◌≡◌, ℕ, [], map, if◌then◌else◌, None, Some, option_copied, IfOk};
ghost use Rattle.std.specs.List.{find};
ghost use Rattle.std.specs.Option.{option_map, unwrap_or};
ghost use Rattle.asm_domain.specs.Universe.{Numbers, numbers_between};
ghost use Rattle.asm_tree.specs.declared.unit.RawInt.{RawInt};
ghost use Rattle.asm_faults.specs.Files.{has_name};
ghost use Rattle.asm_faults.specs.DomainFaults.{DomainDefinition, domain_definition_in, definition_of_domain, numbers_of};
ghost use Rattle.asm_declare.specs.Measures.{definitions_in};
ghost use Rattle.asm_declare.specs.Told.{numbers_in, told};

use asm_domain::Domain;
use asm_list::{Listed, Name};
use asm_tree::unit::{LoadedUnit, RawDefinition, RawInt};
use std::alloc::{AllocError, Global};

/// The domain of the numbers of the first definition of a name, where it has one and they make a domain.
pub fn part(alloc: Global, units: &[LoadedUnit], domain: &Name) -> Result<Domain, AllocError>
    ensures { IfOk result (λ d. d ≡ Numbers (unwrap_or (option_map told (definition_of_domain units.now domain.now)) [])) }
{
    match definition(units, domain) {
        Some(definition) => defined(alloc, definition),
        None => Err(AllocError),
    }
}

/// The first definition of a domain.
fn definition<'a>(units: &'a [LoadedUnit], domain: &Name) -> Option<&'a RawDefinition>
    ensures { option_map told (definition_of_domain units.now domain.now) ≡ option_map numbers_in (option_copied result) }
{
    for loaded in units {
        match unit_definition(loaded.unit.definitions.slice(), domain) {
            Some(definition) => return Some(definition),
            None => {}
        }
    }
    None
}

fn unit_definition<'a>(definitions: &'a [RawDefinition], domain: &Name) -> Option<&'a RawDefinition>
    ensures { (n : ℕ) → option_map told (find (λ d. has_name domain.now d.name) (definitions_in n definitions.now)) ≡ option_map numbers_in (option_copied result) }
{
    for definition in definitions {
        if defines(definition, domain) {
            return Some(definition);
        }
    }
    None
}

/// Whether it is the definition of a domain.
fn defines(definition: &RawDefinition, domain: &Name) -> bool
    ensures { (n : ℕ) → option_map told (find (λ d. has_name domain.now d.name) (domain_definition_in (n, definition.now))) ≡ (if result then Some (numbers_in definition.now) else None) }
{
    match definition {
        RawDefinition::Range(name, _, _) => name.text.text() == domain.text(),
        RawDefinition::List(name, _) => name.text.text() == domain.text(),
        RawDefinition::Function(_) => false,
        RawDefinition::Rule(_, _, _) => false,
        RawDefinition::Invariant(_) => false,
    }
}

/// The domain of the numbers of a definition, where they make one.
fn defined(alloc: Global, definition: &RawDefinition) -> Result<Domain, AllocError>
    ensures { IfOk result (λ d. d ≡ Numbers (numbers_in definition.now)) }
{
    match definition {
        RawDefinition::Range(_, low, high) => range(low.value, high.value),
        RawDefinition::List(_, numbers) => listed(alloc, numbers.slice()),
        RawDefinition::Function(_) => Err(AllocError),
        RawDefinition::Rule(_, _, _) => Err(AllocError),
        RawDefinition::Invariant(_) => Err(AllocError),
    }
}

fn range(low: i64, high: i64) -> Result<Domain, AllocError>
    ensures { IfOk result (λ d. d ≡ Numbers (numbers_between low high)) }
{
    match Domain::range(low, high) {
        Ok(domain) => Ok(domain),
        Err(_) => Err(AllocError),
    }
}

fn listed(alloc: Global, numbers: &[RawInt]) -> Result<Domain, AllocError>
    ensures { IfOk result (λ d. d ≡ Numbers (map (λ (x : RawInt). x.value) numbers.now)) }
{
    let values = values(alloc, numbers)?;
    match Domain::listed(alloc, values.slice()) {
        Ok(domain) => Ok(domain),
        Err(_) => Err(AllocError),
    }
}

fn values(alloc: Global, numbers: &[RawInt]) -> Result<Listed<i64>, AllocError>
    ensures { IfOk result (λ values. values ≡ map (λ (x : RawInt). x.value) numbers.now) }
{
    let mut values = Listed::new(alloc);
    for number in numbers {
        values.push(number.value)?;
    }
    Ok(values)
}
