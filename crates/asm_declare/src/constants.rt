//! The constants of abstract domains.
ghost use Rattle.std.specs.Prelude.{◌≡◌, ℕ, ◌++◌, map, filter, OnOk, IfOk};
ghost use Rattle.asm_faults.specs.Files.{DeclaredFunction, function_in};
ghost use Rattle.asm_faults.specs.DomainFaults.{is_constant_of, constants_of};
ghost use Rattle.asm_declare.specs.Measures.{functions_in};

use crate::measure::is_constant;
use asm_domain::Names;
use asm_list::Name;
use asm_tree::unit::{LoadedUnit, RawDeclaration};
use std::alloc::{AllocError, Global};

/// The names of the constants of a domain.
pub fn constants(alloc: Global, units: &[LoadedUnit], domain: &Name) -> Result<Names, AllocError>
    ensures { IfOk result (λ names. names ≡ constants_of units.now domain.now) }
{
    let mut names = Names::new(alloc);
    for loaded in units {
        unit_constants(alloc, &mut names, loaded.unit.declarations.slice(), domain)?;
    }
    Ok(names)
}

fn unit_constants(
    alloc: Global,
    names: &mut Names,
    declarations: &[RawDeclaration],
    domain: &Name,
) -> Result<(), AllocError>
    ensures { OnOk result ((n : ℕ) → names.new ≡ names.old ++ map (λ (f : DeclaredFunction). f.name.text) (filter (is_constant_of domain.now) (functions_in n declarations.now))) }
{
    for declaration in declarations {
        add_constant(alloc, names, declaration, domain)?;
    }
    Ok(())
}

/// Adds a constant where one is declared.
fn add_constant(
    alloc: Global,
    names: &mut Names,
    declaration: &RawDeclaration,
    domain: &Name,
) -> Result<(), AllocError>
    ensures { OnOk result ((n : ℕ) → names.new ≡ names.old ++ map (λ (f : DeclaredFunction). f.name.text) (filter (is_constant_of domain.now) (function_in (n, declaration.now)))) }
{
    if !is_constant(declaration, domain) {
        return Ok(());
    }
    match declaration {
        RawDeclaration::Function(_, name, _, _) => {
            let name = Name::of(alloc, name.text.text())?;
            names.push(name)?;
            Ok(())
        }
        RawDeclaration::Enumeration(_, _) => Ok(()),
        RawDeclaration::Subset(_, _) => Ok(()),
        RawDeclaration::Abstract(_) => Ok(()),
    }
}
