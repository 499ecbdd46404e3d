//! The functions that files declare, as they stand in a signature.
ghost use Rattle.std.specs.Prelude.{◌≡◌, ℕ, ◌++◌, map, OnOk, IfOk};
ghost use Rattle.asm_faults.specs.Files.{function_in, functions};
ghost use Rattle.asm_faults.specs.FunctionFaults.{kind_of, number_or_whole, function_of};
ghost use Rattle.asm_declare.specs.Measures.{functions_in};

use crate::numbers::DomainNumbers;
use asm_list::{Listed, Name};
use asm_sign::{Domains, FunKind, Function, Functions};
use asm_tree::term::RawName;
use asm_tree::unit::{LoadedUnit, RawDeclaration, RawFunctionKind, Units};
use std::alloc::{AllocError, Global};

/// The functions of a model in load order. A domain that isn't known counts as that of all whole numbers.
///
/// There are numbers for 4,294,967,295 domains.
pub fn function_list(
    alloc: Global,
    units: &Units,
    domains: &Domains,
) -> Result<Functions, AllocError>
    ensures { IfOk result (λ fs. fs ≡ map (function_of domains.now) (functions units.now)) }
{
    let numbers = DomainNumbers::new(alloc, domains)?;
    let mut list = Functions::new(alloc);
    all_functions(alloc, &mut list, units.slice(), &numbers)?;
    Ok(list)
}

fn all_functions(
    alloc: Global,
    list: &mut Functions,
    units: &[LoadedUnit],
    numbers: &DomainNumbers,
) -> Result<(), AllocError>
    ensures { OnOk result (list.new ≡ list.old ++ map (function_of numbers.now) (functions units.now)) }
{
    for loaded in units {
        unit_functions(alloc, list, loaded.unit.declarations.slice(), numbers)?;
    }
    Ok(())
}

fn unit_functions(
    alloc: Global,
    list: &mut Functions,
    declarations: &[RawDeclaration],
    numbers: &DomainNumbers,
) -> Result<(), AllocError>
    ensures { OnOk result ((n : ℕ) → list.new ≡ list.old ++ map (function_of numbers.now) (functions_in n declarations.now)) }
{
    for declaration in declarations {
        add_function(alloc, list, declaration, numbers)?;
    }
    Ok(())
}

/// Adds a function where one is declared.
fn add_function(
    alloc: Global,
    list: &mut Functions,
    declaration: &RawDeclaration,
    numbers: &DomainNumbers,
) -> Result<(), AllocError>
    ensures { OnOk result ((n : ℕ) → list.new ≡ list.old ++ map (function_of numbers.now) (function_in (n, declaration.now))) }
{
    match declaration {
        RawDeclaration::Function(kind, name, arguments, codomain) => {
            let function = function(alloc, *kind, name, arguments.slice(), codomain, numbers)?;
            list.push(function)?;
            Ok(())
        }
        RawDeclaration::Enumeration(_, _) => Ok(()),
        RawDeclaration::Subset(_, _) => Ok(()),
        RawDeclaration::Abstract(_) => Ok(()),
    }
}

fn function(
    alloc: Global,
    kind: RawFunctionKind,
    name: &RawName,
    arguments: &[RawName],
    codomain: &RawName,
    numbers: &DomainNumbers,
) -> Result<Function, AllocError>
    ensures { IfOk result (λ f. (n : ℕ) → f ≡ function_of numbers.now record { unit = n; kind = kind; name = name.now; domains = arguments.now; codomain = codomain.now }) }
{
    let domains = argument_domains(alloc, arguments, numbers)?;
    let name = Name::of(alloc, name.text.text())?;
    Ok(Function {
        name,
        kind: kind_of(kind),
        domains,
        codomain: numbers.number_or_whole(codomain),
    })
}

fn argument_domains(
    alloc: Global,
    arguments: &[RawName],
    numbers: &DomainNumbers,
) -> Result<Listed<u32>, AllocError>
    ensures { IfOk result (λ ns. ns ≡ map (number_or_whole numbers.now) arguments.now) }
{
    let mut domains = Listed::new(alloc);
    for argument in arguments {
        domains.push(numbers.number_or_whole(argument))?;
    }
    Ok(domains)
}

pub fn kind_of(kind: RawFunctionKind) -> FunKind
    ensures { result ≡ kind_of kind }
{
    match kind {
        RawFunctionKind::Static => FunKind::Static,
        RawFunctionKind::Derived => FunKind::Derived,
        RawFunctionKind::Controlled => FunKind::Controlled,
        RawFunctionKind::Monitored => FunKind::Monitored,
        RawFunctionKind::Shared => FunKind::Shared,
        RawFunctionKind::Out => FunKind::Out,
    }
}
