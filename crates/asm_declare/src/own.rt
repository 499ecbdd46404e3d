//! What is wrong with each declared function by itself.
ghost use Rattle.std.specs.Prelude.{◌≡◌, [], ◌∷◌, ◌++◌, nat_lt, length, if◌then◌else◌, OnOk};
ghost use Rattle.std.specs.List.{flat_map};
ghost use Rattle.asm_sign.specs.Kind.{is_dynamic};
ghost use Rattle.asm_faults.specs.declared.fault.ModelFault.TheVariants.{WrongArity};
ghost use Rattle.asm_faults.specs.At.{fault_at};
ghost use Rattle.asm_faults.specs.First.{noted};
ghost use Rattle.asm_faults.specs.Files.{function_in, functions};
ghost use Rattle.asm_faults.specs.FunctionFaults.{kind_of, unknown_domain, infinite_domain, own_faults};
ghost use Rattle.asm_declare.specs.Measures.{functions_in};

use crate::listing::kind_of;
use crate::numbers::DomainNumbers;
use asm_faults::{First, ModelFault};
use asm_tree::term::RawName;
use asm_tree::unit::{LoadedUnit, RawDeclaration, RawFunctionKind};
use std::alloc::AllocError;

/// Notes what is wrong with the functions of files.
pub fn all_own(
    first: &mut First,
    units: &[LoadedUnit],
    count: u32,
    numbers: &DomainNumbers,
) -> Result<(), AllocError>
    requires { count ≡ length units.now }
    ensures { OnOk result (first.new ≡ noted first.old (flat_map (own_faults numbers.now) (functions units.now))) }
{
    for number in 0..count {
        let unit = &units[number as usize].unit;
        unit_own(first, number, unit.declarations.slice(), numbers)?;
    }
    Ok(())
}

fn unit_own(
    first: &mut First,
    number: u32,
    declarations: &[RawDeclaration],
    numbers: &DomainNumbers,
) -> Result<(), AllocError>
    ensures { OnOk result (first.new ≡ noted first.old (flat_map (own_faults numbers.now) (functions_in number declarations.now))) }
{
    for declaration in declarations {
        declared_own(first, number, declaration, numbers)?;
    }
    Ok(())
}

/// Notes what is wrong with a function, where one is declared.
pub fn declared_own(
    first: &mut First,
    number: u32,
    declaration: &RawDeclaration,
    numbers: &DomainNumbers,
) -> Result<(), AllocError>
    ensures { OnOk result (first.new ≡ noted first.old (flat_map (own_faults numbers.now) (function_in (number, declaration.now)))) }
{
    match declaration {
        RawDeclaration::Function(kind, name, arguments, codomain) => {
            note_arguments(first, number, arguments.slice(), numbers)?;
            note_unknown(first, number, codomain, numbers)?;
            note_values(first, number, *kind, codomain)?;
            note_arity(first, number, name, arguments.len())?;
            Ok(())
        }
        RawDeclaration::Enumeration(_, _) => Ok(()),
        RawDeclaration::Subset(_, _) => Ok(()),
        RawDeclaration::Abstract(_) => Ok(()),
    }
}

fn note_arguments(
    first: &mut First,
    number: u32,
    arguments: &[RawName],
    numbers: &DomainNumbers,
) -> Result<(), AllocError>
    ensures { OnOk result (first.new ≡ noted first.old (flat_map (λ d. unknown_domain numbers.now number d ++ infinite_domain number d) arguments.now)) }
{
    for argument in arguments {
        note_argument(first, number, argument, numbers)?;
    }
    Ok(())
}

fn note_argument(
    first: &mut First,
    number: u32,
    argument: &RawName,
    numbers: &DomainNumbers,
) -> Result<(), AllocError>
    ensures { OnOk result (first.new ≡ noted first.old (unknown_domain numbers.now number argument.now ++ infinite_domain number argument.now)) }
{
    note_unknown(first, number, argument, numbers)?;
    note_infinite(first, number, argument)?;
    Ok(())
}

/// Notes a domain that isn't declared.
fn note_unknown(
    first: &mut First,
    number: u32,
    domain: &RawName,
    numbers: &DomainNumbers,
) -> Result<(), AllocError>
    ensures { OnOk result (first.new ≡ noted first.old (unknown_domain numbers.now number domain.now)) }
{
    match numbers.number(&domain.text) {
        Some(_) => Ok(()),
        None => first.note(ModelFault::Unknown, number, domain.at, &domain.text),
    }
}

/// Notes the domain of all whole numbers, where one has to be finite.
fn note_infinite(first: &mut First, number: u32, domain: &RawName) -> Result<(), AllocError>
    ensures { OnOk result (first.new ≡ noted first.old (infinite_domain number domain.now)) }
{
    if domain.text.text() == "Integer" {
        first.note(ModelFault::DomainTooLarge, number, domain.at, &domain.text)
    } else {
        Ok(())
    }
}

/// Notes values that may be any whole numbers, where a function has locations.
fn note_values(
    first: &mut First,
    number: u32,
    kind: RawFunctionKind,
    codomain: &RawName,
) -> Result<(), AllocError>
    ensures { OnOk result (first.new ≡ noted first.old (if is_dynamic (kind_of kind) then infinite_domain number codomain.now else [])) }
{
    if kind_of(kind).is_dynamic() {
        note_infinite(first, number, codomain)
    } else {
        Ok(())
    }
}

/// Notes more than four arguments.
fn note_arity(
    first: &mut First,
    number: u32,
    name: &RawName,
    count: usize,
) -> Result<(), AllocError>
    ensures { OnOk result (first.new ≡ noted first.old (if nat_lt 4 count then fault_at WrongArity number name.now ∷ [] else [])) }
{
    if count > 4 {
        first.note(ModelFault::WrongArity, number, name.at, &name.text)
    } else {
        Ok(())
    }
}
