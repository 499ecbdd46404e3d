//! How many locations the declared functions have.
ghost use Rattle.std.specs.Prelude.{◌≡◌, ◌+◌, ◌*◌, ◌≤◌, nat_lt, is_none, [], ◌∷◌, map, length, if◌then◌else◌, None, OnOk, IfOk};
ghost use Rattle.std.specs.List.{flat_map};
ghost use Rattle.asm_faults.specs.declared.fault.ModelFault.TheVariants.{TooManyLocations};
ghost use Rattle.asm_faults.specs.At.{fault_at};
ghost use Rattle.asm_faults.specs.First.{noted};
ghost use Rattle.asm_faults.specs.Files.{function_in, functions};
ghost use Rattle.asm_faults.specs.FunctionFaults.{number_or_whole, own_faults, size_of, product};
ghost use Rattle.asm_declare.specs.Measures.{capped, functions_in};
ghost use Rattle.asm_declare.specs.Locations.{AreCounted};

use crate::listing::kind_of;
use crate::numbers::DomainNumbers;
use crate::own::declared_own;
use asm_faults::{First, ModelFault};
use asm_tree::term::RawName;
use asm_tree::unit::{LoadedUnit, RawDeclaration};
use std::alloc::{AllocError, Global};

/// Notes the function with which the locations pass 4,096. Answers how many locations there are, or 4,097 where there
/// are more.
pub fn all_locations(
    alloc: Global,
    first: &mut First,
    units: &[LoadedUnit],
    count: u32,
    numbers: &DomainNumbers,
) -> Result<u32, AllocError>
    requires { count ≡ length units.now }
    ensures { IfOk result (λ after. AreCounted numbers.now first.old 0 (functions units.now) first.new after) }
{
    let mut locations = 0;
    for number in 0..count {
        let unit = &units[number as usize].unit;
        let declarations = unit.declarations.slice();
        locations = unit_locations(alloc, first, number, declarations, numbers, locations)?;
    }
    Ok(locations)
}

fn unit_locations(
    alloc: Global,
    first: &mut First,
    number: u32,
    declarations: &[RawDeclaration],
    numbers: &DomainNumbers,
    before: u32,
) -> Result<u32, AllocError>
    requires { before ≤ 4097 }
    ensures { IfOk result (λ after. AreCounted numbers.now first.old before (functions_in number declarations.now) first.new after) }
{
    let mut locations = before;
    for declaration in declarations {
        locations = declared_locations(alloc, first, number, declaration, numbers, locations)?;
    }
    Ok(locations)
}

/// So many locations, and those of a function, where one is declared.
fn declared_locations(
    alloc: Global,
    first: &mut First,
    number: u32,
    declaration: &RawDeclaration,
    numbers: &DomainNumbers,
    before: u32,
) -> Result<u32, AllocError>
    requires { before ≤ 4097 }
    ensures { IfOk result (λ after. AreCounted numbers.now first.old before (function_in (number, declaration.now)) first.new after) }
{
    match declaration {
        RawDeclaration::Function(kind, name, arguments, _) => {
            let fine = is_fine(alloc, number, declaration, numbers)?;
            let dynamic = kind_of(*kind).is_dynamic();
            let count = locations_of(fine, dynamic, arguments.slice(), numbers);
            let after = together(before, count);
            note_many(first, number, name, before, after)?;
            Ok(after)
        }
        RawDeclaration::Enumeration(_, _) => Ok(before),
        RawDeclaration::Subset(_, _) => Ok(before),
        RawDeclaration::Abstract(_) => Ok(before),
    }
}

/// Whether nothing is wrong with a function by itself.
fn is_fine(
    alloc: Global,
    number: u32,
    declaration: &RawDeclaration,
    numbers: &DomainNumbers,
) -> Result<bool, AllocError>
    ensures { IfOk result (λ fine. fine ≡ is_none (noted None (flat_map (own_faults numbers.now) (function_in (number, declaration.now))))) }
{
    let mut first = First::new(alloc);
    declared_own(&mut first, number, declaration, numbers)?;
    Ok(first.is_none())
}

/// How many locations a function has, or 4,097 where it has more.
fn locations_of(fine: bool, dynamic: bool, arguments: &[RawName], numbers: &DomainNumbers) -> u32
    ensures { result ≡ capped (if fine then (if dynamic then product (map (λ d. size_of numbers.now (number_or_whole numbers.now d)) arguments.now) else 0) else 0) }
{
    if !fine {
        return 0;
    }
    if !dynamic {
        return 0;
    }
    tuples_of(arguments, numbers)
}

/// How many lists of arguments there are, or 4,097 where there are more.
fn tuples_of(arguments: &[RawName], numbers: &DomainNumbers) -> u32
    ensures { result ≡ capped (product (map (λ d. size_of numbers.now (number_or_whole numbers.now d)) arguments.now)) }
{
    let mut count = 1;
    for argument in arguments {
        let size = numbers.size(numbers.number_or_whole(argument));
        count = times(count, size);
    }
    count
}

fn times(count: u32, size: u32) -> u32
    requires count { count ≤ 4097 }
    requires size { size ≤ 256 }
    ensures { result ≡ capped (count * size) }
{
    (count * size).min(4097)
}

fn together(before: u32, count: u32) -> u32
    requires before { before ≤ 4097 }
    requires count { count ≤ 4097 }
    ensures { result ≡ capped (before + count) }
{
    (before + count).min(4097)
}

/// Notes a function with which there are too many locations for the first time.
fn note_many(
    first: &mut First,
    number: u32,
    name: &RawName,
    before: u32,
    after: u32,
) -> Result<(), AllocError>
    ensures { OnOk result (first.new ≡ noted first.old (if nat_lt 4096 before then [] else (if nat_lt 4096 after then fault_at TooManyLocations number name.now ∷ [] else []))) }
{
    if before > 4096 {
        Ok(())
    } else if after > 4096 {
        first.note(ModelFault::TooManyLocations, number, name.at, &name.text)
    } else {
        Ok(())
    }
}
