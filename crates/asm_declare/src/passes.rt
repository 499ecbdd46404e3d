//! What is wrong with the domains and the functions.
ghost use Rattle.std.specs.Prelude.{◌≡◌, OnOk};
ghost use Rattle.asm_faults.specs.First.{noted};
ghost use Rattle.asm_faults.specs.DomainFaults.{domain_faults};
ghost use Rattle.asm_faults.specs.FunctionFaults.{domains_of, function_faults};

use crate::defining::definitions;
use crate::locations::all_locations;
use crate::measuring::measures;
use crate::naming::count;
use crate::numbers::DomainNumbers;
use crate::own::all_own;
use crate::targets::targets;
use asm_faults::First;
use asm_sign::Domains;
use asm_tree::unit::Units;
use std::alloc::{AllocError, Global};

/// Notes what is wrong with the domains that files declare and define: a domain is empty or has more than 256 elements, is a
/// part of another domain than that of the whole numbers, or has no definition; a definition is of a domain that isn't
/// declared as a part of another, of one that has a definition, or has a number twice.
///
/// There are numbers for 4,294,967,295 names and as many files.
pub fn domains(alloc: Global, units: &Units, first: &mut First) -> Result<(), AllocError>
    ensures { OnOk result (first.new ≡ noted first.old (domain_faults units.now)) }
{
    let files = units.slice();
    let count = count(files)?;
    let definitions = definitions(alloc, files, count, first)?;
    let measures = measures(alloc, files, count, &definitions, first)?;
    targets(first, &measures, files, count)?;
    Ok(())
}

/// Notes what is wrong with the functions that files declare: a domain isn't declared, arguments or the values of locations
/// may be any whole numbers, there are more than four arguments, or the locations of all functions are more than 4,096.
///
/// There are numbers for 4,294,967,295 domains and as many files.
pub fn functions(
    alloc: Global,
    units: &Units,
    domains: &Domains,
    first: &mut First,
) -> Result<(), AllocError>
    requires { domains.now ≡ domains_of units.now }
    ensures { OnOk result (first.new ≡ noted first.old (function_faults units.now)) }
{
    let files = units.slice();
    let count = count(files)?;
    let numbers = DomainNumbers::new(alloc, domains)?;
    all_own(first, files, count, &numbers)?;
    all_locations(alloc, first, files, count, &numbers)?;
    Ok(())
}
