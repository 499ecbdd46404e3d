//! Passes one after the other, up to the first that finds anything wrong.
ghost use Rattle.std.specs.Prelude.{◌≡◌, None, OnOk, IfErr};
ghost use Rattle.asm_faults.specs.First.{noted, first_fault};
ghost use Rattle.asm_faults.specs.Calls.{call_faults, read_faults};
ghost use Rattle.asm_faults.specs.FunctionFaults.{signature_of};
ghost use Rattle.asm_resolve.specs.Resolved.{Tells, told_of, declaration_faults, use_faults, reach_faults};

use asm_calls::{calls, reads};
use asm_declare::{domains, names};
use asm_faults::{Fault, First, Known, ModelError};
use asm_ranges::ranges;
use asm_sign::Signature;
use asm_source::Place;
use asm_tree::unit::{LoadedUnit, Units};
use asm_typing::{bodies, missing};
use std::alloc::{AllocError, Global};

/// The passes over names and domains.
pub fn declarations(alloc: Global, units: &Units, first: &mut First) -> Result<(), AllocError>
    requires { first.old ≡ None }
    ensures { OnOk result (first.new ≡ first_fault (declaration_faults units.now)) }
{
    names(alloc, units, first)?;
    if !first.is_none() {
        return Ok(());
    }
    domains(alloc, units, first)
}

/// The passes over bodies, what is missing, calls, reads and intervals.
pub fn uses(
    alloc: Global,
    units: &Units,
    signature: &Signature,
    first: &mut First,
) -> Result<(), AllocError>
    requires none { first.old ≡ None }
    requires signature { signature.now ≡ signature_of units.now }
    ensures { OnOk result (first.new ≡ first_fault (use_faults signature.now units.now)) }
{
    bodies(alloc, units, signature, first)?;
    if !first.is_none() {
        return Ok(());
    }
    missing(alloc, units, signature, first)?;
    if !first.is_none() {
        return Ok(());
    }
    reaches(alloc, units, signature, first)
}

/// The passes over calls, reads and intervals.
fn reaches(
    alloc: Global,
    units: &Units,
    signature: &Signature,
    first: &mut First,
) -> Result<(), AllocError>
    requires { first.old ≡ None }
    ensures { OnOk result (first.new ≡ first_fault (reach_faults signature.now units.now)) }
{
    calls_in(alloc, units, signature, first)?;
    if !first.is_none() {
        return Ok(());
    }
    reads_in(alloc, units, signature, first)?;
    if !first.is_none() {
        return Ok(());
    }
    ranges(alloc, units, signature, first)
}

/// The pass over calls.
fn calls_in(
    alloc: Global,
    units: &Units,
    signature: &Signature,
    first: &mut First,
) -> Result<(), AllocError>
    ensures { OnOk result (first.new ≡ noted first.old (call_faults signature.now units.now)) }
{
    let known = Known::new(alloc, signature)?;
    calls(alloc, units, &known, first)?;
    Ok(())
}

/// The pass over reads.
fn reads_in(
    alloc: Global,
    units: &Units,
    signature: &Signature,
    first: &mut First,
) -> Result<(), AllocError>
    ensures { OnOk result (first.new ≡ noted first.old (read_faults signature.now units.now)) }
{
    let known = Known::new(alloc, signature)?;
    reads(alloc, units, &known, first)?;
    Ok(())
}

/// Refuses files in which something is wrong.
pub fn settle(units: &Units, first: First) -> Result<(), ModelError>
    ensures ok { OnOk result (first ≡ None) }
    ensures err { IfErr result (Tells units.now first) }
{
    match first.into_fault() {
        Some(fault) => Err(told(units.slice(), fault)),
        None => Ok(()),
    }
}

/// What is told of a fault.
fn told(units: &[LoadedUnit], fault: Fault) -> ModelError
    ensures { result ≡ told_of units.now fault }
{
    let file = match units.get(fault.unit as usize) {
        Some(unit) => unit.file,
        None => 0,
    };
    let at = fault.at;
    ModelError::Fault(fault.kind, fault.name, Place { file, at })
}
