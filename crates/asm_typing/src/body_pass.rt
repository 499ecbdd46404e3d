//! What is wrong with the bodies of definitions, rules, invariants and initial values.

ghost use Rattle.std.specs.Prelude.{◌≡◌, [], map, length, IfOk, OnOk};
ghost use Rattle.std.specs.List.{flat_map};
ghost use Rattle.asm_tree.specs.declared.term.RawName.{RawName};
ghost use Rattle.asm_faults.specs.First.{noted};
ghost use Rattle.asm_faults.specs.Files.{Of, to_list, named_of, main_in, initials, declared_names};
ghost use Rattle.asm_faults.specs.DomainFaults.{repeats};
ghost use Rattle.asm_typing.specs.BodyPieces.{given_name, over_definitions};
ghost use Rattle.asm_faults.specs.Bodies.{heads_of, body_faults, functions_faults, has_initial, macro_faults};

use crate::collecting::{all_given, all_heads, all_names};
use crate::functions::given_functions;
use crate::given::Given;
use crate::heads::Heads;
use crate::parts::{Part, macro_body, parts};
use asm_faults::{First, Known};
use asm_sign::{Domains, Signature};
use asm_tree::unit::{LoadedUnit, Units};
use name_table::Table;
use std::alloc::{AllocError, Global};

/// Notes what is wrong with the bodies of definitions, rules, invariants and initial values.
///
/// There are numbers for 4,294,967,295 files and as many names.
pub fn bodies(
    alloc: Global,
    units: &Units,
    signature: &Signature,
    first: &mut First,
) -> Result<(), AllocError>
    ensures { OnOk result (first.new ≡ noted first.old (body_faults signature.now units.now)) }
{
    let count = count(units.slice())?;
    let known = Known::new(alloc, signature)?;
    all_bodies(signature.domains(), &known, units.slice(), count, first)
}

/// How many files there are.
pub fn count(units: &[LoadedUnit]) -> Result<u32, AllocError>
    ensures { IfOk result (λ count. count ≡ length units.now) }
{
    if units.len() > u32::MAX as usize {
        return Err(AllocError);
    }
    Ok(units.len() as u32)
}

fn all_bodies(
    domains: &Domains,
    known: &Known,
    units: &[LoadedUnit],
    count: u32,
    first: &mut First,
) -> Result<(), AllocError>
    requires domains { domains.now ≡ known.now.domains }
    requires count { count ≡ length units.now }
    ensures { OnOk result (first.new ≡ noted first.old (body_faults known.now units.now)) }
{
    let heads = all_heads(known, units, count)?;
    let names = all_names(known.alloc(), units, count)?;
    each_body(domains, known, &heads, &names, units, count, first)
}

fn each_body(
    domains: &Domains,
    known: &Known,
    heads: &Heads,
    names: &Table,
    units: &[LoadedUnit],
    count: u32,
    first: &mut First,
) -> Result<(), AllocError>
    requires domains { domains.now ≡ known.now.domains }
    requires heads { heads.now ≡ heads_of known.now units.now }
    requires names { names.now ≡ map (λ (p : Of RawName). p.1.text) (declared_names units.now) }
    requires count { count ≡ length units.now }
    ensures { OnOk result (first.new ≡ noted first.old (body_faults known.now units.now)) }
{
    repeated(known, units, count, first)?;
    parts(
        Part::Functions,
        domains,
        known,
        heads,
        names,
        units,
        count,
        first,
    )?;
    parts(
        Part::Rules,
        domains,
        known,
        heads,
        names,
        units,
        count,
        first,
    )?;
    main_body(known, heads, units, count, first)?;
    parts(
        Part::Invariants,
        domains,
        known,
        heads,
        names,
        units,
        count,
        first,
    )?;
    initial_values(domains, known, units, count, first)?;
    Ok(())
}

/// Notes functions that are defined again.
fn repeated(
    known: &Known,
    units: &[LoadedUnit],
    count: u32,
    first: &mut First,
) -> Result<(), AllocError>
    requires { count ≡ length units.now }
    ensures { OnOk result (first.new ≡ noted first.old (repeats [] (over_definitions given_name units.now))) }
{
    let mut seen = Table::new(known.alloc());
    all_given(units, count, first, &mut seen)?;
    Ok(())
}

/// Notes what is wrong with the main rule.
fn main_body(
    known: &Known,
    heads: &Heads,
    units: &[LoadedUnit],
    count: u32,
    first: &mut First,
) -> Result<(), AllocError>
    requires { count ≡ length units.now }
    ensures { OnOk result (first.new ≡ noted first.old (flat_map (macro_faults known.now heads.now) (map main_in (named_of (λ u. to_list u.main) units.now)))) }
{
    if count == 0 {
        return Ok(());
    }
    let last = count - 1;
    match &units[last as usize].unit.main {
        Some(main) => {
            macro_body(known, heads, last, first, &[], &main.rule)?;
            Ok(())
        }
        None => Ok(()),
    }
}

/// Notes what is wrong with the initial values.
fn initial_values(
    domains: &Domains,
    known: &Known,
    units: &[LoadedUnit],
    count: u32,
    first: &mut First,
) -> Result<(), AllocError>
    requires domains { domains.now ≡ known.now.domains }
    requires count { count ≡ length units.now }
    ensures { OnOk result (first.new ≡ noted first.old (functions_faults known.now has_initial (initials units.now))) }
{
    if count == 0 {
        return Ok(());
    }
    let last = count - 1;
    match &units[last as usize].unit.init {
        Some(init) => {
            given_functions(
                domains,
                known,
                Given::Initial,
                last,
                first,
                init.functions.slice(),
            )?;
            Ok(())
        }
        None => Ok(()),
    }
}
