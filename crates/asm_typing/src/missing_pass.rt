//! What is missing in a model.

ghost use Rattle.std.specs.Prelude.{◌≡◌, not, ◌&&◌, [], ◌∷◌, ◌++◌, length, IfOk, OnOk};
ghost use Rattle.std.specs.List.{flat_map};
ghost use Rattle.asm_sign.specs.Kind.{is_dynamic};
ghost use Rattle.asm_tree.specs.declared.unit.RawDeclaration.{RawDeclaration};
ghost use Rattle.asm_faults.specs.First.{noted};
ghost use Rattle.asm_faults.specs.Files.{named_of};
ghost use Rattle.asm_faults.specs.FunctionFaults.{kind_of, number_or_whole, signature_of};
ghost use Rattle.asm_faults.specs.Missing.{defined_names, missing_faults, missing_main, missing_init};
ghost use Rattle.asm_typing.specs.BodyPieces.{needs_definition, undefined_at, over_declarations};

use crate::body_pass::count;
use crate::collecting::all_given;
use crate::given::{is_free, is_static_and};
use crate::note::{is_listed, note_if};
use asm_faults::{First, Known, ModelFault};
use asm_sign::{Domains, Signature};
use asm_tree::term::RawName;
use asm_tree::unit::{LoadedUnit, RawDeclaration, RawFunctionKind, RawUnit, Units};
use name_table::Table;
use std::alloc::{AllocError, Global};

/// Notes functions without a definition, and that the last file has no main rule or no initial values.
///
/// There are numbers for 4,294,967,295 files and as many names.
pub fn missing(
    alloc: Global,
    units: &Units,
    signature: &Signature,
    first: &mut First,
) -> Result<(), AllocError>
    requires { signature.now ≡ signature_of units.now }
    ensures { OnOk result (first.new ≡ noted first.old (missing_faults units.now)) }
{
    let count = count(units.slice())?;
    let known = Known::new(alloc, signature)?;
    all_missing(signature.domains(), &known, units.slice(), count, first)
}

fn all_missing(
    domains: &Domains,
    known: &Known,
    units: &[LoadedUnit],
    count: u32,
    first: &mut First,
) -> Result<(), AllocError>
    requires domains { domains.now ≡ known.now.domains }
    requires known { known.now ≡ signature_of units.now }
    requires count { count ≡ length units.now }
    ensures { OnOk result (first.new ≡ noted first.old (missing_faults units.now)) }
{
    let defined = all_defined(known, units, count)?;
    each_missing(domains, known, &defined, units, count, first)
}

/// The names of all functions that are defined.
fn all_defined(known: &Known, units: &[LoadedUnit], count: u32) -> Result<Table, AllocError>
    requires { count ≡ length units.now }
    ensures { IfOk result (λ defined. defined ≡ defined_names units.now) }
{
    let mut defined = Table::new(known.alloc());
    let mut repeated = First::new(known.alloc());
    all_given(units, count, &mut repeated, &mut defined)?;
    Ok(defined)
}

fn each_missing(
    domains: &Domains,
    known: &Known,
    defined: &Table,
    units: &[LoadedUnit],
    count: u32,
    first: &mut First,
) -> Result<(), AllocError>
    requires domains { domains.now ≡ known.now.domains }
    requires known { known.now ≡ signature_of units.now }
    requires defined { defined.now ≡ defined_names units.now }
    requires count { count ≡ length units.now }
    ensures { OnOk result (first.new ≡ noted first.old (missing_faults units.now)) }
{
    undefined(domains, known, defined, units, count, first)?;
    last_parts(units, count, first)?;
    Ok(())
}

/// Notes functions without a definition.
fn undefined(
    domains: &Domains,
    known: &Known,
    defined: &Table,
    units: &[LoadedUnit],
    count: u32,
    first: &mut First,
) -> Result<(), AllocError>
    requires domains { domains.now ≡ known.now.domains }
    requires count { count ≡ length units.now }
    ensures { OnOk result (first.new ≡ noted first.old (over_declarations (undefined_at known.now.domains defined.now) units.now)) }
{
    'units: for number in 0..count {
        let unit = &units[number as usize].unit;
        unit_undefined(
            domains,
            known,
            defined,
            number,
            first,
            unit.declarations.slice(),
        )?;
    }
    Ok(())
}

fn unit_undefined(
    domains: &Domains,
    known: &Known,
    defined: &Table,
    unit: u32,
    first: &mut First,
    items: &[RawDeclaration],
) -> Result<(), AllocError>
    requires { domains.now ≡ known.now.domains }
    ensures { OnOk result (first.new ≡ noted first.old (flat_map (λ (d : RawDeclaration). undefined_at known.now.domains defined.now (unit, d)) items.now)) }
{
    'items: for item in items {
        declaration(domains, known, defined, unit, first, item)?;
    }
    Ok(())
}

fn declaration(
    domains: &Domains,
    known: &Known,
    defined: &Table,
    unit: u32,
    first: &mut First,
    item: &RawDeclaration,
) -> Result<(), AllocError>
    requires { domains.now ≡ known.now.domains }
    ensures { OnOk result (first.new ≡ noted first.old (undefined_at known.now.domains defined.now (unit, item.now))) }
{
    match item {
        RawDeclaration::Function(kind, name, _, codomain) => {
            let needed = is_needed(domains, known, *kind, name, codomain);
            let listed = is_listed(defined, &name.text);
            note_if(
                is_wanting(needed, listed),
                first,
                ModelFault::NoDefinition,
                unit,
                name.at,
                &name.text,
            )?;
            Ok(())
        }
        RawDeclaration::Enumeration(_, _) => Ok(()),
        RawDeclaration::Subset(_, _) => Ok(()),
        RawDeclaration::Abstract(_) => Ok(()),
    }
}

fn is_wanting(needed: bool, listed: bool) -> bool
    ensures { result ≡ (needed && not listed) }
{
    needed && !listed
}

/// Whether a function of this kind, this name and this codomain has to have a definition.
fn is_needed(
    domains: &Domains,
    known: &Known,
    kind: RawFunctionKind,
    name: &RawName,
    codomain: &RawName,
) -> bool
    requires { domains.now ≡ known.now.domains }
    ensures { result ≡ needs_definition known.now.domains kind name.now codomain.now }
{
    let dynamic = is_dynamic(kind);
    let free = is_free(domains, &name.text, number_or_whole(known, codomain));
    is_static_and(dynamic, free)
}

fn is_dynamic(kind: RawFunctionKind) -> bool
    ensures { result ≡ is_dynamic (kind_of kind) }
{
    match kind {
        RawFunctionKind::Static => false,
        RawFunctionKind::Derived => false,
        RawFunctionKind::Controlled => true,
        RawFunctionKind::Monitored => true,
        RawFunctionKind::Shared => true,
        RawFunctionKind::Out => true,
    }
}

fn number_or_whole(known: &Known, name: &RawName) -> u32
    ensures { result ≡ number_or_whole known.now.domains name.now }
{
    match known.domain(&name.text) {
        Some(number) => number,
        None => u32::MAX,
    }
}

/// Notes that the last file has no main rule or no initial values.
fn last_parts(units: &[LoadedUnit], count: u32, first: &mut First) -> Result<(), AllocError>
    requires { count ≡ length units.now }
    ensures { OnOk result (first.new ≡ noted first.old (flat_map (λ p. missing_main p ++ missing_init p) (named_of (λ u. u ∷ []) units.now))) }
{
    if count == 0 {
        return Ok(());
    }
    let last = count - 1;
    let unit = &units[last as usize].unit;
    missing_main(last, unit, first)?;
    missing_init(last, unit, first)?;
    Ok(())
}

fn missing_main(number: u32, unit: &RawUnit, first: &mut First) -> Result<(), AllocError>
    ensures { OnOk result (first.new ≡ noted first.old (missing_main (number, unit.now))) }
{
    match &unit.main {
        Some(_) => Ok(()),
        None => first.note(ModelFault::NoMain, number, unit.name.at, &unit.name.text),
    }
}

fn missing_init(number: u32, unit: &RawUnit, first: &mut First) -> Result<(), AllocError>
    ensures { OnOk result (first.new ≡ noted first.old (missing_init (number, unit.now))) }
{
    match &unit.init {
        Some(_) => Ok(()),
        None => first.note(ModelFault::NoInit, number, unit.name.at, &unit.name.text),
    }
}
