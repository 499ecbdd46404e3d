//! Terms that are given for functions.

ghost use Rattle.std.specs.Prelude.{◌≡◌, ◌++◌, [], map, slice_get, Some, OnOk};
ghost use Rattle.std.specs.List.{flat_map};
ghost use Rattle.asm_tree.specs.declared.unit.RawFunction.{RawFunction};
ghost use Rattle.asm_faults.specs.First.{noted};
ghost use Rattle.asm_faults.specs.Files.{Of};
ghost use Rattle.asm_faults.specs.DomainFaults.{repeats};
ghost use Rattle.asm_faults.specs.Terms as terms;
ghost use Rattle.asm_faults.specs.Terms.{judged, function_named};
ghost use Rattle.asm_faults.specs.Bodies.{functions_faults, function_body_faults, parameter_faults};
ghost use Rattle.asm_typing.specs.Given.{may_be};
ghost use Rattle.asm_typing.specs.BodyPieces.{parameter_at_faults, functions_of, body_in};

use crate::binders::{binder_faults, within};
use crate::given::{Given, may_be};
use crate::note::{arity, note_unless, see};
use crate::scope::Scope;
use crate::term::asked;
use asm_faults::{First, Known, ModelFault};
use asm_node::TermType;
use asm_sign::{Domains, Function};
use asm_tree::term::RawBinder;
use asm_tree::unit::RawFunction;
use name_table::Table;
use std::alloc::AllocError;

/// Notes functions that are given a second term, and what is wrong with each term.
pub fn given_functions(
    domains: &Domains,
    known: &Known,
    given: Given,
    unit: u32,
    first: &mut First,
    items: &[RawFunction],
) -> Result<(), AllocError>
    requires { domains.now ≡ known.now.domains }
    ensures { OnOk result (first.new ≡ noted first.old (functions_faults known.now (may_be given) (functions_of unit items.now))) }
{
    repeated(known, unit, first, items)?;
    each_function(domains, known, given, unit, first, items)?;
    Ok(())
}

/// Notes functions that are given a second term.
fn repeated(
    known: &Known,
    unit: u32,
    first: &mut First,
    items: &[RawFunction],
) -> Result<(), AllocError>
    ensures { OnOk result (first.new ≡ noted first.old (repeats [] (map (λ (f : RawFunction). (unit, f.name)) items.now))) }
{
    let mut seen = Table::new(known.alloc());
    'items: for item in items {
        see(first, unit, &mut seen, &item.name)?;
    }
    Ok(())
}

fn each_function(
    domains: &Domains,
    known: &Known,
    given: Given,
    unit: u32,
    first: &mut First,
    items: &[RawFunction],
) -> Result<(), AllocError>
    requires { domains.now ≡ known.now.domains }
    ensures { OnOk result (first.new ≡ noted first.old (flat_map (body_in known.now given unit) items.now)) }
{
    'items: for item in items {
        function_body(domains, known, given, unit, first, item)?;
    }
    Ok(())
}

/// Notes what is wrong with a term that is given for a function.
pub fn function_body(
    domains: &Domains,
    known: &Known,
    given: Given,
    unit: u32,
    first: &mut First,
    item: &RawFunction,
) -> Result<(), AllocError>
    requires { domains.now ≡ known.now.domains }
    ensures { OnOk result (first.new ≡ noted first.old (body_in known.now given unit item.now)) }
{
    match known.function(&item.name.text) {
        Some(function) => {
            body_of(domains, known, given, unit, first, function, item)?;
            Ok(())
        }
        None => first.note(ModelFault::Unknown, unit, item.name.at, &item.name.text),
    }
}

/// Notes what is wrong with a term that is given for a declared function.
fn body_of(
    domains: &Domains,
    known: &Known,
    given: Given,
    unit: u32,
    first: &mut First,
    function: &Function,
    item: &RawFunction,
) -> Result<(), AllocError>
    requires { domains.now ≡ known.now.domains }
    ensures { OnOk result (first.new ≡ noted first.old (function_body_faults known.now (may_be given) (unit, item.now) (Some function.now))) }
{
    let name = &item.name;
    let items = item.parameters.slice();
    let may = may_be(given, domains, function);
    note_unless(may, first, ModelFault::WrongKind, unit, name.at, &name.text)?;
    arity(
        first,
        unit,
        name.at,
        &name.text,
        function.domains.len(),
        items.len(),
    )?;
    binder_faults(known, unit, first, items)?;
    parameters(known, unit, first, items, function.domains.slice())?;
    given_term(
        known,
        unit,
        first,
        known.domain_type(function.codomain),
        item,
    )?;
    Ok(())
}

/// Notes parameters whose domains aren't the declared ones.
fn parameters(
    known: &Known,
    unit: u32,
    first: &mut First,
    items: &[RawBinder],
    numbers: &[u32],
) -> Result<(), AllocError>
    ensures { OnOk result (first.new ≡ noted first.old (parameter_faults known.now.domains unit items.now numbers.now)) }
{
    'items: for (index, item) in items.iter().enumerate() {
        parameter(known, unit, first, item, number_at(numbers, index))?;
    }
    Ok(())
}

fn number_at(numbers: &[u32], place: usize) -> Option<u32>
    ensures { result ≡ slice_get numbers.now place }
{
    match numbers.get(place) {
        Some(number) => Some(*number),
        None => None,
    }
}

/// Notes a parameter whose domain isn't the one of a number.
fn parameter(
    known: &Known,
    unit: u32,
    first: &mut First,
    item: &RawBinder,
    number: Option<u32>,
) -> Result<(), AllocError>
    ensures { OnOk result (first.new ≡ noted first.old (parameter_at_faults known.now.domains unit item.now number)) }
{
    match number {
        Some(number) => parameter_of(known, unit, first, item, number),
        None => Ok(()),
    }
}

fn parameter_of(
    known: &Known,
    unit: u32,
    first: &mut First,
    item: &RawBinder,
    number: u32,
) -> Result<(), AllocError>
    ensures { OnOk result (first.new ≡ noted first.old (parameter_at_faults known.now.domains unit item.now (Some number))) }
{
    match known.domain(&item.domain.text) {
        Some(own) => note_unless(
            own == number,
            first,
            ModelFault::WrongType,
            unit,
            item.domain.at,
            &item.domain.text,
        ),
        None => Ok(()),
    }
}

/// Notes what is wrong with the term itself, which is asked for a type.
fn given_term(
    known: &Known,
    unit: u32,
    first: &mut First,
    want: Option<TermType>,
    item: &RawFunction,
) -> Result<(), AllocError>
    ensures { OnOk result (first.new ≡ noted first.old (terms.asked known.now unit want (terms.within known.now unit item.now.parameters []) (judged known.now unit item.now.term))) }
{
    let mut scope = Scope::new(known.alloc());
    within(known, &mut scope, item.parameters.slice())?;
    asked(known, unit, &mut scope, first, want, &item.term)?;
    Ok(())
}
