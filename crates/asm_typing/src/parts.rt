//! Definitions, rules and invariants of all files.

ghost use Rattle.std.specs.Prelude.{◌≡◌, [], ◌∷◌, if◌then◌else◌, length, OnOk};
ghost use Rattle.std.specs.List.{flat_map};
ghost use Rattle.asm_tree.specs.declared.term.RawName.{RawName};
ghost use Rattle.asm_tree.specs.declared.unit.RawDefinition.{RawDefinition};
ghost use Rattle.asm_faults.specs.declared.fault.ModelFault.TheVariants.{Unknown};
ghost use Rattle.asm_faults.specs.At.{fault_at};
ghost use Rattle.asm_faults.specs.First.{noted};
ghost use Rattle.asm_faults.specs.DomainFaults.{is_listed};
ghost use Rattle.asm_faults.specs.Bodies.{invariant_faults};
ghost use Rattle.asm_typing.specs.BodyPieces.{part_faults, over_definitions, macro_body_faults};

use crate::binders::{binder_faults, within};
use crate::functions::function_body;
use crate::given::Given;
use crate::heads::Heads;
use crate::note::{is_listed, note_unless};
use crate::rule::rule;
use crate::scope::Scope;
use crate::term::asked;
use asm_faults::{First, Known, ModelFault};
use asm_node::TermType;
use asm_sign::Domains;
use asm_tree::rule::RawRule;
use asm_tree::term::{RawBinder, RawName};
use asm_tree::unit::{LoadedUnit, RawDefinition, RawInvariant};
use name_table::Table;
use std::alloc::AllocError;

/// Which definitions of a file are looked at.
#[derive(Clone, Copy, Debug, PartialEq, Eq)]
pub enum Part {
    Functions,
    Rules,
    Invariants,
}

/// Notes what is wrong with definitions of all files.
pub fn parts(
    part: Part,
    domains: &Domains,
    known: &Known,
    heads: &Heads,
    names: &Table,
    units: &[LoadedUnit],
    count: u32,
    first: &mut First,
) -> Result<(), AllocError>
    requires domains { domains.now ≡ known.now.domains }
    requires count { count ≡ length units.now }
    ensures { OnOk result (first.new ≡ noted first.old (over_definitions (part_faults part known.now heads.now names.now) units.now)) }
{
    'units: for number in 0..count {
        let unit = &units[number as usize].unit;
        unit_parts(
            part,
            domains,
            known,
            heads,
            names,
            number,
            first,
            unit.definitions.slice(),
        )?;
    }
    Ok(())
}

fn unit_parts(
    part: Part,
    domains: &Domains,
    known: &Known,
    heads: &Heads,
    names: &Table,
    unit: u32,
    first: &mut First,
    items: &[RawDefinition],
) -> Result<(), AllocError>
    requires { domains.now ≡ known.now.domains }
    ensures { OnOk result (first.new ≡ noted first.old (flat_map (λ (d : RawDefinition). part_faults part known.now heads.now names.now (unit, d)) items.now)) }
{
    'items: for item in items {
        definition(part, domains, known, heads, names, unit, first, item)?;
    }
    Ok(())
}

fn definition(
    part: Part,
    domains: &Domains,
    known: &Known,
    heads: &Heads,
    names: &Table,
    unit: u32,
    first: &mut First,
    item: &RawDefinition,
) -> Result<(), AllocError>
    requires { domains.now ≡ known.now.domains }
    ensures { OnOk result (first.new ≡ noted first.old (part_faults part known.now heads.now names.now (unit, item.now))) }
{
    match part {
        Part::Functions => function_part(domains, known, heads, names, unit, first, item),
        Part::Rules => rule_part(known, heads, names, unit, first, item),
        Part::Invariants => invariant_part(known, heads, names, unit, first, item),
    }
}

fn function_part(
    domains: &Domains,
    known: &Known,
    heads: &Heads,
    names: &Table,
    unit: u32,
    first: &mut First,
    item: &RawDefinition,
) -> Result<(), AllocError>
    requires { domains.now ≡ known.now.domains }
    ensures { OnOk result (first.new ≡ noted first.old (part_faults Part.Functions known.now heads.now names.now (unit, item.now))) }
{
    match item {
        RawDefinition::Function(function) => {
            function_body(domains, known, Given::Definition, unit, first, function)?;
            Ok(())
        }
        RawDefinition::Range(_, _, _) => Ok(()),
        RawDefinition::List(_, _) => Ok(()),
        RawDefinition::Rule(_, _, _) => Ok(()),
        RawDefinition::Invariant(_) => Ok(()),
    }
}

fn rule_part(
    known: &Known,
    heads: &Heads,
    names: &Table,
    unit: u32,
    first: &mut First,
    item: &RawDefinition,
) -> Result<(), AllocError>
    ensures { OnOk result (first.new ≡ noted first.old (part_faults Part.Rules known.now heads.now names.now (unit, item.now))) }
{
    match item {
        RawDefinition::Rule(_, parameters, body) => {
            macro_body(known, heads, unit, first, parameters.slice(), body)?;
            Ok(())
        }
        RawDefinition::Range(_, _, _) => Ok(()),
        RawDefinition::List(_, _) => Ok(()),
        RawDefinition::Function(_) => Ok(()),
        RawDefinition::Invariant(_) => Ok(()),
    }
}

fn invariant_part(
    known: &Known,
    heads: &Heads,
    names: &Table,
    unit: u32,
    first: &mut First,
    item: &RawDefinition,
) -> Result<(), AllocError>
    ensures { OnOk result (first.new ≡ noted first.old (part_faults Part.Invariants known.now heads.now names.now (unit, item.now))) }
{
    match item {
        RawDefinition::Invariant(stated) => {
            invariant(known, names, unit, first, stated)?;
            Ok(())
        }
        RawDefinition::Range(_, _, _) => Ok(()),
        RawDefinition::List(_, _) => Ok(()),
        RawDefinition::Function(_) => Ok(()),
        RawDefinition::Rule(_, _, _) => Ok(()),
    }
}

/// Notes what is wrong with the body of a rule that has these parameters.
pub fn macro_body(
    known: &Known,
    heads: &Heads,
    unit: u32,
    first: &mut First,
    parameters: &[RawBinder],
    body: &RawRule,
) -> Result<(), AllocError>
    ensures { OnOk result (first.new ≡ noted first.old (macro_body_faults known.now heads.now unit parameters.now body.now)) }
{
    binder_faults(known, unit, first, parameters)?;
    let mut scope = Scope::new(known.alloc());
    within(known, &mut scope, parameters)?;
    rule(known, heads, unit, &mut scope, first, body)?;
    Ok(())
}

fn invariant(
    known: &Known,
    names: &Table,
    unit: u32,
    first: &mut First,
    item: &RawInvariant,
) -> Result<(), AllocError>
    ensures { OnOk result (first.new ≡ noted first.old (invariant_faults known.now names.now (unit, item.now))) }
{
    undeclared(names, unit, first, item.over.slice())?;
    let mut scope = Scope::new(known.alloc());
    asked(
        known,
        unit,
        &mut scope,
        first,
        Some(TermType::Boolean),
        &item.term,
    )?;
    Ok(())
}

/// Notes names that aren't declared.
#[tactic(auto, using(crate::proofs::Steps::each_step))]
fn undeclared(
    names: &Table,
    unit: u32,
    first: &mut First,
    items: &[RawName],
) -> Result<(), AllocError>
    ensures { OnOk result (first.new ≡ noted first.old (flat_map (λ (name : RawName). if is_listed names.now name.text then [] else fault_at Unknown unit name ∷ []) items.now)) }
{
    'items: for item in items {
        note_unless(
            is_listed(names, &item.text),
            first,
            ModelFault::Unknown,
            unit,
            item.at,
            &item.text,
        )?;
    }
    Ok(())
}
