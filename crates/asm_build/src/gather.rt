//! What files define, as parts of a model.
ghost use Rattle.std.specs.Prelude.{◌≡◌, ℕ, [], ◌∷◌, ◌++◌, List, map, IfOk, OnOk};
ghost use Rattle.std.specs.List.{flat_map};
ghost use Rattle.asm_tree.specs.declared.term.RawBinder.{RawBinder};
ghost use Rattle.asm_tree.specs.declared.unit.LoadedUnit.{LoadedUnit};
ghost use Rattle.asm_tree.specs.declared.unit.RawInvariant.{RawInvariant};
ghost use Rattle.asm_faults.specs.Files.{Of, definition_in, invariant_in, rule_in, all_of, to_list};
ghost use Rattle.asm_faults.specs.Files as files;
ghost use Rattle.asm_faults.specs.Model as model;
ghost use Rattle.asm_build.specs.Made.{HasGrown, AreNumbers};
ghost use Rattle.asm_build.specs.MadeRules.{rule_names};
ghost use Rattle.asm_build.specs.Added.{AddsDefinitions, AddsMacros, AddsTerms, file_at};

use crate::maker::Maker;
use crate::nodes::{binders_of, function_number, term};
use crate::rule_nodes::rule;
use asm_faults::Known;
use asm_list::{Listed, Name};
use asm_node::{Binder, Definition, Definitions, MacroRule, Rule, Rules, Terms};
use asm_tree::term::{RawBinder, RawName};
use asm_tree::unit::{LoadedUnit, RawDefinition, RawFunction};
use name_table::Table;
use std::alloc::{AllocError, Global};
use std::rc::Rc;

/// The numbers of the variables of parameters, in their order.
fn variables_of(maker: &mut Maker, raws: &[RawBinder]) -> Result<Listed<u32>, AllocError>
    ensures made { IfOk result (λ xs. AreNumbers maker.new (λ number. map (λ (b : RawBinder). number b.variable.text) raws.now) xs) }
    ensures grown { IfOk result (λ xs. HasGrown maker.old maker.new) }
{
    let mut variables = Listed::new(maker.alloc());
    'raws: for raw in raws {
        let variable = maker.variable(&raw.variable.text)?;
        variables.push(variable)?;
    }
    Ok(variables)
}

/// Adds what a function is at its parameters.
pub fn add_function(
    maker: &mut Maker,
    known: &Known,
    raw: &RawFunction,
    definitions: &mut Definitions,
) -> Result<(), AllocError>
    ensures { (units : List LoadedUnit) (n : ℕ) → OnOk result (AddsDefinitions maker.old maker.new (λ number. model.definition_of number known.now units (n, raw.now) ∷ []) definitions.old definitions.new) }
{
    let function = function_number(known, &raw.name.text);
    let variables = variables_of(maker, raw.parameters.slice())?;
    let body = term(maker, known, &raw.term)?;
    definitions.push(Definition {
        function,
        variables,
        term: body,
    })?;
    Ok(())
}

/// Adds the functions of a file, in their order.
pub fn add_functions(
    maker: &mut Maker,
    known: &Known,
    raws: &[RawFunction],
    definitions: &mut Definitions,
) -> Result<(), AllocError>
    ensures { (units : List LoadedUnit) (n : ℕ) → OnOk result (AddsDefinitions maker.old maker.new (λ number. map (λ f. model.definition_of number known.now units (n, f)) raws.now) definitions.old definitions.new) }
{
    'raws: for raw in raws {
        add_function(maker, known, raw, definitions)?;
    }
    Ok(())
}

fn add_definition(
    maker: &mut Maker,
    known: &Known,
    raw: &RawDefinition,
    definitions: &mut Definitions,
) -> Result<(), AllocError>
    ensures { (units : List LoadedUnit) (n : ℕ) → OnOk result (AddsDefinitions maker.old maker.new (λ number. map (model.definition_of number known.now units) (definition_in (n, raw.now))) definitions.old definitions.new) }
{
    match raw {
        RawDefinition::Function(function) => Ok(add_function(maker, known, function, definitions)?),
        RawDefinition::Range(_, _, _) => Ok(()),
        RawDefinition::List(_, _) => Ok(()),
        RawDefinition::Rule(_, _, _) => Ok(()),
        RawDefinition::Invariant(_) => Ok(()),
    }
}

fn add_definitions(
    maker: &mut Maker,
    known: &Known,
    raws: &[RawDefinition],
    definitions: &mut Definitions,
) -> Result<(), AllocError>
    ensures { (units : List LoadedUnit) (n : ℕ) → OnOk result (AddsDefinitions maker.old maker.new (λ number. map (model.definition_of number known.now units) (flat_map (λ d. definition_in (n, d)) raws.now)) definitions.old definitions.new) }
{
    'raws: for raw in raws {
        add_definition(maker, known, raw, definitions)?;
    }
    Ok(())
}

/// Adds the functions that files define, in load order.
pub fn all_definitions(
    maker: &mut Maker,
    known: &Known,
    units: &[LoadedUnit],
    definitions: &mut Definitions,
) -> Result<(), AllocError>
    ensures { OnOk result (AddsDefinitions maker.old maker.new (λ number. map (model.definition_of number known.now units.now) (files.definitions units.now)) definitions.old definitions.new) }
{
    'units: for unit in units {
        add_definitions(maker, known, unit.unit.definitions.slice(), definitions)?;
    }
    Ok(())
}

fn add_invariant(
    maker: &mut Maker,
    known: &Known,
    raw: &RawDefinition,
    invariants: &mut Terms,
) -> Result<(), AllocError>
    ensures { (n : ℕ) → OnOk result (AddsTerms maker.old maker.new (λ number. map (λ (p : Of RawInvariant). model.tree_of number known.now p.1.term) (invariant_in (n, raw.now))) invariants.old invariants.new) }
{
    match raw {
        RawDefinition::Invariant(invariant) => {
            let node = term(maker, known, &invariant.term)?;
            invariants.push(node)?;
            Ok(())
        }
        RawDefinition::Range(_, _, _) => Ok(()),
        RawDefinition::List(_, _) => Ok(()),
        RawDefinition::Function(_) => Ok(()),
        RawDefinition::Rule(_, _, _) => Ok(()),
    }
}

fn add_invariants(
    maker: &mut Maker,
    known: &Known,
    raws: &[RawDefinition],
    invariants: &mut Terms,
) -> Result<(), AllocError>
    ensures { (n : ℕ) → OnOk result (AddsTerms maker.old maker.new (λ number. map (λ (p : Of RawInvariant). model.tree_of number known.now p.1.term) (flat_map (λ d. invariant_in (n, d)) raws.now)) invariants.old invariants.new) }
{
    'raws: for raw in raws {
        add_invariant(maker, known, raw, invariants)?;
    }
    Ok(())
}

/// Adds the invariants of files, in load order.
pub fn all_invariants(
    maker: &mut Maker,
    known: &Known,
    units: &[LoadedUnit],
    invariants: &mut Terms,
) -> Result<(), AllocError>
    ensures { OnOk result (AddsTerms maker.old maker.new (λ number. map (λ (p : Of RawInvariant). model.tree_of number known.now p.1.term) (files.invariants units.now)) invariants.old invariants.new) }
{
    'units: for unit in units {
        add_invariants(maker, known, unit.unit.definitions.slice(), invariants)?;
    }
    Ok(())
}

/// Adds a macro rule, whose name is copied.
pub fn push_macro(
    alloc: Global,
    rules: &mut Rules,
    name: &RawName,
    parameters: Listed<Binder>,
    body: Rc<Rule>,
) -> Result<(), AllocError>
    ensures { OnOk result (rules.new ≡ rules.old ++ record { name = name.now.text; parameters = parameters; body = body } ∷ []) }
{
    let name = Name::of(alloc, name.text.text())?;
    rules.push(MacroRule {
        name,
        parameters,
        body,
    })?;
    Ok(())
}

fn add_macro(
    maker: &mut Maker,
    known: &Known,
    names: &Table,
    file: u32,
    raw: &RawDefinition,
    rules: &mut Rules,
) -> Result<(), AllocError>
    ensures { (units : List LoadedUnit) (n : ℕ) → names.now ≡ rule_names units → file ≡ file_at units n → OnOk result (AddsMacros maker.old maker.new (λ number. map (model.macro_of number known.now units) (rule_in (n, raw.now))) rules.old rules.new) }
{
    match raw {
        RawDefinition::Rule(name, parameters, body) => {
            let parameters = binders_of(maker, known, parameters.slice())?;
            let body = rule(maker, known, names, file, body)?;
            push_macro(maker.alloc(), rules, name, parameters, body)?;
            Ok(())
        }
        RawDefinition::Range(_, _, _) => Ok(()),
        RawDefinition::List(_, _) => Ok(()),
        RawDefinition::Function(_) => Ok(()),
        RawDefinition::Invariant(_) => Ok(()),
    }
}

fn add_macros(
    maker: &mut Maker,
    known: &Known,
    names: &Table,
    file: u32,
    raws: &[RawDefinition],
    rules: &mut Rules,
) -> Result<(), AllocError>
    ensures { (units : List LoadedUnit) (n : ℕ) → names.now ≡ rule_names units → file ≡ file_at units n → OnOk result (AddsMacros maker.old maker.new (λ number. map (model.macro_of number known.now units) (flat_map (λ d. rule_in (n, d)) raws.now)) rules.old rules.new) }
{
    'raws: for raw in raws {
        add_macro(maker, known, names, file, raw, rules)?;
    }
    Ok(())
}

/// Adds the rules that files define, in load order, without the main rule.
pub fn all_macros(
    maker: &mut Maker,
    known: &Known,
    names: &Table,
    units: &[LoadedUnit],
    rules: &mut Rules,
) -> Result<(), AllocError>
    requires { names.now ≡ rule_names units.now }
    ensures { OnOk result (AddsMacros maker.old maker.new (λ number. map (model.macro_of number known.now units.now) (flat_map rule_in (all_of (λ u. u.definitions) units.now))) rules.old rules.new) }
{
    'units: for unit in units {
        add_macros(
            maker,
            known,
            names,
            unit.file,
            unit.unit.definitions.slice(),
            rules,
        )?;
    }
    Ok(())
}
