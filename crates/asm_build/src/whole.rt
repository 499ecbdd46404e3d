//! A whole model from its files.
ghost use Rattle.std.specs.Prelude.{◌≡◌, ℕ, List, [], ◌∷◌, map, IfOk, OnOk};
ghost use Rattle.asm_node.specs.Parts.{AreNodes};
ghost use Rattle.asm_tree.specs.declared.unit.LoadedUnit.{LoadedUnit};
ghost use Rattle.asm_faults.specs.Files.{main_in, named_of, to_list};
ghost use Rattle.asm_faults.specs.Files as files;
ghost use Rattle.asm_faults.specs.Model as model;
ghost use Rattle.asm_build.specs.MadeRules.{rule_names, IsRule};
ghost use Rattle.asm_build.specs.Added.{AddsDefinitions, AddsMacros, IsMain, file_at};
ghost use Rattle.asm_build.specs.Assembled.{IsMachineOf};

use crate::gather::{add_functions, all_definitions, all_invariants, all_macros, push_macro};
use crate::machine::Parts;
use crate::maker::Maker;
use crate::rule_nodes::{no_rule, rule};
use crate::rule_table::{table_of, unit_at};
use asm_faults::Known;
use asm_list::Listed;
use asm_node::{Definitions, InitialTerms, Rule, Rules, Terms};
use asm_tree::unit::{LoadedUnit, RawMain, Units};
use name_table::Table;
use std::alloc::{AllocError, Global};
use std::rc::Rc;

/// The parts of the model that files are. A name that stands for nothing gets the number 0.
///
/// There are numbers for 4,294,967,295 rules and as many variables.
pub fn parts(alloc: Global, units: &Units, known: &Known) -> Result<Parts, AllocError>
    ensures nodes { IfOk result (λ p. AreNodes p.pool p.main p.invariants p.initial_terms p.definitions p.rules) }
    ensures machine { IfOk result (λ p. IsMachineOf known.now units.now p) }
{
    let files = units.slice();
    let names = table_of(alloc, files)?;
    let mut maker = Maker::new(alloc);
    let mut definitions = Definitions::new(alloc);
    all_definitions(&mut maker, known, files, &mut definitions)?;
    let mut initial_terms = InitialTerms::new(alloc);
    all_initials(&mut maker, known, files, &mut initial_terms)?;
    let mut invariants = Terms::new(alloc);
    all_invariants(&mut maker, known, files, &mut invariants)?;
    let mut rules = Rules::new(alloc);
    all_macros(&mut maker, known, &names, files, &mut rules)?;
    let main = main_rule(&mut maker, known, &names, files, &mut rules)?;
    Ok(Parts {
        pool: maker.into_pool(),
        main,
        invariants,
        initial_terms,
        definitions,
        rules,
    })
}

/// Adds the terms of the initial values, which belong to the model in the last file alone.
fn all_initials(
    maker: &mut Maker,
    known: &Known,
    units: &[LoadedUnit],
    initial_terms: &mut InitialTerms,
) -> Result<(), AllocError>
    ensures { OnOk result (AddsDefinitions maker.old maker.new (λ number. map (model.definition_of number known.now units.now) (files.initials units.now)) initial_terms.old initial_terms.new) }
{
    if units.is_empty() {
        return Ok(());
    }
    let last = units.len() - 1;
    let unit = unit_at(units, last);
    match &unit.unit.init {
        Some(init) => Ok(add_functions(maker, known, init.functions.slice(), initial_terms)?),
        None => Ok(()),
    }
}

/// The main rule, which is also the last of the rules. Files without one do nothing.
fn main_rule(
    maker: &mut Maker,
    known: &Known,
    names: &Table,
    units: &[LoadedUnit],
    rules: &mut Rules,
) -> Result<Rc<Rule>, AllocError>
    requires { names.now ≡ rule_names units.now }
    ensures main { IfOk result (λ r. IsMain maker.new known.now units.now r.value) }
    ensures added { IfOk result (λ r. AddsMacros maker.old maker.new (λ number. map (model.macro_of number known.now units.now) (map main_in (named_of (λ u. to_list u.main) units.now))) rules.old rules.new) }
{
    if units.is_empty() {
        return Ok(no_rule(maker)?);
    }
    let last = units.len() - 1;
    let unit = unit_at(units, last);
    match &unit.unit.main {
        Some(main) => Ok(add_main(maker, known, names, unit.file, main, rules)?),
        None => Ok(no_rule(maker)?),
    }
}

fn add_main(
    maker: &mut Maker,
    known: &Known,
    names: &Table,
    file: u32,
    raw: &RawMain,
    rules: &mut Rules,
) -> Result<Rc<Rule>, AllocError>
    ensures made { IfOk result (λ r. IsRule maker.new names.now (λ number units. model.rule_of number known.now units file raw.now.rule) r.value) }
    ensures added { (units : List LoadedUnit) (n : ℕ) → names.now ≡ rule_names units → file ≡ file_at units n → IfOk result (λ r. AddsMacros maker.old maker.new (λ number. model.macro_of number known.now units (main_in (n, raw.now)) ∷ []) rules.old rules.new) }
{
    let body = rule(maker, known, names, file, &raw.rule)?;
    let copy = body.clone()?;
    let parameters = Listed::new(maker.alloc());
    push_macro(maker.alloc(), rules, &raw.name, parameters, copy)?;
    Ok(body)
}
