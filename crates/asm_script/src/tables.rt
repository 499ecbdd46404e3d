//! The tables of the rules of a model.
ghost use Rattle.std.specs.Prelude.{◌≡◌, ◌∷◌, ◌++◌, [], map, IfOk};
ghost use Rattle.asm_node.specs.declared.definition.MacroRule.{MacroRule};
ghost use Rattle.asm_node.specs.declared.term.Binder.{Binder};
ghost use Rattle.asm_node.specs.Parts.{macro_by};
ghost use Rattle.asm_node.specs.Types.{domain_type};
ghost use Rattle.asm_script.specs.Script.{head_of};

use asm_faults::Known;
use asm_list::Listed;
use asm_node::{Binder, MacroRule};
use asm_ranges::Intervals;
use asm_sign::Signature;
use asm_typing::{Heads, Types};
use name_table::Table;
use std::alloc::{AllocError, Global};

/// What names stand for.
#[derive(Drop)]
pub struct Words<'m> {
    pub known: Known<'m>,
    /// The same with the intervals of domains.
    pub intervals: Intervals<'m>,
}

/// The rules that may be called.
#[derive(Drop)]
pub struct Callees {
    pub heads: Heads,
    /// Their names, each at the rule's number.
    pub names: Table,
}

/// What the names of a signature stand for.
pub fn words_of<'m>(alloc: Global, signature: &'m Signature) -> Result<Words<'m>, AllocError>
    ensures known { IfOk result (λ words. words.known ≡ signature.now) }
    ensures intervals { IfOk result (λ words. words.intervals ≡ signature.now) }
{
    let known = Known::new(alloc, signature)?;
    let intervals = Intervals::new(alloc, signature)?;
    Ok(Words { known, intervals })
}

/// Rules that may be called.
pub fn callees_of(alloc: Global, known: &Known, rules: &[MacroRule]) -> Result<Callees, AllocError>
    ensures heads { IfOk result (λ callees. callees.heads ≡ map (λ (r : MacroRule). head_of known.now (macro_by r)) rules.now) }
    ensures names { IfOk result (λ callees. callees.names ≡ map (λ (r : MacroRule). r.name) rules.now) }
{
    let heads = heads_of(known, rules)?;
    let names = names_of(alloc, rules)?;
    Ok(Callees { heads, names })
}

/// Rules as others call them, in their order.
fn heads_of(known: &Known, rules: &[MacroRule]) -> Result<Heads, AllocError>
    ensures { IfOk result (λ heads. heads ≡ map (λ (r : MacroRule). head_of known.now (macro_by r)) rules.now) }
{
    let mut heads = Heads::new(known.alloc());
    'rules: for rule in rules {
        heads = add_head(known, heads, rule)?;
    }
    Ok(heads)
}

/// Adds a rule as others call it.
fn add_head(known: &Known, heads: Heads, rule: &MacroRule) -> Result<Heads, AllocError>
    ensures { IfOk result (λ all. all ≡ heads ++ head_of known.now (macro_by rule.now) ∷ []) }
{
    let types = types_of(known, rule.parameters.slice())?;
    let all = heads.add(&rule.name, types)?;
    Ok(all)
}

/// The types of parameters, in their order.
fn types_of(known: &Known, parameters: &[Binder]) -> Result<Types, AllocError>
    ensures { IfOk result (λ types. types ≡ map (λ (b : Binder). domain_type known.now.domains b.domain) parameters.now) }
{
    let mut types = Listed::new(known.alloc());
    'parameters: for parameter in parameters {
        types.push(known.domain_type(parameter.domain))?;
    }
    Ok(types)
}

/// The names of rules.
fn names_of(alloc: Global, rules: &[MacroRule]) -> Result<Table, AllocError>
    ensures { IfOk result (λ names. names ≡ map (λ (r : MacroRule). r.name) rules.now) }
{
    let mut names = Table::new(alloc);
    'rules: for rule in rules {
        names.add(&rule.name)?;
    }
    Ok(names)
}
