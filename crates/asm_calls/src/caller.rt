//! What calls functions or rules, as it stands in the files.

ghost use Rattle.std.specs.Prelude.{◌≡◌, [], ◌∷◌, ◌++◌, map, codes, IfOk, OnOk};
ghost use Rattle.std.specs.List.{list_any};
ghost use Rattle.asm_node.specs.Machine as machine;
ghost use Rattle.asm_sign.specs.Kind as kinds;
ghost use Rattle.asm_calls.specs.Callers.{reader, function_caller, invariant_caller, rule_caller_at};

use crate::called::{called, called_rules};
use crate::read::Read;
use asm_faults::Known;
use asm_list::{Listed, Name};
use asm_sign::FunKind;
use asm_tree::rule::RawRule;
use asm_tree::term::RawName;
use asm_tree::unit::{RawFunction, RawInvariant};
use name_table::Table;
use std::alloc::{AllocError, Global};

/// What a definition, an initial value, an invariant or a rule calls. It is told by the token at which its faults are.
#[derive(Drop)]
pub struct Caller {
    pub unit: u32,
    pub at: u32,
    pub name: Name,
    /// The numbers of the functions that a term reads, or of the rules that a rule calls.
    pub calls: Listed<u32>,
    /// Whether a term reads a dynamic function itself.
    pub dynamic: bool,
    /// Whether a term reads a monitored function itself.
    pub monitored: bool,
}

/// Adds a definition or an initial value, with the functions that it reads.
pub fn add_function(
    alloc: Global,
    known: &Known,
    unit: u32,
    function: &RawFunction,
    callers: &mut Listed<Caller>,
) -> Result<(), AllocError>
    ensures { OnOk result (callers.new ≡ callers.old ++ function_caller known.now (unit, function.now) ∷ []) }
{
    let mut reads = Listed::new(alloc);
    called(known, &function.term, &mut reads)?;
    let name = Name::of(alloc, function.name.text.text())?;
    let caller = reader(alloc, unit, function.name.at, name, reads.slice())?;
    callers.push(caller)?;
    Ok(())
}

/// Adds an invariant, with the functions that it reads.
pub fn add_invariant(
    alloc: Global,
    known: &Known,
    unit: u32,
    invariant: &RawInvariant,
    callers: &mut Listed<Caller>,
) -> Result<(), AllocError>
    ensures { OnOk result (callers.new ≡ callers.old ++ invariant_caller known.now (unit, invariant.now) ∷ []) }
{
    let mut reads = Listed::new(alloc);
    called(known, &invariant.term, &mut reads)?;
    let name = invariant_word(alloc)?;
    let caller = reader(alloc, unit, invariant.at, name, reads.slice())?;
    callers.push(caller)?;
    Ok(())
}

fn invariant_word(alloc: Global) -> Result<Name, AllocError>
    ensures { IfOk result (λ name. name ≡ codes "invariant") }
{
    let name = Name::of(alloc, "invariant")?;
    Ok(name)
}

/// What a term with these reads calls.
fn reader(
    alloc: Global,
    unit: u32,
    at: u32,
    name: Name,
    reads: &[Read],
) -> Result<Caller, AllocError>
    ensures { IfOk result (λ caller. caller ≡ reader unit at name reads.now) }
{
    let calls = numbers(alloc, reads)?;
    let dynamic = reads_dynamic(reads);
    let monitored = reads_monitored(reads);
    Ok(Caller {
        unit,
        at,
        name,
        calls,
        dynamic,
        monitored,
    })
}

fn numbers(alloc: Global, reads: &[Read]) -> Result<Listed<u32>, AllocError>
    ensures { IfOk result (λ numbers. numbers ≡ map (λ r. r.number) reads.now) }
{
    let mut numbers = Listed::new(alloc);
    'reads: for read in reads {
        numbers.push(read.number)?;
    }
    Ok(numbers)
}

fn reads_dynamic(reads: &[Read]) -> bool
    ensures { result ≡ list_any (λ r. kinds.is_dynamic r.kind) reads.now }
{
    reads.iter().any(|read| read.kind.is_dynamic())
}

fn reads_monitored(reads: &[Read]) -> bool
    ensures { result ≡ list_any (λ r. machine.is_monitored r.kind) reads.now }
{
    reads.iter().any(|read| is_monitored(read.kind))
}

fn is_monitored(kind: FunKind) -> bool
    ensures { result ≡ machine.is_monitored kind }
{
    match kind {
        FunKind::Monitored => true,
        FunKind::Static => false,
        FunKind::Derived => false,
        FunKind::Controlled => false,
        FunKind::Out => false,
        FunKind::Shared => false,
    }
}

/// Adds a rule, with those of these rules that it calls.
pub fn add_rule(
    alloc: Global,
    rules: &Table,
    unit: u32,
    name: &RawName,
    body: &RawRule,
    callers: &mut Listed<Caller>,
) -> Result<(), AllocError>
    ensures { OnOk result (callers.new ≡ callers.old ++ rule_caller_at rules.now unit name.now body.now ∷ []) }
{
    let mut calls = Listed::new(alloc);
    called_rules(rules, body, &mut calls)?;
    let at = name.at;
    let name = Name::of(alloc, name.text.text())?;
    callers.push(Caller {
        unit,
        at,
        name,
        calls,
        dynamic: false,
        monitored: false,
    })?;
    Ok(())
}

/// The names of callers, in their order.
pub fn names_of(alloc: Global, callers: &[Caller]) -> Result<Table, AllocError>
    ensures { IfOk result (λ table. table ≡ map (λ c. c.name) callers.now) }
{
    let mut table = Table::new(alloc);
    'callers: for caller in callers {
        table.add(&caller.name)?;
    }
    Ok(table)
}
