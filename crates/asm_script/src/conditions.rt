//! Conditions: what is wrong with one, and its node.
ghost use Rattle.std.specs.Prelude.{◌≡◌, [], None, Some, IfOk, OnOk, IfErr};
ghost use Rattle.asm_node.specs.declared.term_type.TermType.TheVariants.{Boolean};
ghost use Rattle.asm_node.specs.Tree.{plain};
ghost use Rattle.asm_faults.specs.First.{noted};
ghost use Rattle.asm_faults.specs.Ranges.{measured};
ghost use Rattle.asm_faults.specs.Terms as terms;
ghost use Rattle.asm_faults.specs.Terms.{judged};
ghost use Rattle.asm_script.specs.Script.{IsConditionOf, Tells, condition_fault};

use crate::telling::settle;
use asm_build::{Maker, term as make_term};
use asm_faults::{First, Known, ModelError};
use asm_node::{Term, TermType};
use asm_ranges::{Intervals, Scope as Spreads, term as bounding};
use asm_tree::term::RawTerm;
use asm_typing::{Scope, term as typing};
use std::alloc::{AllocError, Global};
use std::rc::Rc;

/// The node of a condition, or what is wrong with it first.
pub fn condition_of(
    alloc: Global,
    known: &Known,
    intervals: &Intervals,
    raw: &RawTerm,
    file: u32,
) -> Result<Rc<Term>, ModelError>
    requires { intervals.now ≡ known.now }
    ensures faultless { IfOk result (λ t. condition_fault known.now raw.now ≡ None) }
    ensures term { IfOk result (λ t. IsConditionOf known.now raw.now (plain t.value)) }
    ensures fault { IfErr result (Tells file (condition_fault known.now raw.now)) }
{
    check_condition(alloc, known, intervals, raw, file)?;
    let node = condition_node(alloc, known, raw)?;
    Ok(node)
}

/// Refuses a condition with which something is wrong.
fn check_condition(
    alloc: Global,
    known: &Known,
    intervals: &Intervals,
    raw: &RawTerm,
    file: u32,
) -> Result<(), ModelError>
    requires { intervals.now ≡ known.now }
    ensures ok { OnOk result (condition_fault known.now raw.now ≡ None) }
    ensures err { IfErr result (Tells file (condition_fault known.now raw.now)) }
{
    let mut first = First::new(alloc);
    note_condition(alloc, known, intervals, raw, &mut first)?;
    settle(file, first)
}

/// Notes what is wrong first with a condition.
fn note_condition(
    alloc: Global,
    known: &Known,
    intervals: &Intervals,
    raw: &RawTerm,
    first: &mut First,
) -> Result<(), AllocError>
    requires same { intervals.now ≡ known.now }
    requires none { first.old ≡ None }
    ensures { OnOk result (first.new ≡ condition_fault known.now raw.now) }
{
    note_types(alloc, known, raw, first)?;
    if !first.is_none() {
        return Ok(());
    }
    note_intervals(alloc, intervals, raw, first)
}

/// Notes what is wrong with the names and the types of a condition.
fn note_types(
    alloc: Global,
    known: &Known,
    raw: &RawTerm,
    first: &mut First,
) -> Result<(), AllocError>
    ensures { OnOk result (first.new ≡ noted first.old (terms.asked known.now 0 (Some Boolean) [] (judged known.now 0 raw.now))) }
{
    let mut scope = Scope::new(alloc);
    typing::asked(known, 0, &mut scope, first, Some(TermType::Boolean), raw)?;
    Ok(())
}

/// Notes where an interval is refused in a condition.
fn note_intervals(
    alloc: Global,
    intervals: &Intervals,
    raw: &RawTerm,
    first: &mut First,
) -> Result<(), AllocError>
    ensures { OnOk result (first.new ≡ noted first.old ((measured intervals.now 0 raw.now).faults [])) }
{
    let mut scope = Spreads::new(alloc);
    bounding::term(intervals, 0, &mut scope, first, raw)?;
    Ok(())
}

/// The node of a condition, in a pool of its own.
fn condition_node(alloc: Global, known: &Known, raw: &RawTerm) -> Result<Rc<Term>, AllocError>
    ensures { IfOk result (λ t. IsConditionOf known.now raw.now (plain t.value)) }
{
    let mut maker = Maker::new(alloc);
    let node = make_term(&mut maker, known, raw)?;
    Ok(node)
}
