//! Rules: what is wrong with one, and its node.
ghost use Rattle.std.specs.Prelude.{◌≡◌, [], None, IfOk, OnOk, IfErr};
ghost use Rattle.asm_node.specs.Machine.{Machine};
ghost use Rattle.asm_node.specs.RuleTree.{plain_rule};
ghost use Rattle.asm_faults.specs.Bodies as bodies;
ghost use Rattle.asm_faults.specs.First.{noted};
ghost use Rattle.asm_faults.specs.Ranges as ranges;
ghost use Rattle.asm_script.specs.Script.{IsRuleOf, Tells, rule_names};
ghost use Rattle.asm_script.specs.Tables.{fault_among};

use crate::telling::settle;
use asm_build::{Maker, rule as make_rule};
use asm_faults::{First, Known, ModelError};
use asm_node::Rule;
use asm_ranges::{Intervals, Scope as Spreads, rule as bounding};
use asm_tree::rule::RawRule;
use asm_typing::{Heads, Scope, rule as typing};
use name_table::Table;
use std::alloc::{AllocError, Global};
use std::rc::Rc;

/// The node of a rule that may call rules of these heads and names, or what is wrong with it first.
pub fn rule_of(
    alloc: Global,
    known: &Known,
    intervals: &Intervals,
    heads: &Heads,
    names: &Table,
    raw: &RawRule,
    file: u32,
) -> Result<Rc<Rule>, ModelError>
    requires { intervals.now ≡ known.now }
    ensures faultless { IfOk result (λ r. fault_among known.now heads.now raw.now ≡ None) }
    ensures rule { (m : Machine) → known.now ≡ m.signature → names.now ≡ rule_names m → IfOk result (λ r. IsRuleOf m file raw.now (plain_rule r.value)) }
    ensures fault { IfErr result (Tells file (fault_among known.now heads.now raw.now)) }
{
    check_rule(alloc, known, intervals, heads, raw, file)?;
    let node = rule_node(alloc, known, names, raw, file)?;
    Ok(node)
}

/// Refuses a rule with which something is wrong.
fn check_rule(
    alloc: Global,
    known: &Known,
    intervals: &Intervals,
    heads: &Heads,
    raw: &RawRule,
    file: u32,
) -> Result<(), ModelError>
    requires { intervals.now ≡ known.now }
    ensures ok { OnOk result (fault_among known.now heads.now raw.now ≡ None) }
    ensures err { IfErr result (Tells file (fault_among known.now heads.now raw.now)) }
{
    let mut first = First::new(alloc);
    note_rule(alloc, known, intervals, heads, raw, &mut first)?;
    settle(file, first)
}

/// Notes what is wrong first with a rule.
fn note_rule(
    alloc: Global,
    known: &Known,
    intervals: &Intervals,
    heads: &Heads,
    raw: &RawRule,
    first: &mut First,
) -> Result<(), AllocError>
    requires same { intervals.now ≡ known.now }
    requires none { first.old ≡ None }
    ensures { OnOk result (first.new ≡ fault_among known.now heads.now raw.now) }
{
    note_types(alloc, known, heads, raw, first)?;
    if !first.is_none() {
        return Ok(());
    }
    note_intervals(alloc, intervals, raw, first)
}

/// Notes what is wrong with the names and the types of a rule.
fn note_types(
    alloc: Global,
    known: &Known,
    heads: &Heads,
    raw: &RawRule,
    first: &mut First,
) -> Result<(), AllocError>
    ensures { OnOk result (first.new ≡ noted first.old (bodies.rule_faults known.now heads.now 0 raw.now [])) }
{
    let mut scope = Scope::new(alloc);
    typing::rule(known, heads, 0, &mut scope, first, raw)?;
    Ok(())
}

/// Notes where an interval is refused in a rule.
fn note_intervals(
    alloc: Global,
    intervals: &Intervals,
    raw: &RawRule,
    first: &mut First,
) -> Result<(), AllocError>
    ensures { OnOk result (first.new ≡ noted first.old (ranges.rule_faults intervals.now 0 raw.now [])) }
{
    let mut scope = Spreads::new(alloc);
    bounding::rule(intervals, 0, &mut scope, first, raw)?;
    Ok(())
}

/// The node of a rule, in a pool of its own.
fn rule_node(
    alloc: Global,
    known: &Known,
    names: &Table,
    raw: &RawRule,
    file: u32,
) -> Result<Rc<Rule>, AllocError>
    ensures { (m : Machine) → known.now ≡ m.signature → names.now ≡ rule_names m → IfOk result (λ r. IsRuleOf m file raw.now (plain_rule r.value)) }
{
    let mut maker = Maker::new(alloc);
    let node = make_rule(&mut maker, known, names, file, raw)?;
    Ok(node)
}
