//! Rules: where an interval is refused in their terms.

ghost use Rattle.std.specs.Prelude.{◌≡◌, ◌++◌, OnOk};
ghost use Rattle.asm_faults.specs.First.{noted};
ghost use Rattle.asm_faults.specs.Ranges as bounds;
ghost use Rattle.asm_faults.specs.Ranges.{rule_faults, term_faults, each, bound, within_let, bind_faults};
ghost use Rattle.asm_ranges.specs.Pieces.{terms_measured, rules_measured, rule_cases_measured, all_refused, cases_refused};

use crate::intervals::Intervals;
use crate::scope::Scope;
use crate::term::{binds, term, terms, within};
use asm_faults::First;
use asm_tree::rule::{RawRule, RawRuleCase, RawRuleKind};
use asm_tree::term::{RawBind, RawBinder, RawTerm};
use std::alloc::AllocError;

/// Notes where an interval is refused in a rule.
#[cycle(rule)]
pub fn rule(
    known: &Intervals,
    unit: u32,
    scope: &mut Scope,
    first: &mut First,
    item: &RawRule,
) -> Result<(), AllocError>
    ensures scope { OnOk result (scope.new ≡ scope.old) }
    ensures faults { OnOk result (first.new ≡ noted first.old (rule_faults known.now unit item.now scope.old)) }
{
    match &item.kind {
        RawRuleKind::Skip => Ok(()),
        RawRuleKind::Update(_, items, value) => {
            update(known, unit, scope, first, items.slice(), value)
        }
        RawRuleKind::Par(items) => rules(known, unit, scope, first, items.slice()),
        RawRuleKind::Seq(items) => rules(known, unit, scope, first, items.slice()),
        RawRuleKind::If(guard, yes, no) => {
            term(known, unit, scope, first, guard)?;
            rule(known, unit, scope, first, yes.get())?;
            rule(known, unit, scope, first, no.get())
        }
        RawRuleKind::Switch(subject, items, last) => {
            term(known, unit, scope, first, subject)?;
            cases(known, unit, scope, first, items.slice())?;
            rule(known, unit, scope, first, last.get())
        }
        RawRuleKind::Let(items, body) => {
            bound(known, unit, scope, first, body.get(), items.slice())
        }
        RawRuleKind::Forall(items, guard, body) => forall(
            known,
            unit,
            scope,
            first,
            body.get(),
            items.slice(),
            guard,
        ),
        RawRuleKind::Choose(items, guard, body, other) => {
            forall(known, unit, scope, first, body.get(), items.slice(), guard)?;
            rule(known, unit, scope, first, other.get())
        }
        RawRuleKind::Call(_, items) => terms(known, unit, scope, first, items.slice()),
    }
}

fn update(
    known: &Intervals,
    unit: u32,
    scope: &mut Scope,
    first: &mut First,
    items: &[RawTerm],
    value: &RawTerm,
) -> Result<(), AllocError>
    ensures scope { OnOk result (scope.new ≡ scope.old) }
    ensures faults { OnOk result (first.new ≡ noted first.old (each scope.old (terms_measured known.now unit items.now) ++ term_faults known.now unit value.now scope.old)) }
{
    terms(known, unit, scope, first, items)?;
    term(known, unit, scope, first, value)?;
    Ok(())
}

/// Notes where an interval is refused in rules.
#[cycle(rule)]
fn rules(
    known: &Intervals,
    unit: u32,
    scope: &mut Scope,
    first: &mut First,
    items: &[RawRule],
) -> Result<(), AllocError>
    ensures scope { OnOk result (scope.new ≡ scope.old) }
    ensures faults { OnOk result (first.new ≡ noted first.old (all_refused (rules_measured known.now unit items.now) scope.old)) }
{
    'items: for item in items {
        rule(known, unit, scope, first, item)?;
    }
    Ok(())
}

/// Notes where an interval is refused in cases.
#[cycle(rule)]
fn cases(
    known: &Intervals,
    unit: u32,
    scope: &mut Scope,
    first: &mut First,
    items: &[RawRuleCase],
) -> Result<(), AllocError>
    ensures scope { OnOk result (scope.new ≡ scope.old) }
    ensures faults { OnOk result (first.new ≡ noted first.old (cases_refused known.now unit (rule_cases_measured known.now unit items.now) scope.old)) }
{
    'items: for item in items {
        term(known, unit, scope, first, &item.label)?;
        rule(known, unit, scope, first, &item.rule)?;
    }
    Ok(())
}

#[cycle(rule)]
fn bound(
    known: &Intervals,
    unit: u32,
    scope: &mut Scope,
    first: &mut First,
    body: &RawRule,
    items: &[RawBind],
) -> Result<(), AllocError>
    ensures scope { OnOk result (scope.new ≡ scope.old) }
    ensures faults { OnOk result (first.new ≡ noted first.old (bind_faults (bound known.now unit items.now) scope.old
        ++ rule_faults known.now unit body.now (within_let (bound known.now unit items.now) scope.old))) }
{
    let depth = scope.len();
    binds(known, unit, scope, first, items)?;
    rule(known, unit, scope, first, body)?;
    scope.leave(depth);
    Ok(())
}

/// Notes where an interval is refused in a guard and a body.
#[cycle(rule)]
fn forall(
    known: &Intervals,
    unit: u32,
    scope: &mut Scope,
    first: &mut First,
    body: &RawRule,
    items: &[RawBinder],
    guard: &RawTerm,
) -> Result<(), AllocError>
    ensures scope { OnOk result (scope.new ≡ scope.old) }
    ensures faults { OnOk result (first.new ≡ noted first.old (term_faults known.now unit guard.now (bounds.within known.now items.now scope.old)
        ++ rule_faults known.now unit body.now (bounds.within known.now items.now scope.old))) }
{
    let depth = scope.len();
    within(known, scope, items)?;
    term(known, unit, scope, first, guard)?;
    rule(known, unit, scope, first, body)?;
    scope.leave(depth);
    Ok(())
}
