//! Rules: what is wrong with them in a scope.

ghost use Rattle.std.specs.Prelude.{◌≡◌, [], ◌++◌, Some, None, OnOk};
ghost use Rattle.std.specs.List.{flat_map};
ghost use Rattle.asm_tree.specs.declared.rule.RawRule.{RawRule};
ghost use Rattle.asm_node.specs.declared.term_type.TermType.TheVariants.{Boolean};
ghost use Rattle.asm_faults.specs.First.{noted};
ghost use Rattle.asm_faults.specs.Terms as terms;
ghost use Rattle.asm_faults.specs.Terms.{judged, function_named, within_let, let_faults};
ghost use Rattle.asm_faults.specs.Bodies.{rule_faults, update_faults, rule_call_faults, head_named};
ghost use Rattle.asm_typing.specs.Pieces.{terms_judged, binds_judged};
ghost use Rattle.asm_typing.specs.RulePieces.{cases_faults, ranging_faults};

use crate::domains::domain_types;
use crate::heads::Heads;
use crate::note::{arity, note_unless};
use crate::scope::Scope;
use crate::term::{asked, asked_each, binds, or_else, ranged, term};
use asm_faults::{First, Known, ModelFault};
use asm_list::Name;
use asm_node::TermType;
use asm_sign::Function;
use asm_tree::rule::{RawRule, RawRuleCase, RawRuleKind};
use asm_tree::term::{RawBind, RawBinder, RawTerm};
use std::alloc::AllocError;

/// Notes what is wrong in a rule.
#[cycle(rule)]
pub fn rule(
    known: &Known,
    heads: &Heads,
    unit: u32,
    scope: &mut Scope,
    first: &mut First,
    rule: &RawRule,
) -> Result<(), AllocError>
    ensures scope { OnOk result (scope.new ≡ scope.old) }
    ensures faults { OnOk result (first.new ≡ noted first.old (rule_faults known.now heads.now unit rule.now scope.old)) }
{
    match &rule.kind {
        RawRuleKind::Skip => Ok(()),
        RawRuleKind::Update(name, items, value) => {
            update(
                known,
                unit,
                scope,
                first,
                rule.at,
                name,
                items.slice(),
                value,
            )
        }
        RawRuleKind::Par(items) => rules(known, heads, unit, scope, first, items.slice()),
        RawRuleKind::Seq(items) => rules(known, heads, unit, scope, first, items.slice()),
        RawRuleKind::If(guard, yes, no) => {
            guarded(known, heads, unit, scope, first, yes.get(), guard)?;
            self::rule(known, heads, unit, scope, first, no.get())?;
            Ok(())
        }
        RawRuleKind::Switch(subject, items, other) => {
            switched(known, heads, unit, scope, first, items.slice(), subject)?;
            self::rule(known, heads, unit, scope, first, other.get())?;
            Ok(())
        }
        RawRuleKind::Let(items, body) => {
            bound(known, heads, unit, scope, first, body.get(), items.slice())
        }
        RawRuleKind::Forall(items, guard, body) => {
            ranging(
                known,
                heads,
                unit,
                scope,
                first,
                body.get(),
                items.slice(),
                guard,
            )
        }
        RawRuleKind::Choose(items, guard, chosen, none) => {
            ranging(
                known,
                heads,
                unit,
                scope,
                first,
                chosen.get(),
                items.slice(),
                guard,
            )?;
            self::rule(known, heads, unit, scope, first, none.get())?;
            Ok(())
        }
        RawRuleKind::Call(name, items) => {
            call(
                known,
                heads,
                unit,
                scope,
                first,
                rule.at,
                name,
                items.slice(),
            )
        }
    }
}

/// Notes what is wrong in an update of a function.
fn update(
    known: &Known,
    unit: u32,
    scope: &mut Scope,
    first: &mut First,
    at: u32,
    name: &Name,
    items: &[RawTerm],
    value: &RawTerm,
) -> Result<(), AllocError>
    ensures scope { OnOk result (scope.new ≡ scope.old) }
    ensures faults { OnOk result (first.new ≡ noted first.old (update_faults known.now [] unit at name.now scope.old items.now value.now (function_named known.now name.now))) }
{
    match known.function(name) {
        Some(function) => {
            update_of(known, unit, scope, first, at, name, function, items, value)?;
            Ok(())
        }
        None => {
            first.note(ModelFault::Unknown, unit, at, name)?;
            asked_each(known, unit, scope, first, &[], items)?;
            asked(known, unit, scope, first, None, value)?;
            Ok(())
        }
    }
}

/// Notes what is wrong in an update of a declared function.
fn update_of(
    known: &Known,
    unit: u32,
    scope: &mut Scope,
    first: &mut First,
    at: u32,
    name: &Name,
    function: &Function,
    items: &[RawTerm],
    value: &RawTerm,
) -> Result<(), AllocError>
    ensures scope { OnOk result (scope.new ≡ scope.old) }
    ensures faults { OnOk result (first.new ≡ noted first.old (update_faults known.now [] unit at name.now scope.old items.now value.now (Some function.now))) }
{
    let types = domain_types(known, function.domains.slice())?;
    note_unless(
        function.kind.is_kept(),
        first,
        ModelFault::WrongKind,
        unit,
        at,
        name,
    )?;
    arity(first, unit, at, name, function.domains.len(), items.len())?;
    asked_each(known, unit, scope, first, types.slice(), items)?;
    asked(
        known,
        unit,
        scope,
        first,
        known.domain_type(function.codomain),
        value,
    )?;
    Ok(())
}

/// Notes what is wrong in rules.
#[cycle(rule)]
fn rules(
    known: &Known,
    heads: &Heads,
    unit: u32,
    scope: &mut Scope,
    first: &mut First,
    items: &[RawRule],
) -> Result<(), AllocError>
    ensures scope { OnOk result (scope.new ≡ scope.old) }
    ensures faults { OnOk result (first.new ≡ noted first.old (flat_map (λ (r : RawRule). rule_faults known.now heads.now unit r scope.old) items.now)) }
{
    'items: for item in items {
        rule(known, heads, unit, scope, first, item)?;
    }
    Ok(())
}

/// Notes what is wrong in a guard and a rule.
#[cycle(rule)]
fn guarded(
    known: &Known,
    heads: &Heads,
    unit: u32,
    scope: &mut Scope,
    first: &mut First,
    body: &RawRule,
    guard: &RawTerm,
) -> Result<(), AllocError>
    ensures scope { OnOk result (scope.new ≡ scope.old) }
    ensures faults { OnOk result (first.new ≡ noted first.old (terms.asked known.now unit (Some Boolean) scope.old (judged known.now unit guard.now) ++ rule_faults known.now heads.now unit body.now scope.old)) }
{
    asked(known, unit, scope, first, Some(TermType::Boolean), guard)?;
    rule(known, heads, unit, scope, first, body)?;
    Ok(())
}

/// Notes what is wrong in a term and cases whose labels are of its type.
#[cycle(rule)]
fn switched(
    known: &Known,
    heads: &Heads,
    unit: u32,
    scope: &mut Scope,
    first: &mut First,
    items: &[RawRuleCase],
    subject: &RawTerm,
) -> Result<(), AllocError>
    ensures scope { OnOk result (scope.new ≡ scope.old) }
    ensures faults { OnOk result (first.new ≡ noted first.old ((judged known.now unit subject.now).faults scope.old
        ++ cases_faults known.now heads.now unit ((judged known.now unit subject.now).type scope.old) scope.old items.now)) }
{
    let label = term(known, unit, scope, first, subject)?;
    cases(known, heads, unit, scope, first, items, label)?;
    Ok(())
}

/// Notes what is wrong in cases, whose labels are of one type.
#[cycle(rule)]
fn cases(
    known: &Known,
    heads: &Heads,
    unit: u32,
    scope: &mut Scope,
    first: &mut First,
    items: &[RawRuleCase],
    label: Option<TermType>,
) -> Result<(), AllocError>
    ensures scope { OnOk result (scope.new ≡ scope.old) }
    ensures faults { OnOk result (first.new ≡ noted first.old (cases_faults known.now heads.now unit label scope.old items.now)) }
{
    let mut want = label;
    'items: for item in items {
        let one = asked(known, unit, scope, first, want, &item.label)?;
        rule(known, heads, unit, scope, first, &item.rule)?;
        want = or_else(want, one);
    }
    Ok(())
}

#[cycle(rule)]
fn bound(
    known: &Known,
    heads: &Heads,
    unit: u32,
    scope: &mut Scope,
    first: &mut First,
    body: &RawRule,
    items: &[RawBind],
) -> Result<(), AllocError>
    ensures scope { OnOk result (scope.new ≡ scope.old) }
    ensures faults { OnOk result (first.new ≡ noted first.old (let_faults known.now unit (binds_judged known.now unit items.now) scope.old
        ++ rule_faults known.now heads.now unit body.now (within_let known.now unit (binds_judged known.now unit items.now) scope.old))) }
{
    let depth = scope.len();
    binds(known, unit, scope, first, items)?;
    rule(known, heads, unit, scope, first, body)?;
    scope.leave(depth);
    Ok(())
}

/// Notes what is wrong in variables, their guard, and a rule for each tuple.
#[cycle(rule)]
fn ranging(
    known: &Known,
    heads: &Heads,
    unit: u32,
    scope: &mut Scope,
    first: &mut First,
    body: &RawRule,
    items: &[RawBinder],
    guard: &RawTerm,
) -> Result<(), AllocError>
    ensures scope { OnOk result (scope.new ≡ scope.old) }
    ensures faults { OnOk result (first.new ≡ noted first.old (ranging_faults known.now unit items.now guard.now (rule_faults known.now heads.now unit body.now) scope.old)) }
{
    let depth = scope.len();
    ranged(known, unit, scope, first, items)?;
    asked(known, unit, scope, first, Some(TermType::Boolean), guard)?;
    rule(known, heads, unit, scope, first, body)?;
    scope.leave(depth);
    Ok(())
}

/// Notes what is wrong in a call of a rule.
#[tactic(auto, using(asm_faults::proofs::Noting::noted_append))]
fn call(
    known: &Known,
    heads: &Heads,
    unit: u32,
    scope: &mut Scope,
    first: &mut First,
    at: u32,
    name: &Name,
    items: &[RawTerm],
) -> Result<(), AllocError>
    ensures scope { OnOk result (scope.new ≡ scope.old) }
    ensures faults { OnOk result (first.new ≡ noted first.old (rule_call_faults known.now heads.now unit at name.now scope.old items.now (head_named heads.now name.now))) }
{
    match heads.find(name) {
        Some(types) => {
            arity(first, unit, at, name, types.len(), items.len())?;
            asked_each(known, unit, scope, first, types.slice(), items)?;
            Ok(())
        }
        None => {
            first.note(ModelFault::Unknown, unit, at, name)?;
            asked_each(known, unit, scope, first, &[], items)?;
            Ok(())
        }
    }
}
