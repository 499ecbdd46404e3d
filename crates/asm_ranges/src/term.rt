//! Terms: their intervals, and where one is refused.

ghost use Rattle.std.specs.Prelude.{◌≡◌, ◌++◌, pos, false, IfOk, OnOk};
ghost use Rattle.asm_sign.specs.Vocabulary.{Vocabulary};
ghost use Rattle.asm_faults.specs.First.{noted};
ghost use Rattle.asm_faults.specs.Terms.{function_named};
ghost use Rattle.asm_faults.specs.Ranges as bounds;
ghost use Rattle.asm_faults.specs.Ranges.{measured, bound, each, case_faults, either_case, within_let, bind_faults, codomain_spread};
ghost use Rattle.asm_ranges.specs.Spreads.{bounds_of, Answers};
ghost use Rattle.asm_ranges.specs.Pieces.{terms_measured, cases_measured};

use crate::intervals::Intervals;
use crate::scope::Scope;
use crate::spread::Spread;
use asm_domain::RangeTooWide;
use asm_faults::{First, ModelFault};
use asm_list::Name;
use asm_tree::UnaryOp;
use asm_tree::term::{RawBind, RawBinder, RawCase, RawTerm, RawTermKind};
use std::alloc::AllocError;

/// Notes where an interval is refused in a term. Gives the term's own one.
#[cycle(term)]
pub fn term(
    known: &Intervals,
    unit: u32,
    scope: &mut Scope,
    first: &mut First,
    item: &RawTerm,
) -> Result<Spread, AllocError>
    ensures spread { IfOk result (λ s. bounds_of s ≡ (measured known.now unit item.now).spread scope.old) }
    ensures scope { OnOk result (scope.new ≡ scope.old) }
    ensures faults { OnOk result (first.new ≡ noted first.old ((measured known.now unit item.now).faults scope.old)) }
{
    match &item.kind {
        RawTermKind::Number(number) => Ok(literal(*number)),
        RawTermKind::Truth(_) => Ok(Spread::NoNumber),
        RawTermKind::Undef => Ok(Spread::one(0)),
        RawTermKind::Variable(name) => Ok(scope.find(name)),
        RawTermKind::Element(_) => Ok(Spread::NoNumber),
        RawTermKind::Call(name, items) => call(known, unit, scope, first, name, items.slice()),
        RawTermKind::Unary(op, operand) => unary(
            known,
            unit,
            scope,
            first,
            item.at,
            &item.first,
            *op,
            operand.get(),
        ),
        RawTermKind::Binary(op, left, right) => {
            let one = term(known, unit, scope, first, left.get())?;
            let other = term(known, unit, scope, first, right.get())?;
            let given = Spread::of_two(*op, one, other);
            Ok(unless_refused(unit, first, item.at, &item.first, given)?)
        }
        RawTermKind::Cond(guard, yes, no) => {
            term(known, unit, scope, first, guard.get())?;
            let held = term(known, unit, scope, first, yes.get())?;
            let failed = term(known, unit, scope, first, no.get())?;
            Ok(held.either(failed))
        }
        RawTermKind::Switch(subject, items, last) => {
            term(known, unit, scope, first, subject.get())?;
            let met = cases(known, unit, scope, first, items.slice())?;
            let unmet = term(known, unit, scope, first, last.get())?;
            Ok(met.either(unmet))
        }
        RawTermKind::Let(items, body) => {
            let depth = scope.len();
            binds(known, unit, scope, first, items.slice())?;
            let inner = term(known, unit, scope, first, body.get())?;
            scope.leave(depth);
            Ok(inner)
        }
        RawTermKind::Quant(_, items, guard) => {
            quantified(known, unit, scope, first, items.slice(), guard.get())
        }
    }
}

/// The interval of a number that is written in a text. It is never refused.
#[tactic(auto, using(crate::proofs::Bounds::narrow_number))]
fn literal(number: u32) -> Spread
    ensures value { bounds_of result ≡ bounds.Between (pos number) (pos number) }
    ensures narrow { bounds.is_refused (bounds.Between (pos number) (pos number)) ≡ false }
{
    Spread::one(i64::from(number))
}

/// Notes that an operator's interval is refused; it is missing then.
fn unless_refused(
    unit: u32,
    first: &mut First,
    at: u32,
    name: &Name,
    given: Result<Spread, RangeTooWide>,
) -> Result<Spread, AllocError>
    ensures spread { (r : bounds.Spread) → Answers given r → IfOk result (λ s. bounds_of s ≡ bounds.unless_refused r) }
    ensures faults { (v : Vocabulary) → (r : bounds.Spread) → Answers given r → OnOk result (first.new ≡ noted first.old (bounds.refused v unit r at name.now)) }
{
    match given {
        Ok(spread) => Ok(spread),
        Err(RangeTooWide) => {
            first.note(ModelFault::RangeTooWide, unit, at, name)?;
            Ok(Spread::Missing)
        }
    }
}

/// Notes where an interval is refused in terms.
#[cycle(term)]
pub fn terms(
    known: &Intervals,
    unit: u32,
    scope: &mut Scope,
    first: &mut First,
    items: &[RawTerm],
) -> Result<(), AllocError>
    ensures scope { OnOk result (scope.new ≡ scope.old) }
    ensures faults { OnOk result (first.new ≡ noted first.old (each scope.old (terms_measured known.now unit items.now))) }
{
    'items: for item in items {
        term(known, unit, scope, first, item)?;
    }
    Ok(())
}

#[cycle(term)]
fn call(
    known: &Intervals,
    unit: u32,
    scope: &mut Scope,
    first: &mut First,
    name: &Name,
    items: &[RawTerm],
) -> Result<Spread, AllocError>
    ensures spread { IfOk result (λ s. bounds_of s ≡ codomain_spread known.now (function_named known.now name.now)) }
    ensures scope { OnOk result (scope.new ≡ scope.old) }
    ensures faults { OnOk result (first.new ≡ noted first.old (each scope.old (terms_measured known.now unit items.now))) }
{
    terms(known, unit, scope, first, items)?;
    Ok(known.codomain_of(name))
}

#[cycle(term)]
fn unary(
    known: &Intervals,
    unit: u32,
    scope: &mut Scope,
    first: &mut First,
    at: u32,
    name: &Name,
    op: UnaryOp,
    operand: &RawTerm,
) -> Result<Spread, AllocError>
    ensures spread { IfOk result (λ s. bounds_of s ≡ bounds.unless_refused (bounds.of_one op ((measured known.now unit operand.now).spread scope.old))) }
    ensures scope { OnOk result (scope.new ≡ scope.old) }
    ensures faults { OnOk result (first.new ≡ noted first.old ((measured known.now unit operand.now).faults scope.old
        ++ bounds.refused known.now unit (bounds.of_one op ((measured known.now unit operand.now).spread scope.old)) at name.now)) }
{
    let spread = term(known, unit, scope, first, operand)?;
    Ok(unless_refused(unit, first, at, name, Spread::of_one(op, spread))?)
}

/// Notes where an interval is refused in cases. Gives the least interval that holds those of all values.
#[cycle(term)]
fn cases(
    known: &Intervals,
    unit: u32,
    scope: &mut Scope,
    first: &mut First,
    items: &[RawCase],
) -> Result<Spread, AllocError>
    ensures spread { (other : bounds.Measured) → IfOk result (λ s. either_case scope.old (cases_measured known.now unit items.now) other ≡ bounds.either (bounds_of s) (other.spread scope.old)) }
    ensures scope { OnOk result (scope.new ≡ scope.old) }
    ensures faults { OnOk result (first.new ≡ noted first.old (case_faults scope.old (cases_measured known.now unit items.now))) }
{
    let mut spread = Spread::NoNumber;
    'items: for item in items {
        term(known, unit, scope, first, &item.label)?;
        let value = term(known, unit, scope, first, &item.value)?;
        spread = spread.either(value);
    }
    Ok(spread)
}

/// Notes where an interval is refused in the terms of a `let`, and binds its variables. A later term sees the variables
/// before it.
#[cycle(term)]
pub fn binds(
    known: &Intervals,
    unit: u32,
    scope: &mut Scope,
    first: &mut First,
    items: &[RawBind],
) -> Result<(), AllocError>
    ensures scope { OnOk result (scope.new ≡ within_let (bound known.now unit items.now) scope.old) }
    ensures faults { OnOk result (first.new ≡ noted first.old (bind_faults (bound known.now unit items.now) scope.old)) }
{
    'items: for item in items {
        let spread = term(known, unit, scope, first, &item.term)?;
        scope.bind(&item.variable.text, spread)?;
    }
    Ok(())
}

#[cycle(term)]
fn quantified(
    known: &Intervals,
    unit: u32,
    scope: &mut Scope,
    first: &mut First,
    items: &[RawBinder],
    guard: &RawTerm,
) -> Result<Spread, AllocError>
    ensures spread { IfOk result (λ s. bounds_of s ≡ bounds.NoNumber) }
    ensures scope { OnOk result (scope.new ≡ scope.old) }
    ensures faults { OnOk result (first.new ≡ noted first.old ((measured known.now unit guard.now).faults (bounds.within known.now items.now scope.old))) }
{
    let depth = scope.len();
    within(known, scope, items)?;
    term(known, unit, scope, first, guard)?;
    scope.leave(depth);
    Ok(Spread::NoNumber)
}

/// Binds variables to elements of their domains. The first one is the innermost.
#[tactic(auto, using(crate::proofs::Steps::within_next))]
pub fn within(known: &Intervals, scope: &mut Scope, items: &[RawBinder]) -> Result<(), AllocError>
    ensures { OnOk result (scope.new ≡ bounds.within known.now items.now scope.old) }
{
    let count = items.len();
    'items: for index in 0..count {
        let item = &items[count - 1 - index];
        scope.bind(&item.variable.text, known.domain_named(&item.domain.text))?;
    }
    Ok(())
}
