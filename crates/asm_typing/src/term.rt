//! Terms: their types, and what is wrong with them in a scope.

ghost use Rattle.std.specs.Prelude.{◌≡◌, [], ◌∷◌, ◌++◌, map, slice_get, if◌then◌else◌, is_none, Some, None, IfOk, OnOk};
ghost use Rattle.asm_node.specs.declared.term_type.TermType.TheVariants.{Boolean};
ghost use Rattle.asm_faults.specs.declared.fault.ModelFault.TheVariants.{Unbound};
ghost use Rattle.asm_faults.specs.At.{token};
ghost use Rattle.asm_faults.specs.First.{noted};
ghost use Rattle.asm_faults.specs.DomainFaults.{repeats};
ghost use Rattle.asm_faults.specs.Terms as terms;
ghost use Rattle.asm_faults.specs.Terms.{judged, bound_type, joined, function_named, element_in, first_type, within_let, let_faults, bind_faults};
ghost use Rattle.asm_typing.specs.Pieces.{terms_judged, binds_judged, cases_judged, cases_before, variables_bound};

use crate::binders::{binder_faults, infinite_faults, within};
use crate::domains::domain_types;
use crate::kind::{asks, gives, unary_asks, unary_gives};
use crate::note::{arity, mismatch, see};
use crate::scope::Scope;
use asm_faults::{First, Known, ModelFault};
use asm_list::Name;
use asm_node::TermType;
use asm_tree::term::{RawBind, RawBinder, RawCase, RawTerm, RawTermKind};
use asm_tree::{Op, UnaryOp};
use name_table::Table;
use std::alloc::AllocError;

/// Notes what is wrong in a term. Gives its type, where it fits one alone.
#[cycle(term)]
pub fn term(
    known: &Known,
    unit: u32,
    scope: &mut Scope,
    first: &mut First,
    term: &RawTerm,
) -> Result<Option<TermType>, AllocError>
    ensures kind { IfOk result (λ kind. kind ≡ (judged known.now unit term.now).type scope.old) }
    ensures scope { OnOk result (scope.new ≡ scope.old) }
    ensures faults { OnOk result (first.new ≡ noted first.old ((judged known.now unit term.now).faults scope.old)) }
{
    match &term.kind {
        RawTermKind::Number(_) => Ok(Some(TermType::Integer)),
        RawTermKind::Truth(_) => Ok(Some(TermType::Boolean)),
        RawTermKind::Undef => Ok(None),
        RawTermKind::Variable(name) => variable(unit, scope, first, term.at, name),
        RawTermKind::Element(name) => element(known, unit, first, term.at, name),
        RawTermKind::Call(name, items) => {
            call(known, unit, scope, first, term.at, name, items.slice())
        }
        RawTermKind::Unary(op, operand) => unary(known, unit, scope, first, *op, operand.get()),
        RawTermKind::Binary(op, left, right) => {
            let want = asks(*op);
            let left_kind = asked(known, unit, scope, first, want, left.get())?;
            asked(
                known,
                unit,
                scope,
                first,
                or_else(want, left_kind),
                right.get(),
            )?;
            Ok(Some(gives(*op)))
        }
        RawTermKind::Cond(guard, yes, no) => {
            asked(
                known,
                unit,
                scope,
                first,
                Some(TermType::Boolean),
                guard.get(),
            )?;
            let yes_kind = asked(known, unit, scope, first, None, yes.get())?;
            let no_kind = asked(known, unit, scope, first, yes_kind, no.get())?;
            Ok(or_else(yes_kind, no_kind))
        }
        RawTermKind::Switch(subject, items, other) => {
            let label = self::term(known, unit, scope, first, subject.get())?;
            let value = cases(known, unit, scope, first, label, items.slice())?;
            let last = asked(known, unit, scope, first, value, other.get())?;
            Ok(or_else(value, last))
        }
        RawTermKind::Let(items, body) => {
            let depth = scope.len();
            binds(known, unit, scope, first, items.slice())?;
            let inner_kind = self::term(known, unit, scope, first, body.get())?;
            scope.leave(depth);
            Ok(inner_kind)
        }
        RawTermKind::Quant(_, items, guard) => {
            quantified(known, unit, scope, first, items.slice(), guard.get())
        }
    }
}

fn variable(
    unit: u32,
    scope: &Scope,
    first: &mut First,
    at: u32,
    name: &Name,
) -> Result<Option<TermType>, AllocError>
    ensures kind { IfOk result (λ kind. kind ≡ joined (bound_type scope.now name.now)) }
    ensures faults { OnOk result (first.new ≡ noted first.old (if is_none (bound_type scope.now name.now) then token Unbound unit at name.now ∷ [] else [])) }
{
    match scope.find(name) {
        Some(kind) => Ok(kind),
        None => {
            first.note(ModelFault::Unbound, unit, at, name)?;
            Ok(None)
        }
    }
}

fn element(
    known: &Known,
    unit: u32,
    first: &mut First,
    at: u32,
    name: &Name,
) -> Result<Option<TermType>, AllocError>
    ensures kind { IfOk result (λ kind. kind ≡ terms.element_type (element_in known.now.domains name.now)) }
    ensures faults { OnOk result (first.new ≡ noted first.old (terms.element_faults known.now unit at name.now (terms.element_type (element_in known.now.domains name.now)))) }
{
    match known.element_type(name) {
        Some(kind) => Ok(Some(kind)),
        None => {
            first.note(ModelFault::Unknown, unit, at, name)?;
            Ok(None)
        }
    }
}

/// Notes what is wrong in a term, and that it has another type than this one, where both are known.
#[cycle(term)]
#[tactic(auto, using(crate::proofs::Steps::asked_noted))]
pub fn asked(
    known: &Known,
    unit: u32,
    scope: &mut Scope,
    first: &mut First,
    want: Option<TermType>,
    item: &RawTerm,
) -> Result<Option<TermType>, AllocError>
    ensures kind { IfOk result (λ kind. kind ≡ (judged known.now unit item.now).type scope.old) }
    ensures scope { OnOk result (scope.new ≡ scope.old) }
    ensures faults { OnOk result (first.new ≡ noted first.old (terms.asked known.now unit want scope.old (judged known.now unit item.now))) }
{
    let own = term(known, unit, scope, first, item)?;
    mismatch(first, unit, want, own, item)?;
    Ok(own)
}

/// Notes what is wrong in arguments, each of which is asked for the type at its place.
#[cycle(term)]
#[tactic(auto, using(crate::proofs::Steps::asked_step, crate::proofs::Steps::asked_end))]
pub fn asked_each(
    known: &Known,
    unit: u32,
    scope: &mut Scope,
    first: &mut First,
    types: &[Option<TermType>],
    items: &[RawTerm],
) -> Result<(), AllocError>
    ensures scope { OnOk result (scope.new ≡ scope.old) }
    ensures faults { OnOk result (first.new ≡ noted first.old (terms.asked_each known.now unit types.now scope.old (terms_judged known.now unit items.now))) }
{
    'items: for (index, item) in items.iter().enumerate() {
        asked(known, unit, scope, first, type_at(types, index), item)?;
    }
    Ok(())
}

fn type_at(types: &[Option<TermType>], place: usize) -> Option<TermType>
    ensures { result ≡ joined (slice_get types.now place) }
{
    match types.get(place) {
        Some(kind) => *kind,
        None => None,
    }
}

#[cycle(term)]
#[tactic(auto, using(crate::proofs::Steps::call_known))]
fn call(
    known: &Known,
    unit: u32,
    scope: &mut Scope,
    first: &mut First,
    at: u32,
    name: &Name,
    items: &[RawTerm],
) -> Result<Option<TermType>, AllocError>
    ensures kind { IfOk result (λ kind. kind ≡ terms.call_type known.now unit (function_named known.now name.now)) }
    ensures scope { OnOk result (scope.new ≡ scope.old) }
    ensures faults { OnOk result (first.new ≡ noted first.old (terms.call_faults known.now unit at name.now scope.old (terms_judged known.now unit items.now) (function_named known.now name.now))) }
{
    match known.function(name) {
        Some(function) => {
            let types = domain_types(known, function.domains.slice())?;
            arity(first, unit, at, name, function.domains.len(), items.len())?;
            asked_each(known, unit, scope, first, types.slice(), items)?;
            Ok(known.domain_type(function.codomain))
        }
        None => {
            first.note(ModelFault::Unknown, unit, at, name)?;
            asked_each(known, unit, scope, first, &[], items)?;
            Ok(None)
        }
    }
}

#[cycle(term)]
fn unary(
    known: &Known,
    unit: u32,
    scope: &mut Scope,
    first: &mut First,
    op: UnaryOp,
    operand: &RawTerm,
) -> Result<Option<TermType>, AllocError>
    ensures kind { IfOk result (λ kind. kind ≡ Some (terms.unary_gives known.now unit op)) }
    ensures scope { OnOk result (scope.new ≡ scope.old) }
    ensures faults { OnOk result (first.new ≡ noted first.old (terms.asked known.now unit (terms.unary_asks known.now unit op) scope.old (judged known.now unit operand.now))) }
{
    asked(known, unit, scope, first, unary_asks(op), operand)?;
    Ok(Some(unary_gives(op)))
}

/// A type, where it is known, and otherwise another one.
pub fn or_else(one: Option<TermType>, other: Option<TermType>) -> Option<TermType>
    ensures { result ≡ terms.or_else one other }
{
    match one {
        Some(kind) => Some(kind),
        None => other,
    }
}

/// Notes what is wrong in cases, whose labels are of one type. Gives the type of the first value that fits one alone.
#[cycle(term)]
#[tactic(auto, using(crate::proofs::Steps::cases_step, crate::proofs::Steps::values_step))]
fn cases(
    known: &Known,
    unit: u32,
    scope: &mut Scope,
    first: &mut First,
    label: Option<TermType>,
    items: &[RawCase],
) -> Result<Option<TermType>, AllocError>
    ensures kind { IfOk result (λ kind. kind ≡ first_type scope.old (map (λ (c : terms.Judged × terms.Judged). c.1) (cases_judged known.now unit items.now))) }
    ensures scope { OnOk result (scope.new ≡ scope.old) }
    ensures faults { OnOk result (first.new ≡ noted first.old (cases_before known.now unit label None scope.old (cases_judged known.now unit items.now))) }
{
    let mut want = label;
    let mut value = None;
    'items: for item in items {
        let one = asked(known, unit, scope, first, want, &item.label)?;
        let other = asked(known, unit, scope, first, value, &item.value)?;
        want = or_else(want, one);
        value = or_else(value, other);
    }
    Ok(value)
}

/// Notes what is wrong with the variables of a `let` and their terms, and binds them.
#[cycle(term)]
#[tactic(auto, using(crate::proofs::Steps::let_noted))]
pub fn binds(
    known: &Known,
    unit: u32,
    scope: &mut Scope,
    first: &mut First,
    items: &[RawBind],
) -> Result<(), AllocError>
    ensures scope { OnOk result (scope.new ≡ within_let known.now unit (binds_judged known.now unit items.now) scope.old) }
    ensures faults { OnOk result (first.new ≡ noted first.old (let_faults known.now unit (binds_judged known.now unit items.now) scope.old)) }
{
    repeated(known, unit, first, items)?;
    bind_each(known, unit, scope, first, items)?;
    Ok(())
}

/// Notes variables that stand twice.
#[tactic(auto, using(crate::proofs::Steps::repeats_step))]
fn repeated(
    known: &Known,
    unit: u32,
    first: &mut First,
    items: &[RawBind],
) -> Result<(), AllocError>
    ensures { OnOk result (first.new ≡ noted first.old (repeats [] (variables_bound unit items.now))) }
{
    let mut seen = Table::new(known.alloc());
    'items: for item in items {
        see(first, unit, &mut seen, &item.variable)?;
    }
    Ok(())
}

/// Binds each variable to its term. A later term sees the variables before it.
#[cycle(term)]
#[tactic(auto, using(crate::proofs::Steps::let_step, crate::proofs::Steps::let_scope))]
fn bind_each(
    known: &Known,
    unit: u32,
    scope: &mut Scope,
    first: &mut First,
    items: &[RawBind],
) -> Result<(), AllocError>
    ensures scope { OnOk result (scope.new ≡ within_let known.now unit (binds_judged known.now unit items.now) scope.old) }
    ensures faults { OnOk result (first.new ≡ noted first.old (bind_faults known.now unit (binds_judged known.now unit items.now) scope.old)) }
{
    'items: for item in items {
        let kind = term(known, unit, scope, first, &item.term)?;
        scope.bind(&item.variable.text, kind)?;
    }
    Ok(())
}

#[cycle(term)]
#[tactic(auto, using(asm_faults::proofs::Noting::noted_append, crate::proofs::Steps::within_left))]
fn quantified(
    known: &Known,
    unit: u32,
    scope: &mut Scope,
    first: &mut First,
    items: &[RawBinder],
    guard: &RawTerm,
) -> Result<Option<TermType>, AllocError>
    ensures kind { IfOk result (λ kind. kind ≡ Some Boolean) }
    ensures scope { OnOk result (scope.new ≡ scope.old) }
    ensures faults { OnOk result (first.new ≡ noted first.old (terms.binder_faults known.now unit items.now ++ (terms.infinite_faults known.now unit items.now
        ++ terms.asked known.now unit (Some Boolean) (terms.within known.now unit items.now scope.old) (judged known.now unit guard.now)))) }
{
    let depth = scope.len();
    ranged(known, unit, scope, first, items)?;
    asked(known, unit, scope, first, Some(TermType::Boolean), guard)?;
    scope.leave(depth);
    Ok(Some(TermType::Boolean))
}

/// Notes what is wrong with variables and their finite domains, and binds them.
#[tactic(auto, using(asm_faults::proofs::Noting::noted_append))]
pub fn ranged(
    known: &Known,
    unit: u32,
    scope: &mut Scope,
    first: &mut First,
    items: &[RawBinder],
) -> Result<(), AllocError>
    ensures scope { OnOk result (scope.new ≡ terms.within known.now unit items.now scope.old) }
    ensures faults { OnOk result (first.new ≡ noted first.old (terms.binder_faults known.now unit items.now ++ terms.infinite_faults known.now unit items.now)) }
{
    binder_faults(known, unit, first, items)?;
    infinite_faults(unit, first, items)?;
    within(known, scope, items)?;
    Ok(())
}
