//! Terms as nodes.
ghost use Rattle.std.specs.Prelude.{◌≡◌, ◌<◌, ℕ, List, map, length, slice_get, Some, unwrap_or, IfOk};
ghost use Rattle.asm_node.specs.Pool.{terms_of, HasTerms, HasTerm, HasArguments};
ghost use Rattle.asm_node.specs.Tree as tree;
ghost use Rattle.asm_node.specs.Tree.{plain, plain_kind};
ghost use Rattle.asm_node.specs.Values.{whole};
ghost use Rattle.asm_faults.specs.FunctionFaults.{domain_number};
ghost use Rattle.asm_faults.specs.Model as model;
ghost use Rattle.asm_tree.specs.declared.term.RawCase.{RawCase};
ghost use Rattle.asm_tree.specs.declared.term.RawBind.{RawBind};
ghost use Rattle.asm_build.specs.Made.{HasGrown, IsTerm, AreTerms, AreNumbers, AreBinders, plains};
ghost use Rattle.asm_build.specs.Forms.{test, cases_from, bounds_from};

use crate::maker::Maker;
use crate::operator::{op_of, quantifier_of, unary_of};
use asm_domain::Value;
use asm_faults::Known;
use asm_list::{Listed, Name};
use asm_node::{Binder, Op, Term, TermKind, Terms};
use asm_tree::term::{RawBind, RawBinder, RawCase, RawTerm, RawTermKind};
use std::alloc::AllocError;
use std::rc::Rc;

/// A node for a term. A name that stands for nothing gets the number 0.
#[cycle(term)]
pub fn term(maker: &mut Maker, known: &Known, raw: &RawTerm) -> Result<Rc<Term>, AllocError>
    ensures made { IfOk result (λ t. IsTerm maker.new (λ number. model.tree_of number known.now raw.now) t.value) }
    ensures grown { IfOk result (λ t. HasGrown maker.old maker.new) }
{
    match &raw.kind {
        RawTermKind::Number(number) => Ok(constant(maker, Value::Int(i64::from(*number)))?),
        RawTermKind::Truth(truth) => Ok(constant(maker, Value::Bool(*truth))?),
        RawTermKind::Undef => Ok(constant(maker, Value::Undef)?),
        RawTermKind::Variable(name) => Ok(variable(maker, name)?),
        RawTermKind::Element(name) => Ok(constant(maker, known.element(name))?),
        RawTermKind::Call(name, arguments) => { Ok(call(maker, known, name, arguments.slice())?) }
        RawTermKind::Unary(op, operand) => {
            let operand = term(maker, known, operand.get())?;
            Ok(operation_of_one(maker, unary_of(*op), operand)?)
        }
        RawTermKind::Binary(op, left, right) => {
            let left = term(maker, known, left.get())?;
            let right = term(maker, known, right.get())?;
            Ok(operation(maker, op_of(*op), left, right)?)
        }
        RawTermKind::Cond(guard, then_part, else_part) => {
            let guard = term(maker, known, guard.get())?;
            let then_part = term(maker, known, then_part.get())?;
            let else_part = term(maker, known, else_part.get())?;
            Ok(make(maker, TermKind::Cond(guard, then_part, else_part))?)
        }
        RawTermKind::Switch(subject, items, other) => {
            let subject = term(maker, known, subject.get())?;
            let cases = cases_of(maker, known, items.slice())?;
            let other = term(maker, known, other.get())?;
            Ok(nested_cases(maker, &subject, &cases, other)?)
        }
        RawTermKind::Let(items, body) => {
            let bounds = bounds_of(maker, known, items.slice())?;
            let body = term(maker, known, body.get())?;
            Ok(nested_bounds(maker, &bounds, body)?)
        }
        RawTermKind::Quant(quantifier, binders, guard) => {
            let binders = binders_of(maker, known, binders.slice())?;
            let guard = term(maker, known, guard.get())?;
            let quantifier = quantifier_of(*quantifier);
            Ok(make(maker, TermKind::Quant(quantifier, binders, guard))?)
        }
    }
}

fn constant(maker: &mut Maker, value: Value) -> Result<Rc<Term>, AllocError>
    ensures made { IfOk result (λ t. IsTerm maker.new (λ number. tree.Const value) t.value) }
    ensures grown { IfOk result (λ t. HasGrown maker.old maker.new) }
{
    make(maker, TermKind::Const(value))
}

fn variable(maker: &mut Maker, name: &Name) -> Result<Rc<Term>, AllocError>
    ensures made { IfOk result (λ t. IsTerm maker.new (λ number. tree.Var (number name.now)) t.value) }
    ensures grown { IfOk result (λ t. HasGrown maker.old maker.new) }
{
    let number = maker.variable(name)?;
    Ok(make(maker, TermKind::Var(number))?)
}

pub(crate) fn function_number(known: &Known, name: &Name) -> u32
    ensures { (number : List ℕ → ℕ) → result ≡ model.function_number number known.now name.now }
{
    known.function_number(name).unwrap_or(0)
}

#[cycle(term)]
fn call(
    maker: &mut Maker,
    known: &Known,
    name: &Name,
    arguments: &[RawTerm],
) -> Result<Rc<Term>, AllocError>
    ensures made { IfOk result (λ t. IsTerm maker.new (λ number. tree.Get (model.function_number number known.now name.now) (model.trees_of number known.now (map (model.tree_of number known.now) arguments.now))) t.value) }
    ensures grown { IfOk result (λ t. HasGrown maker.old maker.new) }
{
    let arguments = terms(maker, known, arguments)?;
    let function = function_number(known, name);
    Ok(make(maker, TermKind::Get(function, arguments))?)
}

/// The nodes of terms, in their order.
#[cycle(term)]
pub fn terms(maker: &mut Maker, known: &Known, raws: &[RawTerm]) -> Result<Terms, AllocError>
    ensures made { IfOk result (λ ts. AreTerms maker.new (λ number. map (model.tree_of number known.now) raws.now) ts) }
    ensures grown { IfOk result (λ ts. HasGrown maker.old maker.new) }
{
    let mut made = Terms::new(maker.alloc());
    'raws: for raw in raws {
        let one = term(maker, known, raw)?;
        made.push(one)?;
    }
    Ok(made)
}

/// The labels and the values of cases, in their order.
#[derive(Drop)]
struct Cases {
    labels: Terms,
    values: Terms,
}

#[cycle(term)]
fn cases_of(maker: &mut Maker, known: &Known, items: &[RawCase]) -> Result<Cases, AllocError>
    ensures labels { IfOk result (λ cases. AreTerms maker.new (λ number. map (λ (c : RawCase). model.tree_of number known.now c.label) items.now) cases.labels) }
    ensures values { IfOk result (λ cases. AreTerms maker.new (λ number. map (λ (c : RawCase). model.tree_of number known.now c.value) items.now) cases.values) }
    ensures same { IfOk result (λ cases. length cases.labels ≡ length cases.values) }
    ensures grown { IfOk result (λ cases. HasGrown maker.old maker.new) }
{
    let mut labels = Terms::new(maker.alloc());
    let mut values = Terms::new(maker.alloc());
    'items: for item in items {
        let label = term(maker, known, &item.label)?;
        let value = term(maker, known, &item.value)?;
        labels.push(label)?;
        values.push(value)?;
    }
    Ok(Cases { labels, values })
}

/// Nested conditionals, the first case outermost: the value of a case where the subject is its label, else the rest.
fn nested_cases(
    maker: &mut Maker,
    subject: &Rc<Term>,
    cases: &Cases,
    other: Rc<Term>,
) -> Result<Rc<Term>, AllocError>
    requires subject { HasTerm (terms_of maker.old.pool) subject.now.value }
    requires labels { HasArguments (terms_of maker.old.pool) cases.now.labels }
    requires values { HasArguments (terms_of maker.old.pool) cases.now.values }
    requires same { length cases.now.labels ≡ length cases.now.values }
    requires other { HasTerm (terms_of maker.old.pool) other.value }
    ensures made { IfOk result (λ t. IsTerm maker.new (λ number. cases_from (plain subject.now.value) (plains cases.now.labels) (plains cases.now.values) (plain other.value)) t.value) }
    ensures grown { IfOk result (λ t. HasGrown maker.old maker.new) }
{
    let labels = cases.labels.slice();
    let values = cases.values.slice();
    let mut rest = other;
    'done: for done in 0..labels.len() {
        let place = labels.len() - 1 - done;
        let label = node_at(labels, place);
        rest = one_case(maker, subject, label, node_at(values, place), rest)?;
    }
    Ok(rest)
}

fn one_case(
    maker: &mut Maker,
    subject: &Rc<Term>,
    label: &Rc<Term>,
    value: &Rc<Term>,
    rest: Rc<Term>,
) -> Result<Rc<Term>, AllocError>
    requires subject { HasTerm (terms_of maker.old.pool) subject.now.value }
    requires label { HasTerm (terms_of maker.old.pool) label.now.value }
    requires value { HasTerm (terms_of maker.old.pool) value.now.value }
    requires rest { HasTerm (terms_of maker.old.pool) rest.value }
    ensures made { IfOk result (λ t. IsTerm maker.new (λ number. tree.Cond (test (plain subject.now.value) (plain label.now.value)) (plain value.now.value) (plain rest.value)) t.value) }
    ensures grown { IfOk result (λ t. HasGrown maker.old maker.new) }
{
    let guard = operation(maker, Op::Equal, subject.clone()?, label.clone()?)?;
    Ok(make(maker, TermKind::Cond(guard, value.clone()?, rest))?)
}

/// The variables of a `let` and their terms, in their order.
#[derive(Drop)]
pub(crate) struct Bounds {
    pub variables: Listed<u32>,
    pub terms: Terms,
}

#[cycle(term)]
pub(crate) fn bounds_of(
    maker: &mut Maker,
    known: &Known,
    items: &[RawBind],
) -> Result<Bounds, AllocError>
    ensures variables { IfOk result (λ bounds. AreNumbers maker.new (λ number. map (λ (b : RawBind). number b.variable.text) items.now) bounds.variables) }
    ensures terms { IfOk result (λ bounds. AreTerms maker.new (λ number. map (λ (b : RawBind). model.tree_of number known.now b.term) items.now) bounds.terms) }
    ensures same { IfOk result (λ bounds. length bounds.variables ≡ length bounds.terms) }
    ensures grown { IfOk result (λ bounds. HasGrown maker.old maker.new) }
{
    let mut variables = Listed::new(maker.alloc());
    let mut terms = Terms::new(maker.alloc());
    'items: for item in items {
        let variable = maker.variable(&item.variable.text)?;
        let one = term(maker, known, &item.term)?;
        variables.push(variable)?;
        terms.push(one)?;
    }
    Ok(Bounds { variables, terms })
}

/// Nested terms, each of which binds one variable, the first outermost.
fn nested_bounds(maker: &mut Maker, bounds: &Bounds, body: Rc<Term>) -> Result<Rc<Term>, AllocError>
    requires terms { HasArguments (terms_of maker.old.pool) bounds.now.terms }
    requires same { length bounds.now.variables ≡ length bounds.now.terms }
    requires body { HasTerm (terms_of maker.old.pool) body.value }
    ensures made { IfOk result (λ t. IsTerm maker.new (λ number. bounds_from bounds.now.variables (plains bounds.now.terms) (plain body.value)) t.value) }
    ensures grown { IfOk result (λ t. HasGrown maker.old maker.new) }
{
    let variables = bounds.variables.slice();
    let terms = bounds.terms.slice();
    let mut rest = body;
    'done: for done in 0..terms.len() {
        let place = terms.len() - 1 - done;
        let bound = node_at(terms, place).clone()?;
        let variable = number_at(variables, place);
        rest = make(maker, TermKind::Let(variable, bound, rest))?;
    }
    Ok(rest)
}

/// Binders with the numbers of their variables and domains. A domain that isn't known counts as that of all numbers.
pub fn binders_of(
    maker: &mut Maker,
    known: &Known,
    raws: &[RawBinder],
) -> Result<Listed<Binder>, AllocError>
    ensures made { IfOk result (λ bs. AreBinders maker.new (λ number. model.binders_of number known.now raws.now) bs) }
    ensures grown { IfOk result (λ bs. HasGrown maker.old maker.new) }
{
    let mut binders = Listed::new(maker.alloc());
    'raws: for raw in raws {
        let variable = maker.variable(&raw.variable.text)?;
        let domain = domain_number(known, &raw.domain.text);
        binders.push(Binder { variable, domain })?;
    }
    Ok(binders)
}

fn domain_number(known: &Known, name: &Name) -> u32
    ensures { result ≡ unwrap_or (domain_number known.now.domains name.now) whole }
{
    known.domain(name).unwrap_or(u32::MAX)
}

pub(crate) fn node_at(nodes: &[Rc<Term>], place: usize) -> &Rc<Term>
    requires { place < length nodes.now }
    ensures { slice_get nodes.now place ≡ Some result.now }
{
    &nodes[place]
}

pub(crate) fn number_at(numbers: &[u32], place: usize) -> u32
    requires { place < length numbers.now }
    ensures { slice_get numbers.now place ≡ Some result }
{
    numbers[place]
}

fn operation_of_one(maker: &mut Maker, op: Op, operand: Rc<Term>) -> Result<Rc<Term>, AllocError>
    requires operand { HasTerm (terms_of maker.old.pool) operand.value }
    ensures made { IfOk result (λ t. IsTerm maker.new (λ number. tree.Oper op (tree.more (plain operand.value) tree.none)) t.value) }
    ensures grown { IfOk result (λ t. HasGrown maker.old maker.new) }
{
    let mut operands = Terms::new(maker.alloc());
    operands.push(operand)?;
    Ok(make(maker, TermKind::Oper(op, operands))?)
}

pub(crate) fn operation(
    maker: &mut Maker,
    op: Op,
    left: Rc<Term>,
    right: Rc<Term>,
) -> Result<Rc<Term>, AllocError>
    requires left { HasTerm (terms_of maker.old.pool) left.value }
    requires right { HasTerm (terms_of maker.old.pool) right.value }
    ensures made { IfOk result (λ t. IsTerm maker.new (λ number. tree.Oper op (tree.more (plain left.value) (tree.more (plain right.value) tree.none))) t.value) }
    ensures grown { IfOk result (λ t. HasGrown maker.old maker.new) }
{
    let mut operands = Terms::new(maker.alloc());
    operands.push(left)?;
    operands.push(right)?;
    Ok(make(maker, TermKind::Oper(op, operands))?)
}

fn make(maker: &mut Maker, kind: TermKind) -> Result<Rc<Term>, AllocError>
    requires { HasTerms (terms_of maker.old.pool) kind }
    ensures made { IfOk result (λ t. IsTerm maker.new (λ number. plain_kind kind) t.value) }
    ensures grown { IfOk result (λ t. HasGrown maker.old maker.new) }
{
    Ok(maker.pool.term(kind)?)
}
