//! The evaluation of terms.
ghost use Rattle.std.specs.Prelude.{◌≡◌, ◌++◌, ◌∷◌, [], Some, List, OnOk, Contains, slice_get};
ghost use Rattle.asm_domain.specs.declared.value.Value as domain;
ghost use Rattle.asm_node.specs.Env.{places_of};
ghost use Rattle.asm_node.specs.Exact.{IsExact, IsExactBody, AreExact, IsOfCall, exact_within};
ghost use Rattle.asm_node.specs.Machine.{tuples_of};
ghost use Rattle.asm_node.specs.Model.{defined_by, machine_of};
ghost use Rattle.asm_node.specs.Step.{IsState};
ghost use Rattle.asm_node.specs.Term.{close, close_all, put, put_tuple, read, guard_values, calls_of, calls_within, parameters_have, val, value_of, vals};
ghost use Rattle.asm_node.specs.Tree.{Const, plain, plain_all};
ghost use Rattle.asm_eval.specs.Answer.{Answers};
ghost use Rattle.asm_eval.specs.World.{world_in, reads_by, each_by, value_by, values_by, IsExactBy, AreExactBy};

use crate::bind::{bound, parameters};
use crate::error::EvalError;
use crate::location::{constant_of, location_value};
use crate::operation::apply;
use crate::quantify::quantified;
use crate::tuple::tuples_of;
use crate::world::World;
use asm_domain::Value;
use asm_node::{
    Binder, Binding, Definition, Env, Input, Model, Term, TermKind, Values, are_arguments, within,
};
use asm_sign::Function;
use asm_state::Store;
use std::alloc::{AllocError, Global};
use std::rc::Rc;

/// How many definitions may stand inside one another.
const DEFINITIONS: u32 = 32;

/// The value of a term, whose variables stand for closed terms. It takes time in proportion to the nodes that it reads.
pub fn eval<S: Store>(
    alloc: Global,
    model: &Model,
    store: &S,
    input: &Input,
    env: &Env,
    term: &Rc<Term>,
) -> Result<Value, EvalError>
    requires state { IsState (machine_of model.now) (S.state store.now) }
    requires exact { IsExact (world_in (machine_of model.now) (S.state store.now) input.now) (close (places_of env.now) (plain term.now.value)) }
    ensures { Answers (λ v. v) result (val (world_in (machine_of model.now) (S.state store.now) input.now) (places_of env.now) (plain term.now.value)) }
{
    let world = World {
        alloc,
        model,
        store,
        input,
    };
    eval_in(&world, env, term)
}

/// The value of a term in a world.
pub fn eval_in<S: Store>(
    world: &World<'_, S>,
    env: &Env,
    term: &Rc<Term>,
) -> Result<Value, EvalError>
    requires { IsExact (world_in (machine_of world.now.model.now) (S.state world.now.store.now) world.now.input.now) (close (places_of env.now) (plain term.now.value)) }
    ensures { Answers (λ v. v) result (val (world_in (machine_of world.now.model.now) (S.state world.now.store.now) world.now.input.now) (places_of env.now) (plain term.now.value)) }
{
    eval_term(world, DEFINITIONS, env, term)
}

/// The values of terms from left to right in a world.
pub fn eval_all<S: Store>(
    world: &World<'_, S>,
    env: &Env,
    terms: &[Rc<Term>],
) -> Result<Values, EvalError>
    requires { AreExact (world_in (machine_of world.now.model.now) (S.state world.now.store.now) world.now.input.now) (close_all (places_of env.now) (plain_all terms.now)) }
    ensures { Answers (λ vs. vs) result (vals (world_in (machine_of world.now.model.now) (S.state world.now.store.now) world.now.input.now) (places_of env.now) (plain_all terms.now)) }
{
    eval_terms(world, DEFINITIONS, env, terms)
}

/// The value of a definition's term at arguments in a world.
pub fn eval_body<S: Store>(
    world: &World<'_, S>,
    definition: &Definition,
    values: &[Value],
) -> Result<Value, EvalError>
    requires { let w = world_in (machine_of world.now.model.now) (S.state world.now.store.now) world.now.input.now in IsExactBody w (calls_of w) (exact_within w 32) (Some (defined_by definition.now)) values.now }
    ensures { let w = world_in (machine_of world.now.model.now) (S.state world.now.store.now) world.now.input.now in Answers (λ v. v) result (value_of w (calls_of w) (parameters_have definition.now.variables values.now) (plain definition.now.term.value)) }
{
    let env = parameters(world.alloc, definition.variables.slice(), values)?;
    eval_term(world, DEFINITIONS, &env, &definition.term)
}

#[cycle(eval)]
fn eval_term<S: Store>(
    world: &World<'_, S>,
    left: u32,
    env: &Env,
    term: &Rc<Term>,
) -> Result<Value, EvalError>
    requires { IsExactBy (world_in (machine_of world.now.model.now) (S.state world.now.store.now) world.now.input.now) left (places_of env.now) (plain term.now.value) }
    ensures { Answers (λ v. v) result (value_by (world_in (machine_of world.now.model.now) (S.state world.now.store.now) world.now.input.now) left (places_of env.now) (plain term.now.value)) }
{
    match &term.kind {
        TermKind::Const(value) => Ok(*value),
        TermKind::Var(variable) => eval_variable(world, left, env, *variable),
        TermKind::Within(domain, term) => {
            let value = eval_term(world, left, env, term)?;
            Ok(within(world.model.signature().domains(), *domain, value))
        }
        TermKind::Get(function, arguments) => {
            let values = eval_terms(world, left, env, arguments.slice())?;
            eval_read(world, left, *function, values.slice())
        }
        TermKind::Oper(op, arguments) => {
            let values = eval_terms(world, left, env, arguments.slice())?;
            Ok(apply(*op, values.slice()))
        }
        TermKind::Cond(guard, then_part, else_part) => {
            match eval_term(world, left, env, guard)? {
                Value::Bool(true) => eval_term(world, left, env, then_part),
                Value::Bool(false) => eval_term(world, left, env, else_part),
                _ => Ok(Value::Undef),
            }
        }
        TermKind::Let(variable, bound, body) => {
            let value = eval_term(world, left, env, bound)?;
            eval_with(world, left, env, *variable, value, body)
        }
        TermKind::Quant(quantifier, binders, guard) => {
            let values = eval_guards(world, left, env, binders.slice(), guard)?;
            Ok(quantified(*quantifier, values.slice()))
        }
    }
}

/// The values of terms from left to right.
#[cycle(eval)]
fn eval_terms<S: Store>(
    world: &World<'_, S>,
    left: u32,
    env: &Env,
    terms: &[Rc<Term>],
) -> Result<Values, EvalError>
    requires { AreExactBy (world_in (machine_of world.now.model.now) (S.state world.now.store.now) world.now.input.now) left (places_of env.now) (plain_all terms.now) }
    ensures { Answers (λ vs. vs) result (values_by (world_in (machine_of world.now.model.now) (S.state world.now.store.now) world.now.input.now) left (places_of env.now) (plain_all terms.now)) }
{
    let mut values = Values::new(world.alloc);
    for term in terms {
        let value = eval_term(world, left, env, term)?;
        push(&mut values, value)?;
    }
    Ok(values)
}

fn push(values: &mut Values, value: Value) -> Result<(), AllocError>
    ensures { OnOk result (values.new ≡ values.old ++ value ∷ []) }
{
    values.push(value)
}

/// The value of a term where one more variable has a value.
#[cycle(eval)]
fn eval_with<S: Store>(
    world: &World<'_, S>,
    left: u32,
    env: &Env,
    variable: u32,
    value: Value,
    term: &Rc<Term>,
) -> Result<Value, EvalError>
    requires { IsExactBy (world_in (machine_of world.now.model.now) (S.state world.now.store.now) world.now.input.now) left (put variable (Const value) (places_of env.now)) (plain term.now.value) }
    ensures { Answers (λ v. v) result (value_by (world_in (machine_of world.now.model.now) (S.state world.now.store.now) world.now.input.now) left (put variable (Const value) (places_of env.now)) (plain term.now.value)) }
{
    let inner = env.value(variable, value)?;
    eval_term(world, left, &inner, term)
}

/// The value of a variable.
#[cycle(eval)]
fn eval_variable<S: Store>(
    world: &World<'_, S>,
    left: u32,
    env: &Env,
    variable: u32,
) -> Result<Value, EvalError>
    requires { each_by (world_in (machine_of world.now.model.now) (S.state world.now.store.now) world.now.input.now) left (places_of env.now) variable }
    ensures { Answers (λ v. v) result (reads_by (world_in (machine_of world.now.model.now) (S.state world.now.store.now) world.now.input.now) left (places_of env.now) variable) }
{
    match env.find(variable)? {
        Binding::Free => Ok(Value::Undef),
        Binding::Value(value) => Ok(value),
        Binding::Node(term) => {
            let empty = Env::new(world.alloc);
            eval_term(world, left, &empty, &term)
        }
        Binding::Actual(domain, term, caller) => {
            let value = eval_term(world, left, &caller, &term)?;
            Ok(within(world.model.signature().domains(), domain, value))
        }
    }
}

/// The value of a function at arguments.
#[cycle(eval)]
fn eval_read<S: Store>(
    world: &World<'_, S>,
    left: u32,
    number: u32,
    values: &[Value],
) -> Result<Value, EvalError>
    requires { let w = world_in (machine_of world.now.model.now) (S.state world.now.store.now) world.now.input.now in IsOfCall w (exact_within w left) number (slice_get w.machine.signature.functions number) values.now }
    ensures { let w = world_in (machine_of world.now.model.now) (S.state world.now.store.now) world.now.input.now in Answers (λ v. v) result (read w (calls_within w left) number (slice_get w.machine.signature.functions number) values.now) }
{
    let signature = world.model.signature();
    match signature.functions().item(number as usize) {
        Some(function) => {
            if !are_arguments(signature.domains(), function.domains.slice(), values) {
                return Ok(Value::Undef);
            }
            if function.kind.is_dynamic() {
                location_value(world, number, function, values)
            } else {
                eval_call(world, left, number, function, values)
            }
        }
        None => Ok(Value::Undef),
    }
}

/// The value of a static or derived function at arguments.
#[cycle(eval)]
fn eval_call<S: Store>(
    world: &World<'_, S>,
    left: u32,
    number: u32,
    function: &Function,
    values: &[Value],
) -> Result<Value, EvalError>
    requires function { slice_get (machine_of world.now.model.now).signature.functions number ≡ Some function.now }
    requires exact { exact_within (world_in (machine_of world.now.model.now) (S.state world.now.store.now) world.now.input.now) left number values.now }
    ensures { Answers (λ v. v) result (calls_within (world_in (machine_of world.now.model.now) (S.state world.now.store.now) world.now.input.now) left number values.now) }
{
    match world.model.definition(number) {
        Some(definition) => {
            if left == 0 {
                return Ok(Value::Undef);
            }
            let env = parameters(world.alloc, definition.variables.slice(), values)?;
            let value = eval_term(world, left - 1, &env, &definition.term)?;
            Ok(within(world.model.signature().domains(), function.codomain, value))
        }
        None => Ok(constant_of(world.model.signature().domains(), function)),
    }
}

/// The values of a guard for the tuples that binders stand for.
#[cycle(eval)]
fn eval_guards<S: Store>(
    world: &World<'_, S>,
    left: u32,
    env: &Env,
    binders: &[Binder],
    guard: &Rc<Term>,
) -> Result<Values, EvalError>
    requires { let w = world_in (machine_of world.now.model.now) (S.state world.now.store.now) world.now.input.now in (vs : List domain.Value) → Contains (tuples_of w.machine.signature binders.now) vs → IsExactBy w left (put_tuple binders.now vs (places_of env.now)) (plain guard.now.value) }
    ensures { let w = world_in (machine_of world.now.model.now) (S.state world.now.store.now) world.now.input.now in Answers (λ vs. vs) result (guard_values (λ vs. value_by w left (put_tuple binders.now vs (places_of env.now)) (plain guard.now.value)) (tuples_of w.machine.signature binders.now)) }
{
    let tuples = tuples_of(world.alloc, world.model.signature(), binders)?;
    let mut values = Values::new(world.alloc);
    for tuple in tuples.slice() {
        let value = eval_at(world, left, env, binders, tuple.slice(), guard)?;
        push(&mut values, value)?;
    }
    Ok(values)
}

/// The value of a term where the variables of binders have values.
#[cycle(eval)]
fn eval_at<S: Store>(
    world: &World<'_, S>,
    left: u32,
    env: &Env,
    binders: &[Binder],
    values: &[Value],
    term: &Rc<Term>,
) -> Result<Value, EvalError>
    requires { IsExactBy (world_in (machine_of world.now.model.now) (S.state world.now.store.now) world.now.input.now) left (put_tuple binders.now values.now (places_of env.now)) (plain term.now.value) }
    ensures { Answers (λ v. v) result (value_by (world_in (machine_of world.now.model.now) (S.state world.now.store.now) world.now.input.now) left (put_tuple binders.now values.now (places_of env.now)) (plain term.now.value)) }
{
    let inner = bound(env, binders, values)?;
    eval_term(world, left, &inner, term)
}
