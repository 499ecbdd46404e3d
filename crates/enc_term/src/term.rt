//! The groups of terms.
ghost use Rattle.std.specs.Prelude.{◌≡◌, ◌++◌, ◌∷◌, [], length, map, OnOk, IfOk, List, Some, slice_get};
ghost use Rattle.cnf_gate.specs.Built.{Grows};
ghost use Rattle.asm_domain.specs.declared.value.Value as datum;
ghost use Rattle.asm_node.specs.Env.{places_of};
ghost use Rattle.asm_node.specs.Machine.{tuples_of};
ghost use Rattle.asm_node.specs.Term.{put, put_tuple, read, calls_within, val, vals};
ghost use Rattle.asm_node.specs.Tree as tree;
ghost use Rattle.asm_node.specs.Tree.{plain, plain_all};
ghost use Rattle.asm_eval.specs.World.{value_by, values_by, reads_by};
ghost use Rattle.enc_group.specs.Group.{values_in};
ghost use Rattle.enc_group.specs.Tuple.{tuples_in};
ghost use Rattle.enc_term.specs.Can.{Has, can, can_in, all_can_in, cans_in, calls_can, read_can};
ghost use Rattle.enc_term.specs.Small.{StaysSmallIn, StayAllSmallIn, IsOfCall, small_within, each_in};
ghost use Rattle.enc_term.specs.Level.{TellsTerm, IsGroupOfTerm, IsSmallTerm, TellsRead, IsSmallRead, term_can, read_by, reads_can};
ghost use Rattle.enc_term.specs.Cycle.{IsReady, TellsIn, TellAllIn, TellEachIn, IsGroupOf, AreTuplesOf, machine_at};

use crate::bits::Context;
use crate::call::{call_group, inside};
use crate::forms::{choice, get_group, let_group};
use crate::guards::quantify;
use crate::operating::operate;
use crate::reading::read_group;
use asm_domain::Value;
use asm_eval::{bound, constant_of, parameters, tuples_of};
use asm_node::{Binder, Binding, Env, Op, Quantifier, Term, TermKind, Values, are_arguments};
use asm_sign::Function;
use cnf_gate::{Builder, GateError};
use enc_group::{Entry, Tuple, Tuples, ValueGroup, ValueGroups, constant, no_values, times};
use std::alloc::AllocError;
use std::rc::Rc;

/// How many definitions may stand inside one another.
const DEFINITIONS: u32 = 32;

/// Where a term is encoded: how deep it may still be nested, and how many definitions may still be entered.
#[derive(Clone, Copy)]
struct Level<'a> {
    context: &'a Context<'a>,
    depth: u32,
    left: u32,
}

/// The group of a term, whose variables stand for closed terms: in every assignment of the gates exactly the literal of
/// the term's value is true. It adds gates alone.
pub fn term_group(
    context: &Context<'_>,
    builder: &mut Builder,
    env: &Env,
    term: &Rc<Term>,
) -> Result<ValueGroup, GateError>
    requires bits { IsReady builder.old context.now }
    requires small { StaysSmallIn (machine_at context.now) 32 (places_of env.now) (plain term.now.value) }
    ensures means { IfOk result (λ g. TellsIn builder.new context.now g (λ w. val w (places_of env.now) (plain term.now.value))) }
    ensures group { IfOk result (λ g. IsGroupOf builder.new (can (machine_at context.now) (places_of env.now) (plain term.now.value)) g) }
    ensures grows { Grows builder.old builder.new [] [] }
{
    let level = Level {
        context,
        depth: u32::MAX,
        left: DEFINITIONS,
    };
    Ok(encode_term(&level, builder, env, term)?)
}

/// The tuples of values of terms: in every assignment of the gates exactly the literal of the terms' values is true.
pub fn term_tuples(
    context: &Context<'_>,
    builder: &mut Builder,
    env: &Env,
    terms: &[Rc<Term>],
) -> Result<Tuples, GateError>
    requires bits { IsReady builder.old context.now }
    requires small { StayAllSmallIn (machine_at context.now) 32 (places_of env.now) (plain_all terms.now) }
    ensures means { IfOk result (λ ts. TellAllIn builder.new context.now ts (λ w. vals w (places_of env.now) (plain_all terms.now))) }
    ensures tuples { IfOk result (λ ts. AreTuplesOf builder.new (all_can_in (machine_at context.now) 32 (places_of env.now) (plain_all terms.now)) ts) }
    ensures grows { Grows builder.old builder.new [] [] }
{
    let level = Level {
        context,
        depth: u32::MAX,
        left: DEFINITIONS,
    };
    Ok(encode_terms(&level, builder, env, terms)?)
}

fn add(groups: &mut ValueGroups, group: ValueGroup) -> Result<(), AllocError>
    ensures { OnOk result (groups.new ≡ groups.old ++ group ∷ []) }
{
    groups.push(group)
}

/// The group of a term. It is refused for want of memory where terms are nested deeper than `depth`.
#[cycle(encode)]
fn encode_term(
    level: &Level<'_>,
    builder: &mut Builder,
    env: &Env,
    term: &Rc<Term>,
) -> Result<ValueGroup, GateError>
    requires bits { IsReady builder.old level.now.context.now }
    requires small { IsSmallTerm level.now (places_of env.now) (plain term.now.value) }
    ensures means { IfOk result (λ g. TellsTerm builder.new level.now (places_of env.now) (plain term.now.value) g) }
    ensures group { IfOk result (λ g. IsGroupOfTerm builder.new level.now (places_of env.now) (plain term.now.value) g) }
    ensures grows { Grows builder.old builder.new [] [] }
{
    let depth = level.depth;
    if depth == 0 {
        return Err(GateError::Memory);
    }
    let level = &Level {
        context: level.context,
        depth: depth - 1,
        left: level.left,
    };
    match &term.kind {
        TermKind::Const(value) => Ok(constant(
            level.context.alloc,
            *value,
            level.context.bits.always,
        )?),
        TermKind::Var(variable) => Ok(encode_variable(level, builder, env, *variable)?),
        TermKind::Within(domain, term) => Ok(encode_within(level, builder, env, *domain, term)?),
        TermKind::Get(function, arguments) => Ok(encode_get(
            level,
            builder,
            env,
            *function,
            arguments.slice(),
        )?),
        TermKind::Oper(op, arguments) => Ok(encode_oper(
            level,
            builder,
            env,
            *op,
            arguments.slice(),
        )?),
        TermKind::Cond(guard, then_part, else_part) => Ok(encode_cond(
            level, builder, env, guard, then_part, else_part,
        )?),
        TermKind::Let(variable, bound, body) => Ok(encode_let(
            level, builder, env, *variable, bound, body,
        )?),
        TermKind::Quant(quantifier, binders, guard) => Ok(encode_quant(
            level,
            builder,
            env,
            *quantifier,
            binders.slice(),
            guard,
        )?),
    }
}

/// The group of what a variable stands for.
#[cycle(encode)]
fn encode_variable(
    level: &Level<'_>,
    builder: &mut Builder,
    env: &Env,
    variable: u32,
) -> Result<ValueGroup, GateError>
    requires bits { IsReady builder.old level.now.context.now }
    requires small { each_in (machine_at level.now.context.now) level.now.left (places_of env.now) variable }
    ensures means { IfOk result (λ g. TellsIn builder.new level.now.context.now g (λ w. reads_by w level.now.left (places_of env.now) variable)) }
    ensures group { IfOk result (λ g. IsGroupOf builder.new (cans_in (machine_at level.now.context.now) level.now.left (places_of env.now) variable) g) }
    ensures grows { Grows builder.old builder.new [] [] }
{
    match env.find(variable)? {
        Binding::Free => Ok(constant(
            level.context.alloc,
            Value::Undef,
            level.context.bits.always,
        )?),
        Binding::Value(value) => Ok(constant(
            level.context.alloc,
            value,
            level.context.bits.always,
        )?),
        Binding::Node(term) => {
            let empty = Env::new(level.context.alloc);
            Ok(encode_term(level, builder, &empty, &term)?)
        }
        Binding::Actual(domain, term, caller) => Ok(encode_within(
            level, builder, &caller, domain, &term,
        )?),
    }
}

/// The group of a term inside a domain.
#[cycle(encode)]
fn encode_within(
    level: &Level<'_>,
    builder: &mut Builder,
    env: &Env,
    domain: u32,
    term: &Rc<Term>,
) -> Result<ValueGroup, GateError>
    requires bits { IsReady builder.old level.now.context.now }
    requires small { IsSmallTerm level.now (places_of env.now) (plain term.now.value) }
    ensures means { IfOk result (λ g. TellsTerm builder.new level.now (places_of env.now) (tree.Within domain (plain term.now.value)) g) }
    ensures group { IfOk result (λ g. IsGroupOfTerm builder.new level.now (places_of env.now) (tree.Within domain (plain term.now.value)) g) }
    ensures grows { Grows builder.old builder.new [] [] }
{
    let group = encode_term(level, builder, env, term)?;
    let domains = level.context.model.signature().domains();
    Ok(inside(level.context.alloc, builder, domains, domain, group.slice())?)
}

/// The tuples of values of terms.
#[cycle(encode)]
fn encode_terms(
    level: &Level<'_>,
    builder: &mut Builder,
    env: &Env,
    terms: &[Rc<Term>],
) -> Result<Tuples, GateError>
    requires bits { IsReady builder.old level.now.context.now }
    requires small { StayAllSmallIn (machine_at level.now.context.now) level.now.left (places_of env.now) (plain_all terms.now) }
    ensures means { IfOk result (λ g. TellAllIn builder.new level.now.context.now g (λ w. values_by w level.now.left (places_of env.now) (plain_all terms.now))) }
    ensures tuples { IfOk result (λ ts. AreTuplesOf builder.new (all_can_in (machine_at level.now.context.now) level.now.left (places_of env.now) (plain_all terms.now)) ts) }
    ensures grows { Grows builder.old builder.new [] [] }
{
    let mut tuples = no_values(level.context.alloc, level.context.bits.always)?;
    for term in terms {
        let group = encode_term(level, builder, env, term)?;
        tuples = times(level.context.alloc, builder, tuples.slice(), group.slice())?;
    }
    Ok(tuples)
}

/// The group of a read.
#[cycle(encode)]
fn encode_get(
    level: &Level<'_>,
    builder: &mut Builder,
    env: &Env,
    number: u32,
    arguments: &[Rc<Term>],
) -> Result<ValueGroup, GateError>
    requires bits { IsReady builder.old level.now.context.now }
    requires small { IsSmallTerm level.now (places_of env.now) (tree.Get number (plain_all arguments.now)) }
    ensures means { IfOk result (λ g. TellsTerm builder.new level.now (places_of env.now) (tree.Get number (plain_all arguments.now)) g) }
    ensures group { IfOk result (λ g. IsGroupOfTerm builder.new level.now (places_of env.now) (tree.Get number (plain_all arguments.now)) g) }
    ensures grows { Grows builder.old builder.new [] [] }
{
    let tuples = encode_terms(level, builder, env, arguments)?;
    let results = encode_reads(level, builder, number, tuples.slice())?;
    Ok(get_group(
        level.context.alloc,
        builder,
        tuples.slice(),
        results.slice(),
    )?)
}

/// The groups of a function at tuples of arguments.
#[cycle(encode)]
fn encode_reads(
    level: &Level<'_>,
    builder: &mut Builder,
    number: u32,
    tuples: &[Tuple],
) -> Result<ValueGroups, GateError>
    requires bits { IsReady builder.old level.now.context.now }
    requires small { (vs : List datum.Value) → Has (tuples_in tuples.now) vs → IsSmallRead level.now number vs }
    ensures each { IfOk result (λ gs. (vss : List (List datum.Value)) → ((vs : List datum.Value) → Has (tuples_in tuples.now) vs → Has vss vs) → TellEachIn builder.new level.now.context.now tuples.now gs (λ t w. read_by level.now number t.values w) (λ t. reads_can level.now number vss)) }
    ensures grows { Grows builder.old builder.new [] [] }
{
    let mut groups = ValueGroups::new(level.context.alloc);
    for tuple in tuples {
        let group = encode_read(level, builder, number, tuple.values.slice())?;
        add(&mut groups, group)?;
    }
    Ok(groups)
}

/// The group of a function at arguments.
#[cycle(encode)]
fn encode_read(
    level: &Level<'_>,
    builder: &mut Builder,
    number: u32,
    values: &[Value],
) -> Result<ValueGroup, GateError>
    requires bits { IsReady builder.old level.now.context.now }
    requires small { IsSmallRead level.now number values.now }
    ensures means { IfOk result (λ g. TellsRead builder.new level.now number values.now g) }
    ensures group { IfOk result (λ g. (vss : List (List datum.Value)) → Has vss values.now → IsGroupOf builder.new (reads_can level.now number vss) g) }
    ensures grows { Grows builder.old builder.new [] [] }
{
    let signature = level.context.model.signature();
    match signature.functions().item(number as usize) {
        Some(function) => {
            if function.kind.is_dynamic() {
                return Ok(read_group(level.context, number, function, values)?);
            }
            if !are_arguments(signature.domains(), function.domains.slice(), values) {
                return Ok(constant(level.context.alloc, Value::Undef, level.context.bits.always)?);
            }
            Ok(encode_call(level, builder, number, function, values)?)
        }
        None => Ok(constant(level.context.alloc, Value::Undef, level.context.bits.always)?),
    }
}

/// The group of a static or derived function at arguments.
#[cycle(encode)]
fn encode_call(
    level: &Level<'_>,
    builder: &mut Builder,
    number: u32,
    function: &Function,
    values: &[Value],
) -> Result<ValueGroup, GateError>
    requires bits { IsReady builder.old level.now.context.now }
    requires function { slice_get (machine_at level.now.context.now).signature.functions number ≡ Some function.now }
    requires small { small_within (machine_at level.now.context.now) level.now.left number values.now }
    ensures means { IfOk result (λ g. TellsIn builder.new level.now.context.now g (λ w. calls_within w level.now.left number values.now)) }
    ensures group { IfOk result (λ g. IsGroupOf builder.new (calls_can (machine_at level.now.context.now) level.now.left number values.now) g) }
    ensures grows { Grows builder.old builder.new [] [] }
{
    let domains = level.context.model.signature().domains();
    match level.context.model.definition(number) {
        Some(definition) => {
            let left = level.left;
            if left == 0 {
                return Ok(constant(level.context.alloc, Value::Undef, level.context.bits.always)?);
            }
            let env = parameters(level.context.alloc, definition.variables.slice(), values)?;
            let inner = Level {
                context: level.context,
                depth: level.depth,
                left: left - 1,
            };
            let body = encode_term(&inner, builder, &env, &definition.term)?;
            Ok(call_group(
                level.context.alloc,
                builder,
                domains,
                function.codomain,
                body.slice(),
            )?)
        }
        None => {
            let value = constant_of(domains, function);
            Ok(constant(level.context.alloc, value, level.context.bits.always)?)
        }
    }
}

/// The group of an operator.
#[cycle(encode)]
fn encode_oper(
    level: &Level<'_>,
    builder: &mut Builder,
    env: &Env,
    op: Op,
    arguments: &[Rc<Term>],
) -> Result<ValueGroup, GateError>
    requires bits { IsReady builder.old level.now.context.now }
    requires small { IsSmallTerm level.now (places_of env.now) (tree.Oper op (plain_all arguments.now)) }
    ensures means { IfOk result (λ g. TellsTerm builder.new level.now (places_of env.now) (tree.Oper op (plain_all arguments.now)) g) }
    ensures group { IfOk result (λ g. IsGroupOfTerm builder.new level.now (places_of env.now) (tree.Oper op (plain_all arguments.now)) g) }
    ensures grows { Grows builder.old builder.new [] [] }
{
    let tuples = encode_terms(level, builder, env, arguments)?;
    Ok(operate(level.context.alloc, builder, op, tuples.slice())?)
}

/// The group of a conditional.
#[cycle(encode)]
fn encode_cond(
    level: &Level<'_>,
    builder: &mut Builder,
    env: &Env,
    guard: &Rc<Term>,
    then_part: &Rc<Term>,
    else_part: &Rc<Term>,
) -> Result<ValueGroup, GateError>
    requires bits { IsReady builder.old level.now.context.now }
    requires small { IsSmallTerm level.now (places_of env.now) (tree.Cond (plain guard.now.value) (plain then_part.now.value) (plain else_part.now.value)) }
    ensures means { IfOk result (λ g. TellsTerm builder.new level.now (places_of env.now) (tree.Cond (plain guard.now.value) (plain then_part.now.value) (plain else_part.now.value)) g) }
    ensures group { IfOk result (λ g. IsGroupOfTerm builder.new level.now (places_of env.now) (tree.Cond (plain guard.now.value) (plain then_part.now.value) (plain else_part.now.value)) g) }
    ensures grows { Grows builder.old builder.new [] [] }
{
    let keys = encode_term(level, builder, env, guard)?;
    let first = encode_term(level, builder, env, then_part)?;
    let second = encode_term(level, builder, env, else_part)?;
    let other = constant(level.context.alloc, Value::Undef, level.context.bits.always)?;
    Ok(choice(
        level.context.alloc,
        builder,
        keys.slice(),
        first.slice(),
        second.slice(),
        other.slice(),
    )?)
}

/// The group of a `let`.
#[cycle(encode)]
fn encode_let(
    level: &Level<'_>,
    builder: &mut Builder,
    env: &Env,
    variable: u32,
    term: &Rc<Term>,
    body: &Rc<Term>,
) -> Result<ValueGroup, GateError>
    requires bits { IsReady builder.old level.now.context.now }
    requires small { IsSmallTerm level.now (places_of env.now) (tree.Let variable (plain term.now.value) (plain body.now.value)) }
    ensures means { IfOk result (λ g. TellsTerm builder.new level.now (places_of env.now) (tree.Let variable (plain term.now.value) (plain body.now.value)) g) }
    ensures group { IfOk result (λ g. IsGroupOfTerm builder.new level.now (places_of env.now) (tree.Let variable (plain term.now.value) (plain body.now.value)) g) }
    ensures grows { Grows builder.old builder.new [] [] }
{
    let keys = encode_term(level, builder, env, term)?;
    let bodies = encode_bodies(level, builder, env, variable, keys.slice(), body)?;
    Ok(let_group(level.context.alloc, builder, keys.slice(), bodies.slice())?)
}

/// The groups of a term where a variable has each value of a group.
#[cycle(encode)]
fn encode_bodies(
    level: &Level<'_>,
    builder: &mut Builder,
    env: &Env,
    variable: u32,
    keys: &[Entry],
    body: &Rc<Term>,
) -> Result<ValueGroups, GateError>
    requires bits { IsReady builder.old level.now.context.now }
    requires small { (v : datum.Value) → Has (values_in keys.now) v → IsSmallTerm level.now (put variable (tree.Const v) (places_of env.now)) (plain body.now.value) }
    ensures each { IfOk result (λ gs. TellEachIn builder.new level.now.context.now keys.now gs (λ k w. value_by w level.now.left (put variable (tree.Const k.value) (places_of env.now)) (plain body.now.value)) (λ k. term_can level.now (put variable (tree.Const k.value) (places_of env.now)) (plain body.now.value))) }
    ensures grows { Grows builder.old builder.new [] [] }
{
    let mut groups = ValueGroups::new(level.context.alloc);
    for key in keys {
        let inner = env.value(variable, key.value)?;
        let group = encode_term(level, builder, &inner, body)?;
        add(&mut groups, group)?;
    }
    Ok(groups)
}

/// The group of a quantifier.
#[cycle(encode)]
fn encode_quant(
    level: &Level<'_>,
    builder: &mut Builder,
    env: &Env,
    quantifier: Quantifier,
    binders: &[Binder],
    guard: &Rc<Term>,
) -> Result<ValueGroup, GateError>
    requires bits { IsReady builder.old level.now.context.now }
    requires small { IsSmallTerm level.now (places_of env.now) (tree.Quant quantifier binders.now (plain guard.now.value)) }
    ensures means { IfOk result (λ g. TellsTerm builder.new level.now (places_of env.now) (tree.Quant quantifier binders.now (plain guard.now.value)) g) }
    ensures group { IfOk result (λ g. IsGroupOfTerm builder.new level.now (places_of env.now) (tree.Quant quantifier binders.now (plain guard.now.value)) g) }
    ensures grows { Grows builder.old builder.new [] [] }
{
    let tuples = tuples_of(
        level.context.alloc,
        level.context.model.signature(),
        binders,
    )?;
    let groups = encode_guards(level, builder, env, binders, tuples.slice(), guard)?;
    Ok(quantify(level.context.alloc, builder, quantifier, groups.slice())?)
}

/// The groups of a guard at tuples.
#[cycle(encode)]
fn encode_guards(
    level: &Level<'_>,
    builder: &mut Builder,
    env: &Env,
    binders: &[Binder],
    tuples: &[Values],
    guard: &Rc<Term>,
) -> Result<ValueGroups, GateError>
    requires bits { IsReady builder.old level.now.context.now }
    requires small { (vs : List datum.Value) → Has tuples.now vs → IsSmallTerm level.now (put_tuple binders.now vs (places_of env.now)) (plain guard.now.value) }
    ensures each { IfOk result (λ gs. TellEachIn builder.new level.now.context.now tuples.now gs (λ vs w. value_by w level.now.left (put_tuple binders.now vs (places_of env.now)) (plain guard.now.value)) (λ vs. term_can level.now (put_tuple binders.now vs (places_of env.now)) (plain guard.now.value))) }
    ensures grows { Grows builder.old builder.new [] [] }
{
    let mut groups = ValueGroups::new(level.context.alloc);
    for tuple in tuples {
        let inner = bound(env, binders, tuple.slice())?;
        let group = encode_term(level, builder, &inner, guard)?;
        add(&mut groups, group)?;
    }
    Ok(groups)
}
