//! Taking rules.
ghost use Rattle.std.specs.Prelude.{◌≡◌, ℕ, ◌<◌, List, [], ◌∷◌, ◌++◌, IfOk, Contains, length};
ghost use Rattle.std.specs.FinSet as set;
ghost use Rattle.asm_domain.specs.declared.value.Value as domain;
ghost use Rattle.asm_node.specs.declared.path.Step.TheVariants.{Bound, Part, Called};
ghost use Rattle.asm_node.specs.Env.{places_of};
ghost use Rattle.asm_node.specs.Machine.{tuples_of};
ghost use Rattle.asm_node.specs.Model.{machine_of};
ghost use Rattle.asm_node.specs.RuleTree.{plain_rule, plain_rules};
ghost use Rattle.asm_node.specs.Step.{IsState};
ghost use Rattle.asm_node.specs.Taking.{taken, taken_all, bodies_within, outcome, and_then, after_set, fired, guarded, each, stand_for};
ghost use Rattle.asm_node.specs.Term.{nowhere, put, put_tuple, val};
ghost use Rattle.asm_node.specs.Tree.{Const, plain, plain_all};
ghost use Rattle.asm_eval.specs.World.{world_in};
ghost use Rattle.asm_fire.specs.Chooser.{FiresBy, Stay, step_of};
ghost use Rattle.asm_fire.specs.Sound.{IsSound, IsSoundIn, AreSoundIn, sound_within, IsEverExact, AreKept};

use crate::candidates::{candidates, guard_of};
use crate::chooser::{Chooser, Entry};
use crate::error::FireError;
use crate::join::join;
use crate::update::fire_update;
use asm_domain::Value;
use asm_eval::{World, bound, eval_in, tuples_of};
use asm_node::{Binder, Env, Input, Model, Rule, RuleKind, Term, Values};
use asm_source::Place;
use asm_state::Store;
use asm_update::Updates;
use std::alloc::{AllocError, Global};
use std::rc::Rc;

/// How many macro rules may stand inside one another.
const RULES: u32 = 32;

/// The update set of a rule without free variables, or its first fault, where its choices are made by a chooser.
pub fn fire_by<S: Store, C: Chooser>(
    alloc: Global,
    model: &Model,
    store: &S,
    input: &Input,
    chooser: &mut C,
    rule: &Rc<Rule>,
) -> Result<Updates, FireError>
    requires state { IsState (machine_of model.now) (S.state store.now) }
    requires sound { IsSound (machine_of model.now) input.now (plain_rule rule.now.value) }
    ensures fires { FiresBy (C.ways chooser.old) result (C.words chooser.new) (λ pick path. taken pick (bodies_within pick 32) path (world_in (machine_of model.now) (S.state store.now) input.now) nowhere (plain_rule rule.now.value) (C.words chooser.old)) }
    ensures kept { C.kept chooser.new ≡ C.kept chooser.old }
{
    let world = World {
        alloc,
        model,
        store,
        input,
    };
    let env = Env::new(alloc);
    fire_rule(&world, RULES, &env, chooser, rule)
}

#[cycle(fire)]
fn fire_rule<S: Store, C: Chooser>(
    world: &World<'_, S>,
    count: u32,
    env: &Env,
    chooser: &mut C,
    rule: &Rc<Rule>,
) -> Result<Updates, FireError>
    requires { IsSoundIn (machine_of world.now.model.now) world.now.input.now (sound_within (machine_of world.now.model.now) world.now.input.now count) (places_of env.now) (plain_rule rule.now.value) }
    ensures fires { FiresBy (C.ways chooser.old) result (C.words chooser.new) (λ pick path. taken pick (bodies_within pick count) (path) (world_in (machine_of world.now.model.now) (S.state world.now.store.now) world.now.input.now) (places_of env.now) (plain_rule rule.now.value) (C.words chooser.old)) }
    ensures stays { IfOk result (λ _. Stay (C.ways chooser.old) (C.ways chooser.new)) }
    ensures kept { C.kept chooser.new ≡ C.kept chooser.old }
{
    match &rule.kind {
        RuleKind::Skip(_) => Ok(Updates::new(world.alloc)),
        RuleKind::Update(place, function, arguments, value) => {
            fire_update(world, env, *place, *function, arguments.slice(), value)
        }
        RuleKind::Par(_, rules) => fire_all(world, count, env, chooser, rules.slice()),
        RuleKind::Seq(_, first, second) => {
            let updates = fire_part(world, count, env, chooser, Entry::Part(0), first)?;
            fire_after(world, count, env, chooser, updates, second)
        }
        RuleKind::If(place, guard, then_part, else_part) => {
            let holds = guard_of(world, env, *place, guard)?;
            if holds {
                fire_part(world, count, env, chooser, Entry::Part(0), then_part)
            } else {
                fire_part(world, count, env, chooser, Entry::Part(1), else_part)
            }
        }
        RuleKind::Let(_, variable, term, body) => {
            let value = eval_in(world, env, term)?;
            fire_with(world, count, env, chooser, *variable, value, body)
        }
        RuleKind::Forall(place, binders, guard, body) => {
            fire_forall(
                world,
                count,
                env,
                chooser,
                *place,
                binders.slice(),
                guard,
                body,
            )
        }
        RuleKind::Choose(place, binders, guard, body, otherwise) => {
            let tuples = tuples_of(world.alloc, world.model.signature(), binders.slice())?;
            let found = candidates(world, env, *place, binders.slice(), guard, tuples.slice())?;
            if found.is_empty() {
                fire_part(world, count, env, chooser, Entry::Part(1), otherwise)
            } else {
                fire_chosen(
                    world,
                    count,
                    env,
                    chooser,
                    *place,
                    binders.slice(),
                    found.slice(),
                    body,
                )
            }
        }
        RuleKind::Call(_, number, actuals) => {
            fire_call(world, count, env, chooser, *number, actuals.slice())
        }
    }
}

/// A part of a rule.
#[cycle(fire)]
fn fire_part<S: Store, C: Chooser>(
    world: &World<'_, S>,
    count: u32,
    env: &Env,
    chooser: &mut C,
    step: Entry<'_>,
    rule: &Rc<Rule>,
) -> Result<Updates, FireError>
    requires { IsSoundIn (machine_of world.now.model.now) world.now.input.now (sound_within (machine_of world.now.model.now) world.now.input.now count) (places_of env.now) (plain_rule rule.now.value) }
    ensures fires { FiresBy (C.ways chooser.old) result (C.words chooser.new) (λ pick path. taken pick (bodies_within pick count) (path ++ step_of step.entry ∷ []) (world_in (machine_of world.now.model.now) (S.state world.now.store.now) world.now.input.now) (places_of env.now) (plain_rule rule.now.value) (C.words chooser.old)) }
    ensures stays { IfOk result (λ _. Stay (C.ways chooser.old) (C.ways chooser.new)) }
    ensures kept { C.kept chooser.new ≡ C.kept chooser.old }
{
    chooser.enter(step)?;
    let updates = fire_rule(world, count, env, chooser, rule)?;
    chooser.leave();
    Ok(updates)
}

/// A rule where one more variable has a value.
#[cycle(fire)]
fn fire_with<S: Store, C: Chooser>(
    world: &World<'_, S>,
    count: u32,
    env: &Env,
    chooser: &mut C,
    variable: u32,
    value: Value,
    rule: &Rc<Rule>,
) -> Result<Updates, FireError>
    requires { IsSoundIn (machine_of world.now.model.now) world.now.input.now (sound_within (machine_of world.now.model.now) world.now.input.now count) (put variable (Const value) (places_of env.now)) (plain_rule rule.now.value) }
    ensures fires { FiresBy (C.ways chooser.old) result (C.words chooser.new) (λ pick path. taken pick (bodies_within pick count) (path ++ Bound (value ∷ []) ∷ []) (world_in (machine_of world.now.model.now) (S.state world.now.store.now) world.now.input.now) (put variable (Const value) (places_of env.now)) (plain_rule rule.now.value) (C.words chooser.old)) }
    ensures stays { IfOk result (λ _. Stay (C.ways chooser.old) (C.ways chooser.new)) }
    ensures kept { C.kept chooser.new ≡ C.kept chooser.old }
{
    let inner = env.value(variable, value)?;
    fire_part(world, count, &inner, chooser, Entry::Bound(&[value]), rule)
}

/// A rule where the variables of binders have values.
#[cycle(fire)]
fn fire_bound<S: Store, C: Chooser>(
    world: &World<'_, S>,
    count: u32,
    env: &Env,
    chooser: &mut C,
    binders: &[Binder],
    values: &[Value],
    rule: &Rc<Rule>,
) -> Result<Updates, FireError>
    requires { IsSoundIn (machine_of world.now.model.now) world.now.input.now (sound_within (machine_of world.now.model.now) world.now.input.now count) (put_tuple binders.now values.now (places_of env.now)) (plain_rule rule.now.value) }
    ensures fires { FiresBy (C.ways chooser.old) result (C.words chooser.new) (λ pick path. taken pick (bodies_within pick count) (path ++ Bound values.now ∷ []) (world_in (machine_of world.now.model.now) (S.state world.now.store.now) world.now.input.now) (put_tuple binders.now values.now (places_of env.now)) (plain_rule rule.now.value) (C.words chooser.old)) }
    ensures stays { IfOk result (λ _. Stay (C.ways chooser.old) (C.ways chooser.new)) }
    ensures kept { C.kept chooser.new ≡ C.kept chooser.old }
{
    let inner = bound(env, binders, values)?;
    fire_part(world, count, &inner, chooser, Entry::Bound(values), rule)
}

/// The body for the candidate that the next word gives.
#[cycle(fire)]
fn fire_chosen<S: Store, C: Chooser>(
    world: &World<'_, S>,
    count: u32,
    env: &Env,
    chooser: &mut C,
    place: Place,
    binders: &[Binder],
    found: &[Values],
    body: &Rc<Rule>,
) -> Result<Updates, FireError>
    requires some { 0 < length found.now }
    requires sound { (vs : List domain.Value) → Contains found.now vs → IsSoundIn (machine_of world.now.model.now) world.now.input.now (sound_within (machine_of world.now.model.now) world.now.input.now count) (put_tuple binders.now vs (places_of env.now)) (plain_rule body.now.value) }
    ensures fires { FiresBy (C.ways chooser.old) result (C.words chooser.new) (λ pick path. and_then (pick path place found.now (C.words chooser.old)) (λ vs ws. taken pick (bodies_within pick count) (path ++ Bound vs ∷ []) (world_in (machine_of world.now.model.now) (S.state world.now.store.now) world.now.input.now) (put_tuple binders.now vs (places_of env.now)) (plain_rule body.now.value) (ws))) }
    ensures stays { IfOk result (λ _. Stay (C.ways chooser.old) (C.ways chooser.new)) }
    ensures kept { C.kept chooser.new ≡ C.kept chooser.old }
{
    let number = chooser.choose(place, found)?;
    let tuple = &found[number];
    fire_bound(world, count, env, chooser, binders, tuple.slice(), body)
}

/// The second part of a `seq`, after the first part's set.
#[cycle(fire)]
fn fire_after<S: Store, C: Chooser>(
    world: &World<'_, S>,
    count: u32,
    env: &Env,
    chooser: &mut C,
    first: Updates,
    second: &Rc<Rule>,
) -> Result<Updates, FireError>
    requires sound { IsSoundIn (machine_of world.now.model.now) world.now.input.now (sound_within (machine_of world.now.model.now) world.now.input.now count) (places_of env.now) (plain_rule second.now.value) }
    requires kept { AreKept (machine_of world.now.model.now) first }
    ensures fires { FiresBy (C.ways chooser.old) result (C.words chooser.new) (λ pick path. after_set first (C.words chooser.old) (λ ws. taken pick (bodies_within pick count) (path ++ Part 1 ∷ []) (fired (world_in (machine_of world.now.model.now) (S.state world.now.store.now) world.now.input.now) first) (places_of env.now) (plain_rule second.now.value) ws)) }
    ensures stays { IfOk result (λ _. Stay (C.ways chooser.old) (C.ways chooser.new)) }
    ensures kept { C.kept chooser.new ≡ C.kept chooser.old }
{
    if first.clash(world.model.signature()).is_some() {
        return Ok(first);
    }
    let mut store = world.store.copy()?;
    first.apply(&mut store);
    let after = World {
        alloc: world.alloc,
        model: world.model,
        store: &store,
        input: world.input,
    };
    let later = fire_part(&after, count, env, chooser, Entry::Part(1), second)?;
    let mut updates = first;
    updates.override_by(&later)?;
    Ok(updates)
}

/// The union of the sets of the parts.
#[cycle(fire)]
fn fire_all<S: Store, C: Chooser>(
    world: &World<'_, S>,
    count: u32,
    env: &Env,
    chooser: &mut C,
    rules: &[Rc<Rule>],
) -> Result<Updates, FireError>
    requires { AreSoundIn (machine_of world.now.model.now) world.now.input.now (sound_within (machine_of world.now.model.now) world.now.input.now count) (places_of env.now) (plain_rules rules.now) }
    ensures fires { FiresBy (C.ways chooser.old) result (C.words chooser.new) (λ pick path. taken_all pick (bodies_within pick count) path 0 (world_in (machine_of world.now.model.now) (S.state world.now.store.now) world.now.input.now) (places_of env.now) (plain_rules rules.now) set.empty (C.words chooser.old)) }
    ensures stays { IfOk result (λ _. Stay (C.ways chooser.old) (C.ways chooser.new)) }
    ensures kept { C.kept chooser.new ≡ C.kept chooser.old }
{
    let mut all = Updates::new(world.alloc);
    for number in 0..rules.len() {
        let rule = &rules[number];
        let updates = fire_part(world, count, env, chooser, Entry::Part(number), rule)?;
        join(&mut all, &updates)?;
    }
    Ok(all)
}

/// The union of the sets of the instances.
#[cycle(fire)]
fn fire_forall<S: Store, C: Chooser>(
    world: &World<'_, S>,
    count: u32,
    env: &Env,
    chooser: &mut C,
    place: Place,
    binders: &[Binder],
    guard: &Rc<Term>,
    body: &Rc<Rule>,
) -> Result<Updates, FireError>
    requires { (vs : List domain.Value) → Contains (tuples_of (machine_of world.now.model.now).signature binders.now) vs → IsEverExact (machine_of world.now.model.now) world.now.input.now (put_tuple binders.now vs (places_of env.now)) (plain guard.now.value) × IsSoundIn (machine_of world.now.model.now) world.now.input.now (sound_within (machine_of world.now.model.now) world.now.input.now count) (put_tuple binders.now vs (places_of env.now)) (plain_rule body.now.value) }
    ensures fires { FiresBy (C.ways chooser.old) result (C.words chooser.new) (λ pick path. each (λ vs ws. guarded place (val (world_in (machine_of world.now.model.now) (S.state world.now.store.now) world.now.input.now) (put_tuple binders.now vs (places_of env.now)) (plain guard.now.value)) (taken pick (bodies_within pick count) (path ++ Bound vs ∷ []) (world_in (machine_of world.now.model.now) (S.state world.now.store.now) world.now.input.now) (put_tuple binders.now vs (places_of env.now)) (plain_rule body.now.value) (ws)) ws) (tuples_of (machine_of world.now.model.now).signature binders.now) set.empty (C.words chooser.old)) }
    ensures stays { IfOk result (λ _. Stay (C.ways chooser.old) (C.ways chooser.new)) }
    ensures kept { C.kept chooser.new ≡ C.kept chooser.old }
{
    let tuples = tuples_of(world.alloc, world.model.signature(), binders)?;
    let mut all = Updates::new(world.alloc);
    for tuple in tuples.slice() {
        let updates = fire_at(
            world,
            count,
            env,
            chooser,
            place,
            binders,
            tuple.slice(),
            guard,
            body,
        )?;
        join(&mut all, &updates)?;
    }
    Ok(all)
}

/// The set of the instance for one tuple.
#[cycle(fire)]
fn fire_at<S: Store, C: Chooser>(
    world: &World<'_, S>,
    count: u32,
    env: &Env,
    chooser: &mut C,
    place: Place,
    binders: &[Binder],
    values: &[Value],
    guard: &Rc<Term>,
    body: &Rc<Rule>,
) -> Result<Updates, FireError>
    requires guard { IsEverExact (machine_of world.now.model.now) world.now.input.now (put_tuple binders.now values.now (places_of env.now)) (plain guard.now.value) }
    requires body { IsSoundIn (machine_of world.now.model.now) world.now.input.now (sound_within (machine_of world.now.model.now) world.now.input.now count) (put_tuple binders.now values.now (places_of env.now)) (plain_rule body.now.value) }
    ensures fires { FiresBy (C.ways chooser.old) result (C.words chooser.new) (λ pick path. guarded place (val (world_in (machine_of world.now.model.now) (S.state world.now.store.now) world.now.input.now) (put_tuple binders.now values.now (places_of env.now)) (plain guard.now.value)) (taken pick (bodies_within pick count) (path ++ Bound values.now ∷ []) (world_in (machine_of world.now.model.now) (S.state world.now.store.now) world.now.input.now) (put_tuple binders.now values.now (places_of env.now)) (plain_rule body.now.value) (C.words chooser.old)) (C.words chooser.old)) }
    ensures stays { IfOk result (λ _. Stay (C.ways chooser.old) (C.ways chooser.new)) }
    ensures kept { C.kept chooser.new ≡ C.kept chooser.old }
{
    let inner = bound(env, binders, values)?;
    fire_guarded(world, count, &inner, chooser, place, values, guard, body)
}

/// A body under bound values where its guard is true.
#[cycle(fire)]
fn fire_guarded<S: Store, C: Chooser>(
    world: &World<'_, S>,
    count: u32,
    env: &Env,
    chooser: &mut C,
    place: Place,
    values: &[Value],
    guard: &Rc<Term>,
    body: &Rc<Rule>,
) -> Result<Updates, FireError>
    requires guard { IsEverExact (machine_of world.now.model.now) world.now.input.now (places_of env.now) (plain guard.now.value) }
    requires body { IsSoundIn (machine_of world.now.model.now) world.now.input.now (sound_within (machine_of world.now.model.now) world.now.input.now count) (places_of env.now) (plain_rule body.now.value) }
    ensures fires { FiresBy (C.ways chooser.old) result (C.words chooser.new) (λ pick path. guarded place (val (world_in (machine_of world.now.model.now) (S.state world.now.store.now) world.now.input.now) (places_of env.now) (plain guard.now.value)) (taken pick (bodies_within pick count) (path ++ Bound values.now ∷ []) (world_in (machine_of world.now.model.now) (S.state world.now.store.now) world.now.input.now) (places_of env.now) (plain_rule body.now.value) (C.words chooser.old)) (C.words chooser.old)) }
    ensures stays { IfOk result (λ _. Stay (C.ways chooser.old) (C.ways chooser.new)) }
    ensures kept { C.kept chooser.new ≡ C.kept chooser.old }
{
    let holds = guard_of(world, env, place, guard)?;
    if holds {
        fire_part(world, count, env, chooser, Entry::Bound(values), body)
    } else {
        Ok(Updates::new(world.alloc))
    }
}

/// The set of a macro rule's body.
#[cycle(fire)]
fn fire_call<S: Store, C: Chooser>(
    world: &World<'_, S>,
    count: u32,
    env: &Env,
    chooser: &mut C,
    number: u32,
    actuals: &[Rc<Term>],
) -> Result<Updates, FireError>
    requires { sound_within (machine_of world.now.model.now) world.now.input.now count number (places_of env.now) (plain_all actuals.now) }
    ensures fires { FiresBy (C.ways chooser.old) result (C.words chooser.new) (λ pick path. bodies_within pick count number (path ++ Called number ∷ []) (world_in (machine_of world.now.model.now) (S.state world.now.store.now) world.now.input.now) (places_of env.now) (plain_all actuals.now) (C.words chooser.old)) }
    ensures stays { IfOk result (λ _. Stay (C.ways chooser.old) (C.ways chooser.new)) }
    ensures kept { C.kept chooser.new ≡ C.kept chooser.old }
{
    if count == 0 {
        return Ok(Updates::new(world.alloc));
    }
    match world.model.rule(number) {
        Some(called) => {
            let inner = standing_for(world.alloc, called.parameters.slice(), actuals, env)?;
            fire_part(
                world,
                count - 1,
                &inner,
                chooser,
                Entry::Called(number),
                &called.body,
            )
        }
        None => Ok(Updates::new(world.alloc)),
    }
}

/// The environment in which parameters stand for the actual terms, which are closed by the caller's variables.
fn standing_for(
    alloc: Global,
    parameters: &[Binder],
    actuals: &[Rc<Term>],
    caller: &Env,
) -> Result<Env, AllocError>
    ensures { IfOk result (λ env. places_of env ≡ stand_for parameters.now (places_of caller.now) (plain_all actuals.now)) }
{
    let mut env = Env::new(alloc);
    let mut left = parameters.len().min(actuals.len());
    while left > 0 {
        left -= 1;
        let parameter = parameters[left];
        env = env.actual(parameter.variable, parameter.domain, &actuals[left], caller)?;
    }
    Ok(env)
}
