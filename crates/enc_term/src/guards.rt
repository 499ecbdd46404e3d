//! Quantifiers over the groups of their guard.
ghost use Rattle.std.specs.Prelude.{◌≡◌, ℕ, ◌+◌, ◌*◌, ◌<◌, ◌≤◌, ◌++◌, ◌∷◌, [], length, map, OnOk, IfOk, Bool, List, not, ◌&&◌, if◌then◌else◌, get_or};
ghost use Rattle.std.specs.List.{list_any};
ghost use Rattle.cnf_base.specs.Clauses.{lit_true, clause_variables};
ghost use Rattle.cnf_gate.specs.Built.{Grows};
ghost use Rattle.asm_domain.specs.declared.value.Value as datum;
ghost use Rattle.asm_node.specs.Term.{Outcome, Gives, and_then, guard_values};
ghost use Rattle.asm_node.specs.Values.{quantified};
ghost use Rattle.enc_group.specs.Group.{Holds, Means, holds, values_in, group_variables};
ghost use Rattle.enc_group.specs.Binding.{group_at};
ghost use Rattle.enc_term.specs.Guards.{passes_test, lits_passing, any_passes, is_decided, exactly_one, is_odd, are_odd, answers_are, answer_values};

use asm_domain::Value;
use asm_node::Quantifier;
use cnf_base::Lit;
use cnf_gate::{Builder, GateError};
use enc_group::{Entry, ValueGroup, both, either, never};
use std::alloc::{AllocError, Global};

/// What is asked of a guard's value.
#[derive(Clone, Copy, Debug)]
pub enum Test {
    /// Whether it has one.
    IsGiven,
    /// Whether it is a truth value.
    IsTruth,
    /// Whether it is true.
    IsTrue,
}

/// Whether a value passes a test.
fn passes(test: Test, value: Value) -> bool
    ensures { result ≡ passes_test test value }
{
    match test {
        Test::IsGiven => true,
        Test::IsTruth => matches!(value, Value::Bool(_)),
        Test::IsTrue => matches!(value, Value::Bool(true)),
    }
}

fn push_if(lits: &mut Vec<Lit>, wanted: bool, lit: Lit) -> Result<(), AllocError>
    ensures { OnOk result (lits.new.items ≡ lits.old.items ++ (if wanted then lit ∷ [] else [])) }
{
    if wanted {
        lits.push(lit)?;
    }
    Ok(())
}

fn push_lit(lits: &mut Vec<Lit>, lit: Lit) -> Result<(), AllocError>
    ensures { OnOk result (lits.new.items ≡ lits.old.items ++ lit ∷ []) }
{
    lits.push(lit)?;
    Ok(())
}

/// The literals of the values that pass.
fn passing(alloc: Global, test: Test, group: &[Entry]) -> Result<Vec<Lit>, AllocError>
    ensures { IfOk result (λ ls. ls.items ≡ lits_passing test group.now) }
{
    let mut lits = Vec::new(alloc);
    for entry in group {
        push_if(&mut lits, passes(test, entry.value), entry.lit)?;
    }
    Ok(lits)
}

/// A literal that is true exactly where a value passes.
fn tested(
    alloc: Global,
    builder: &mut Builder,
    test: Test,
    group: &[Entry],
) -> Result<Lit, GateError>
    requires { group_variables group.now ≤ builder.old.count }
    ensures means { IfOk result (λ l. (v : ℕ → Bool) → Holds v builder.new → lit_true v l ≡ any_passes v test group.now) }
    ensures within { IfOk result (λ l. l.var < builder.new.count) }
    ensures grows { Grows builder.old builder.new [] [] }
{
    let lits = passing(alloc, test, group)?;
    let lit = builder.or(lits.as_slice())?;
    Ok(lit)
}

/// For each group a literal that is true exactly where a value passes.
fn tested_all(
    alloc: Global,
    builder: &mut Builder,
    test: Test,
    groups: &[ValueGroup],
) -> Result<Vec<Lit>, GateError>
    requires { (j : ℕ) → group_variables (group_at groups.now j) ≤ builder.old.count }
    ensures means { IfOk result (λ ls. (v : ℕ → Bool) → Holds v builder.new → map (lit_true v) ls.items ≡ map (any_passes v test) groups.now) }
    ensures within { IfOk result (λ ls. clause_variables ls.items ≤ builder.new.count) }
    ensures grows { Grows builder.old builder.new [] [] }
{
    let mut lits = Vec::new(alloc);
    for group in groups {
        let lit = tested(alloc, builder, test, group.slice())?;
        push_lit(&mut lits, lit)?;
    }
    Ok(lits)
}

/// A literal that is true exactly where one of the literals is, and no other: a running literal says whether one was
/// true so far.
fn one_alone(builder: &mut Builder, lits: &[Lit]) -> Result<Lit, GateError>
    requires { clause_variables lits.now ≤ builder.old.count }
    ensures means { IfOk result (λ l. (v : ℕ → Bool) → Holds v builder.new → lit_true v l ≡ exactly_one (map (lit_true v) lits.now)) }
    ensures within { IfOk result (λ l. l.var < builder.new.count) }
    ensures grows { Grows builder.old builder.new [] [] }
{
    let mut seen = never(builder)?;
    let mut twice = never(builder)?;
    for lit in lits {
        let again = both(builder, *lit, seen)?;
        twice = either(builder, twice, again)?;
        seen = either(builder, seen, *lit)?;
    }
    let lit = both(builder, seen, twice.negated())?;
    Ok(lit)
}

/// A literal that is true exactly where all literals are, one is, or exactly one is.
#[tactic(auto, using(crate::proofs::Guarding::all_decided, crate::proofs::Guarding::any_decided))]
fn decided(builder: &mut Builder, quantifier: Quantifier, lits: &[Lit]) -> Result<Lit, GateError>
    requires { clause_variables lits.now ≤ builder.old.count }
    ensures means { IfOk result (λ l. (v : ℕ → Bool) → Holds v builder.new → lit_true v l ≡ is_decided quantifier (map (lit_true v) lits.now)) }
    ensures within { IfOk result (λ l. l.var < builder.new.count) }
    ensures grows { Grows builder.old builder.new [] [] }
{
    match quantifier {
        Quantifier::Forall => builder.and(lits),
        Quantifier::Exist => builder.or(lits),
        Quantifier::ExistUnique => one_alone(builder, lits),
    }
}

/// Whether a group has a value that is no truth value.
fn has_odd(group: &[Entry]) -> bool
    ensures { result ≡ is_odd group.now }
{
    group
        .iter()
        .any(|entry| !passes(Test::IsTruth, entry.value))
}

/// Whether one of the groups has a value that is no truth value.
fn have_odd(groups: &[ValueGroup]) -> bool
    ensures { result ≡ are_odd groups.now }
{
    groups.iter().any(|group| has_odd(group.slice()))
}

fn push(entries: &mut ValueGroup, value: Value, lit: Lit) -> Result<(), AllocError>
    ensures { OnOk result (entries.new ≡ entries.old ++ (record { value = value; lit = lit }) ∷ []) }
{
    entries.push(Entry { value, lit })
}

/// The values of a quantifier with their literals: `undef` alone may be left out.
fn answers(
    alloc: Global,
    met: Lit,
    unmet: Lit,
    odd: Lit,
    with_odd: bool,
) -> Result<ValueGroup, AllocError>
    ensures { IfOk result (λ g. g ≡ answers_are met unmet odd with_odd) }
{
    let mut group = ValueGroup::new(alloc);
    push(&mut group, Value::Bool(true), met)?;
    push(&mut group, Value::Bool(false), unmet)?;
    if with_odd {
        push(&mut group, Value::Undef, odd)?;
    }
    Ok(group)
}

/// The value of a quantifier whose guard has these groups, by three gates for each of them, and six for a unique one.
pub fn quantify(
    alloc: Global,
    builder: &mut Builder,
    quantifier: Quantifier,
    groups: &[ValueGroup],
) -> Result<ValueGroup, GateError>
    requires { (j : ℕ) → group_variables (group_at groups.now j) ≤ builder.old.count }
    ensures means { IfOk result (λ g. (v : ℕ → Bool) → Holds v builder.new → (guard : List datum.Value → Outcome datum.Value) (tuples : List (List datum.Value)) → length groups.now ≡ length tuples → ((j : ℕ) (t : List datum.Value) → j < length tuples → t ≡ get_or tuples j t → Means v (group_at groups.now j) (guard t)) → Means v g (and_then (guard_values guard tuples) (λ vs. Gives (quantified quantifier vs)))) }
    ensures values { IfOk result (λ g. values_in g ≡ answer_values (are_odd groups.now)) }
    ensures within { IfOk result (λ g. group_variables g ≤ builder.new.count) }
    ensures grows { Grows builder.old builder.new [] [] }
{
    let givens = tested_all(alloc, builder, Test::IsGiven, groups)?;
    let truths = tested_all(alloc, builder, Test::IsTruth, groups)?;
    let trues = tested_all(alloc, builder, Test::IsTrue, groups)?;
    let given = builder.and(givens.as_slice())?;
    let known = builder.and(truths.as_slice())?;
    let decision = decided(builder, quantifier, trues.as_slice())?;
    let met = both(builder, known, decision)?;
    let unmet = both(builder, known, decision.negated())?;
    let odd = both(builder, given, known.negated())?;
    let group = answers(alloc, met, unmet, odd, have_odd(groups))?;
    Ok(group)
}
