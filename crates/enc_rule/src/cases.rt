//! Rules that are taken once for each value of a term.
ghost use Rattle.std.specs.Prelude.{◌≡◌, ℕ, ◌+◌, ◌*◌, ◌<◌, ◌≤◌, [], length, IfOk, Bool, not, ◌||◌};
ghost use Rattle.std.specs.List.{list_any};
ghost use Rattle.asm_source.specs.declared.sources.Place.{Place};
ghost use Rattle.asm_domain.specs.declared.value.Value as datum;
ghost use Rattle.asm_node.specs.RuleTree as tree;
ghost use Rattle.asm_node.specs.Tree.{Tree};
ghost use Rattle.asm_node.specs.Term.{val};
ghost use Rattle.cnf_base.specs.Clauses.{lit_true, clause_variables};
ghost use Rattle.cnf_gate.specs.Built.{Grows, size_of};
ghost use Rattle.cnf_gate.specs.Limits.{IsOverLimit, OnTooLarge};
ghost use Rattle.enc_group.specs.Group.{Holds, Means, group_variables};
ghost use Rattle.enc_rule.specs.Rules.{Setting, MeansRule, taken_if, let_given, cases_given};
ghost use Rattle.enc_update.specs.Updates.{Taken, Takes, TakesEach, faults_of, pair_variables, pairs_of};

use cnf_base::Lit;
use cnf_gate::{Builder, GateError};
use enc_group::{Entry, both, either};
use enc_update::{UpdateBits, all_updates, lits_of, pairs_under};
use std::alloc::Global;

/// What a rule gives where a literal is true, and the empty set where it is false. It adds one gate for each pair, and one.
pub fn case_updates(
    alloc: Global,
    builder: &mut Builder,
    key: Lit,
    body: &UpdateBits,
) -> Result<UpdateBits, GateError>
    requires key { key.var < builder.old.count }
    requires pairs { pair_variables body.now.pairs ≤ builder.old.count }
    requires fault { body.now.fault.var < builder.old.count }
    ensures means { IfOk result (λ r. (v : ℕ → Bool) → Holds v builder.new → (a : Taken) → Takes v body.now.pairs body.now.fault a → Takes v r.pairs r.fault (taken_if (lit_true v key) a)) }
    ensures long { IfOk result (λ r. length r.pairs ≡ length body.now.pairs) }
    ensures within { IfOk result (λ r. pair_variables r.pairs ≤ builder.new.count) }
    ensures fault { IfOk result (λ r. r.fault.var < builder.new.count) }
    ensures grows { Grows builder.old builder.new [] [] }
    ensures count { builder.new.count ≤ builder.old.count + length body.now.pairs + 1 }
    ensures size { size_of builder.new ≤ size_of builder.old + 7 * length body.now.pairs + 7 }
    ensures too_large { OnTooLarge result (IsOverLimit (builder.old.count + length body.now.pairs + 1) (size_of builder.old + 7 * length body.now.pairs + 7)) }
{
    let fault = both(builder, key, body.fault)?;
    let pairs = pairs_under(alloc, builder, key, body.pairs.slice())?;
    Ok(UpdateBits { pairs, fault })
}

/// A literal that is true where no value of a group is, or a rule ends in a fault.
fn missing_or(
    alloc: Global,
    builder: &mut Builder,
    bound: &[Entry],
    fault: Lit,
) -> Result<Lit, GateError>
    requires bound { group_variables bound.now ≤ builder.old.count }
    requires fault { fault.var < builder.old.count }
    ensures means { IfOk result (λ l. (v : ℕ → Bool) → Holds v builder.new → lit_true v l ≡ (not (list_any (λ e. lit_true v e.lit) bound.now) || lit_true v fault)) }
    ensures within { IfOk result (λ l. l.var < builder.new.count) }
    ensures grows { Grows builder.old builder.new [] [] }
    ensures count { builder.new.count ≤ builder.old.count + 2 }
    ensures size { size_of builder.new ≤ size_of builder.old + 3 * length bound.now + 8 }
    ensures too_large { OnTooLarge result (IsOverLimit (builder.old.count + 2) (size_of builder.old + 3 * length bound.now + 8)) }
{
    let lits = lits_of(alloc, bound)?;
    let known = builder.or(lits.as_slice())?;
    let missing = either(builder, Builder::not(known), fault)?;
    Ok(missing)
}

/// A `let`: what its body gives where the variable has the term's value. There is a case for each value of the term, under its
/// literal. It adds three gates.
pub fn let_updates(
    alloc: Global,
    builder: &mut Builder,
    bound: &[Entry],
    cases: &[UpdateBits],
) -> Result<UpdateBits, GateError>
    requires bound { group_variables bound.now ≤ builder.old.count }
    requires faults { clause_variables (faults_of cases.now) ≤ builder.old.count }
    ensures means { IfOk result (λ r. (v : ℕ → Bool) → Holds v builder.new → (s : Setting) (place : Place) (x : ℕ) (t : Tree) (p : tree.Rule) → Means v bound.now (val s.world s.places t) → TakesEach v (cases_given v (let_given s x p) bound.now) cases.now → MeansRule v r s (tree.Let place x t p)) }
    ensures pairs { IfOk result (λ r. r.pairs ≡ pairs_of cases.now) }
    ensures fault { IfOk result (λ r. r.fault.var < builder.new.count) }
    ensures grows { Grows builder.old builder.new [] [] }
    ensures count { builder.new.count ≤ builder.old.count + 3 }
    ensures size { size_of builder.new ≤ size_of builder.old + 3 * length cases.now + 3 * length bound.now + 9 }
    ensures too_large { OnTooLarge result (IsOverLimit (builder.old.count + 3) (size_of builder.old + 3 * length cases.now + 3 * length bound.now + 9)) }
{
    let mut union = all_updates(alloc, builder, cases)?;
    let fault = missing_or(alloc, builder, bound, union.fault)?;
    union.fault = fault;
    Ok(union)
}
