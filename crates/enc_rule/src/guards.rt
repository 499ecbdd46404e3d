//! Rules that stand under a guard.
ghost use Rattle.std.specs.Prelude.{◌≡◌, ℕ, ◌+◌, ◌*◌, ◌<◌, ◌≤◌, [], length, IfOk, Bool, not, ◌&&◌, ◌||◌};
ghost use Rattle.cnf_base.specs.Clauses.{lit_true};
ghost use Rattle.asm_source.specs.declared.sources.Place.{Place};
ghost use Rattle.asm_node.specs.declared.path.Step.TheVariants.{Part};
ghost use Rattle.asm_node.specs.RuleTree as tree;
ghost use Rattle.asm_node.specs.Tree.{Tree};
ghost use Rattle.asm_node.specs.Term.{val};
ghost use Rattle.cnf_gate.specs.Built.{Grows, size_of};
ghost use Rattle.cnf_gate.specs.Limits.{IsOverLimit, OnTooLarge};
ghost use Rattle.enc_group.specs.Group.{Holds, Means, group_variables};
ghost use Rattle.enc_rule.specs.Rules.{Setting, MeansRule, inside};
ghost use Rattle.enc_update.specs.Updates.{pair_variables};

use asm_domain::Value;
use cnf_base::Lit;
use cnf_gate::{Builder, GateError};
use enc_group::{Entry, both, either, literal_of};
use enc_update::{UpdateBits, pairs_under};
use std::alloc::Global;

/// What the first rule gives where the guard is true, and what the second gives where it is false; else a fault. It adds one gate for
/// each pair, and seven.
pub fn if_updates(
    alloc: Global,
    builder: &mut Builder,
    guard: &[Entry],
    first: &UpdateBits,
    second: &UpdateBits,
) -> Result<UpdateBits, GateError>
    requires guard { group_variables guard.now ≤ builder.old.count }
    requires first_pairs { pair_variables first.now.pairs ≤ builder.old.count }
    requires first_fault { first.now.fault.var < builder.old.count }
    requires second_pairs { pair_variables second.now.pairs ≤ builder.old.count }
    requires second_fault { second.now.fault.var < builder.old.count }
    ensures means { IfOk result (λ r. (v : ℕ → Bool) → Holds v builder.new → (s : Setting) (place : Place) (g : Tree) (p q : tree.Rule) → Means v guard.now (val s.world s.places g) → MeansRule v first.now (inside s (Part 0)) p → MeansRule v second.now (inside s (Part 1)) q → MeansRule v r s (tree.If place g p q)) }
    ensures long { IfOk result (λ r. length r.pairs ≡ length first.now.pairs + length second.now.pairs) }
    ensures within { IfOk result (λ r. pair_variables r.pairs ≤ builder.new.count) }
    ensures fault { IfOk result (λ r. r.fault.var < builder.new.count) }
    ensures grows { Grows builder.old builder.new [] [] }
    ensures count { builder.new.count ≤ builder.old.count + (length first.now.pairs + length second.now.pairs) + 7 }
    ensures size { size_of builder.new ≤ size_of builder.old + 7 * (length first.now.pairs + length second.now.pairs) + 6 * length guard.now + 37 }
    ensures too_large { OnTooLarge result (IsOverLimit (builder.old.count + (length first.now.pairs + length second.now.pairs) + 7) (size_of builder.old + 7 * (length first.now.pairs + length second.now.pairs) + 6 * length guard.now + 37)) }
{
    let on = literal_of(alloc, builder, guard, Value::Bool(true))?;
    let off = literal_of(alloc, builder, guard, Value::Bool(false))?;
    let mut pairs = pairs_under(alloc, builder, on, first.pairs.slice())?;
    let others = pairs_under(alloc, builder, off, second.pairs.slice())?;
    pairs.extend(others.slice())?;
    let fault = branch_fault(builder, on, off, first.fault, second.fault)?;
    Ok(UpdateBits { pairs, fault })
}

/// A literal that is true where neither guard is, or one is and its rule ends in a fault.
fn branch_fault(
    builder: &mut Builder,
    on: Lit,
    off: Lit,
    first: Lit,
    second: Lit,
) -> Result<Lit, GateError>
    requires on { on.var < builder.old.count }
    requires off { off.var < builder.old.count }
    requires first { first.var < builder.old.count }
    requires second { second.var < builder.old.count }
    ensures means { IfOk result (λ l. (v : ℕ → Bool) → Holds v builder.new → lit_true v l ≡ (not (lit_true v on || lit_true v off) || ((lit_true v on && lit_true v first) || (lit_true v off && lit_true v second)))) }
    ensures within { IfOk result (λ l. l.var < builder.new.count) }
    ensures grows { Grows builder.old builder.new [] [] }
    ensures count { builder.new.count ≤ builder.old.count + 5 }
    ensures size { size_of builder.new ≤ size_of builder.old + 35 }
    ensures too_large { OnTooLarge result (IsOverLimit (builder.old.count + 5) (size_of builder.old + 35)) }
{
    let known = either(builder, on, off)?;
    let left = both(builder, on, first)?;
    let right = both(builder, off, second)?;
    let inner = either(builder, left, right)?;
    either(builder, Builder::not(known), inner)
}
