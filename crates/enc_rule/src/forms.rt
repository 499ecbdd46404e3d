//! Rules without gates of their own but those of faults.
ghost use Rattle.std.specs.Prelude.{◌≡◌, ℕ, ◌+◌, ◌*◌, ◌<◌, ◌≤◌, [], length, map, IfOk, Bool, List};
ghost use Rattle.asm_source.specs.declared.sources.Place.{Place};
ghost use Rattle.asm_node.specs.declared.term.Binder.{Binder};
ghost use Rattle.asm_node.specs.Machine.{tuples_of};
ghost use Rattle.asm_node.specs.RuleTree as tree;
ghost use Rattle.asm_node.specs.Tree.{Tree};
ghost use Rattle.cnf_base.specs.Clauses.{clause_variables};
ghost use Rattle.cnf_gate.specs.Built.{Grows, size_of};
ghost use Rattle.cnf_gate.specs.Limits.{IsOverLimit, OnTooLarge};
ghost use Rattle.enc_group.specs.Group.{Holds};
ghost use Rattle.enc_rule.specs.Rules.{Setting, MeansRule, parts_given, instance_given};
ghost use Rattle.enc_update.specs.Updates.{TakesEach, faults_of, pairs_of};

use cnf_gate::{Builder, GateError};
use enc_group::never;
use enc_update::{Pairs, UpdateBits, all_updates};
use std::alloc::Global;

/// `skip` gives the empty set: no pair, and a fault that is never true.
pub fn skip_updates(alloc: Global, builder: &mut Builder) -> Result<UpdateBits, GateError>
    ensures means { IfOk result (λ r. (v : ℕ → Bool) → Holds v builder.new → (s : Setting) (place : Place) → MeansRule v r s (tree.Skip place)) }
    ensures pairs { IfOk result (λ r. r.pairs ≡ []) }
    ensures fault { IfOk result (λ r. r.fault.var < builder.new.count) }
    ensures grows { Grows builder.old builder.new [] [] }
    ensures count { builder.new.count ≤ builder.old.count + 1 }
    ensures size { size_of builder.new ≤ size_of builder.old + 1 }
    ensures too_large { OnTooLarge result (IsOverLimit (builder.old.count + 1) (size_of builder.old + 1)) }
{
    let fault = never(builder)?;
    Ok(UpdateBits {
        pairs: Pairs::new(alloc),
        fault,
    })
}

/// `par` gives the union of what its parts give in the same state. It adds one gate, of all faults.
pub fn par_updates(
    alloc: Global,
    builder: &mut Builder,
    parts: &[UpdateBits],
) -> Result<UpdateBits, GateError>
    requires { clause_variables (faults_of parts.now) ≤ builder.old.count }
    ensures means { IfOk result (λ r. (v : ℕ → Bool) → Holds v builder.new → (s : Setting) (place : Place) (rs : tree.Rules) → TakesEach v (parts_given s 0 rs) parts.now → MeansRule v r s (tree.Par place rs)) }
    ensures pairs { IfOk result (λ r. r.pairs ≡ pairs_of parts.now) }
    ensures fault { IfOk result (λ r. r.fault.var < builder.new.count) }
    ensures grows { Grows builder.old builder.new [] [] }
    ensures count { builder.new.count ≤ builder.old.count + 1 }
    ensures size { size_of builder.new ≤ size_of builder.old + 3 * length parts.now + 1 }
    ensures too_large { OnTooLarge result (IsOverLimit (builder.old.count + 1) (size_of builder.old + 3 * length parts.now + 1)) }
{
    let union = all_updates(alloc, builder, parts)?;
    Ok(union)
}

/// `forall` gives the union of what its body gives for the tuples whose guard is true: there is an instance for each tuple, under
/// its guard. It adds one gate, of all faults.
pub fn forall_updates(
    alloc: Global,
    builder: &mut Builder,
    instances: &[UpdateBits],
) -> Result<UpdateBits, GateError>
    requires { clause_variables (faults_of instances.now) ≤ builder.old.count }
    ensures means { IfOk result (λ r. (v : ℕ → Bool) → Holds v builder.new → (s : Setting) (place : Place) (bs : List Binder) (g : Tree) (p : tree.Rule) → TakesEach v (map (instance_given s place bs g p) (tuples_of s.world.machine.signature bs)) instances.now → MeansRule v r s (tree.Forall place bs g p)) }
    ensures pairs { IfOk result (λ r. r.pairs ≡ pairs_of instances.now) }
    ensures fault { IfOk result (λ r. r.fault.var < builder.new.count) }
    ensures grows { Grows builder.old builder.new [] [] }
    ensures count { builder.new.count ≤ builder.old.count + 1 }
    ensures size { size_of builder.new ≤ size_of builder.old + 3 * length instances.now + 1 }
    ensures too_large { OnTooLarge result (IsOverLimit (builder.old.count + 1) (size_of builder.old + 3 * length instances.now + 1)) }
{
    let union = all_updates(alloc, builder, instances)?;
    Ok(union)
}
