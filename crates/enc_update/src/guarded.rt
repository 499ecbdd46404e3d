//! What a rule gives where its guard is true.
ghost use Rattle.std.specs.Prelude.{◌≡◌, ℕ, ◌+◌, ◌*◌, ◌<◌, ◌≤◌, ◌++◌, ◌∷◌, [], length, IfOk, Bool, ◌&&◌};
ghost use Rattle.asm_source.specs.declared.sources.Place.{Place};
ghost use Rattle.cnf_base.specs.Clauses.{lit_true};
ghost use Rattle.cnf_gate.specs.Built.{Grows, size_of};
ghost use Rattle.cnf_gate.specs.Limits.{IsOverLimit, OnTooLarge};
ghost use Rattle.asm_domain.specs.declared.value.Value as datum;
ghost use Rattle.asm_node.specs.Term.{Outcome};
ghost use Rattle.asm_node.specs.Taking.{guarded};
ghost use Rattle.enc_group.specs.Group.{Holds, Means, group_variables};
ghost use Rattle.enc_update.specs.Updates.{Taken, Takes, has_pair, pair_variables};

use crate::pair::{Pair, Pairs, UpdateBits, add_pair};
use asm_domain::Value;
use cnf_base::Lit;
use cnf_gate::{Builder, GateError};
use enc_group::{Entry, both, either, literal_of};
use std::alloc::Global;

/// The pairs where `guard` is true. It adds one gate of two literals for each of them.
pub fn pairs_under(
    alloc: Global,
    builder: &mut Builder,
    guard: Lit,
    pairs: &[Pair],
) -> Result<Pairs, GateError>
    requires guard { guard.var < builder.old.count }
    requires pairs { pair_variables pairs.now ≤ builder.old.count }
    ensures means { IfOk result (λ ps. (v : ℕ → Bool) → Holds v builder.new → (l : ℕ) (x : datum.Value) → has_pair v ps l x ≡ (lit_true v guard && has_pair v pairs.now l x)) }
    ensures long { IfOk result (λ ps. length ps ≡ length pairs.now) }
    ensures within { IfOk result (λ ps. pair_variables ps ≤ builder.new.count) }
    ensures grows { Grows builder.old builder.new [] [] }
    ensures count { builder.new.count ≤ builder.old.count + length pairs.now }
    ensures size { size_of builder.new ≤ size_of builder.old + 7 * length pairs.now }
    ensures too_large { OnTooLarge result (IsOverLimit (builder.old.count + length pairs.now) (size_of builder.old + 7 * length pairs.now)) }
{
    let mut under = Pairs::new(alloc);
    for pair in pairs {
        let lit = both(builder, guard, pair.lit)?;
        add_pair(&mut under, pair.slot, pair.value, lit)?;
    }
    Ok(under)
}

/// What a rule gives where its guard is true, and nothing where that is false; else a fault. It adds one gate for each pair, and
/// five.
pub fn guarded_updates(
    alloc: Global,
    builder: &mut Builder,
    guard: &[Entry],
    body: &UpdateBits,
) -> Result<UpdateBits, GateError>
    requires guard { group_variables guard.now ≤ builder.old.count }
    requires pairs { pair_variables body.now.pairs ≤ builder.old.count }
    requires fault { body.now.fault.var < builder.old.count }
    ensures means { IfOk result (λ r. (v : ℕ → Bool) → Holds v builder.new → (place : Place) (o : Outcome datum.Value) (a : Taken) → Means v guard.now o → Takes v body.now.pairs body.now.fault a → Takes v r.pairs r.fault (guarded place o a tt)) }
    ensures long { IfOk result (λ r. length r.pairs ≡ length body.now.pairs) }
    ensures within { IfOk result (λ r. pair_variables r.pairs ≤ builder.new.count) }
    ensures fault { IfOk result (λ r. r.fault.var < builder.new.count) }
    ensures grows { Grows builder.old builder.new [] [] }
    ensures count { builder.new.count ≤ builder.old.count + length body.now.pairs + 5 }
    ensures size { size_of builder.new ≤ size_of builder.old + 7 * length body.now.pairs + 6 * length guard.now + 23 }
    ensures too_large { OnTooLarge result (IsOverLimit (builder.old.count + length body.now.pairs + 5) (size_of builder.old + 7 * length body.now.pairs + 6 * length guard.now + 23)) }
{
    let on = literal_of(alloc, builder, guard, Value::Bool(true))?;
    let off = literal_of(alloc, builder, guard, Value::Bool(false))?;
    let known = either(builder, on, off)?;
    let inner = both(builder, on, body.fault)?;
    let pairs = pairs_under(alloc, builder, on, body.pairs.slice())?;
    let fault = either(builder, Builder::not(known), inner)?;
    Ok(UpdateBits { pairs, fault })
}
