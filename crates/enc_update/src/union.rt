//! The union of what several rules give.
ghost use Rattle.std.specs.Prelude.{◌≡◌, ℕ, ◌+◌, ◌*◌, ◌<◌, ◌≤◌, ◌++◌, ◌∷◌, [], length, OnOk, IfOk, Bool, List};
ghost use Rattle.std.specs.FinSet as set;
ghost use Rattle.cnf_base.specs.Clauses.{clause_variables};
ghost use Rattle.cnf_gate.specs.Built.{Grows, size_of};
ghost use Rattle.cnf_gate.specs.Limits.{IsOverLimit, OnTooLarge};
ghost use Rattle.enc_group.specs.Group.{Holds};
ghost use Rattle.enc_update.specs.Updates.{Taken, Takes, TakesEach, faults_of, pairs_of, union_of};

use crate::pair::{Pairs, UpdateBits};
use crate::slots::push_lit;
use cnf_gate::{Builder, GateError};
use std::alloc::Global;

/// The union of what rules give in one state, each of which may end in a fault. It adds one gate, of all faults.
pub fn all_updates(
    alloc: Global,
    builder: &mut Builder,
    parts: &[UpdateBits],
) -> Result<UpdateBits, GateError>
    requires { clause_variables (faults_of parts.now) ≤ builder.old.count }
    ensures means { IfOk result (λ r. (v : ℕ → Bool) → Holds v builder.new → (given : List Taken) → TakesEach v given parts.now → Takes v r.pairs r.fault (union_of given set.empty)) }
    ensures pairs { IfOk result (λ r. r.pairs ≡ pairs_of parts.now) }
    ensures fault { IfOk result (λ r. r.fault.var < builder.new.count) }
    ensures grows { Grows builder.old builder.new [] [] }
    ensures count { builder.new.count ≤ builder.old.count + 1 }
    ensures size { size_of builder.new ≤ size_of builder.old + 3 * length parts.now + 1 }
    ensures too_large { OnTooLarge result (IsOverLimit (builder.old.count + 1) (size_of builder.old + 3 * length parts.now + 1)) }
{
    let mut pairs = Pairs::new(alloc);
    let mut faults = Vec::new(alloc);
    for part in parts {
        pairs.extend(part.pairs.slice())?;
        push_lit(&mut faults, part.fault)?;
    }
    let fault = builder.or(faults.as_slice())?;
    Ok(UpdateBits { pairs, fault })
}
