ghost use Rattle.std.specs.Prelude.{◌≡◌, List, [], Some, None};
ghost use Rattle.asm_faults.specs.declared.fault.Fault.{Fault};
ghost use Rattle.asm_faults.specs.First.{noted, IsFirst};

/// The first of some faults is one of them, and none of them comes before it by unit, byte and kind. There is none only
/// where there is no fault.
#[tactic(auto, using(crate::proofs::Order::first_is, crate::proofs::Order::none_at_all))]
pub fn first_is_least()
    ensures least { (faults : List Fault) (a : Fault) → noted None faults ≡ Some a → IsFirst faults a }
    ensures none { (faults : List Fault) → noted None faults ≡ None → faults ≡ [] }
{}
