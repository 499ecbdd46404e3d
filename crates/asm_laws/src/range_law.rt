//! The law on the ranges of terms.
ghost use Rattle.std.specs.Prelude.{◌≡◌};
ghost use Rattle.asm_domain.specs.declared.value.Value.{Value};
ghost use Rattle.asm_node.specs.Tree.{Tree};
ghost use Rattle.asm_node.specs.Term.{World, Gives, calls_of, unbound, value_of};
ghost use Rattle.asm_node.specs.Exact.{IsExact};
ghost use Rattle.asm_node.specs.Filled.{IsFilled};
ghost use Rattle.asm_node.specs.Machine.{Machine, State, Input};
ghost use Rattle.asm_node.specs.Step.{IsState, IsInput, world_at};
ghost use Rattle.asm_node.specs.WellFormed.{IsWellFormed};
ghost use Rattle.asm_node.specs.Ranges.{Range, IsIn, no_ranges, HasRange, IsRanged, AreDefinitionsRanged};

/// In a world whose locations have values of their codomains, over a machine in whose definitions no interval is refused,
/// a closed term has no number for its value, or one of its range; and where no interval in the term is refused, no number
/// that its evaluation meets is over 2^62 in absolute value.
#[tactic(auto, using(asm_node::proofs::Exactly::value_is_in, asm_node::proofs::Exactly::is_exact))]
pub fn ranges_hold()
    ensures value { (w : World) → IsFilled w → AreDefinitionsRanged w.machine → (t : Tree) (r : Range) → HasRange w.machine.signature no_ranges t r → (v : Value) → value_of w (calls_of w) unbound t ≡ Gives v → IsIn r v }
    ensures exact { (w : World) → IsFilled w → AreDefinitionsRanged w.machine → (t : Tree) → IsRanged w.machine.signature no_ranges t → IsExact w t }
{}

/// A state and an input of a machine make a world whose locations have values of their codomains.
#[tactic(auto, using(crate::proofs::Filling::filled_at))]
pub fn worlds_are_filled()
    ensures { (m : Machine) (s : State) (i : Input) → IsState m s → IsInput m i → IsFilled (world_at m s i) }
{}

/// In no definition of a well-formed model an interval is refused.
#[tactic(auto, using(asm_node::proofs::Formed::definitions_ranged))]
pub fn definitions_are_ranged()
    ensures { (m : Machine) → IsWellFormed m → AreDefinitionsRanged m }
{}
