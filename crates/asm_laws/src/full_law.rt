//! The laws on full inputs.
ghost use Rattle.std.specs.Prelude.{◌≡◌, ℕ, List};
ghost use Rattle.asm_domain.specs.declared.value.Value.{Value};
ghost use Rattle.asm_node.specs.Tree.{Tree};
ghost use Rattle.asm_node.specs.Term.{World, Gives, Places, val};
ghost use Rattle.asm_node.specs.Step.{IsFull, IsInput};
ghost use Rattle.asm_node.specs.Machine.{Machine, Input};
ghost use Rattle.asm_node.specs.WellFormed.{IsWellFormed};
ghost use Rattle.asm_laws.specs.Full.{CanBeGiven, IsCompletion, NeedsNothing};
ghost use Rattle.asm_node.specs.RuleTree.{Rule};
ghost use Rattle.asm_node.specs.Taking.{Choosing, outcome, by_words, by_paths};

/// Under a full input each term has a value, and no rule ends with a need, by words and by choices.
#[tactic(auto, using(crate::proofs::Needing::term_answered))]
pub fn full_inputs_suffice()
    ensures terms { (w : World) → IsFull w.machine w.input → (e : Places) (t : Tree) → (v : Value) × (val w e t ≡ Gives v) }
    ensures words { (w : World) → IsFull w.machine w.input → (r : Rule) (words : List ℕ) → NeedsNothing (outcome by_words w r words) }
    ensures choices { (w : World) → IsFull w.machine w.input → (r : Rule) (choosing : Choosing) → NeedsNothing (outcome (by_paths choosing) w r tt) }
{}

/// Each input has a full one that extends it, if the codomain of each monitored location has an element; which it has in
/// each well-formed model.
#[tactic(auto, using(crate::proofs::Completing::completion))]
pub fn full_inputs_exist()
    ensures given { (m : Machine) (i : Input) → IsInput m i → CanBeGiven m → (j : Input) × IsCompletion m i j }
    ensures formed { (m : Machine) (i : Input) → IsInput m i → IsWellFormed m → (j : Input) × IsCompletion m i j }
{}
