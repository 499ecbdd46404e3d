//! The law on rules of well-formed models.
ghost use Rattle.std.specs.Prelude.{◌≡◌, ℕ, Some, slice_get};
ghost use Rattle.asm_node.specs.declared.model.Model.{Model};
ghost use Rattle.asm_node.specs.Machine.{Machine, Input};
ghost use Rattle.asm_node.specs.Model.{machine_of};
ghost use Rattle.asm_node.specs.RuleTree.{Rule};
ghost use Rattle.asm_node.specs.Step.{IsInput};
ghost use Rattle.asm_node.specs.Term.{nowhere};
ghost use Rattle.asm_node.specs.Tree.{Tree};
ghost use Rattle.asm_node.specs.WellFormed.{IsCondition, IsRule, IsWellFormed};
ghost use Rattle.asm_fire.specs.Sound.{IsEverExact, IsSound};

/// A rule of a well-formed machine is sound under each input, so it may be fired in each of its states. Each model is
/// well formed, and so is its main rule.
#[tactic(auto, using(crate::proofs::Sounding::rule_is_sound, crate::proofs::Sounding::rule_of_model, crate::proofs::Sounding::main_is_sound))]
pub fn rules_are_sound()
    ensures rules { (m : Machine) (i : Input) → IsInput m i → IsWellFormed m → (r : Rule) → IsRule m r → IsSound m i r }
    ensures model { (model : Model) (i : Input) → IsInput (machine_of model) i → (r : Rule) → IsRule (machine_of model) r → IsSound (machine_of model) i r }
    ensures main { (model : Model) (i : Input) → IsInput (machine_of model) i → IsSound (machine_of model) i (machine_of model).main }
{}

/// A closed truth value of a model is exact in each state under each input, so it may be evaluated, and so is each of the
/// model's invariants.
#[tactic(auto, using(crate::proofs::Sounding::condition_of_model, crate::proofs::Sounding::invariant_of_model))]
pub fn conditions_are_exact()
    ensures conditions { (model : Model) (i : Input) → IsInput (machine_of model) i → (t : Tree) → IsCondition (machine_of model) t → IsEverExact (machine_of model) i nowhere t }
    ensures invariants { (model : Model) (i : Input) → IsInput (machine_of model) i → (k : ℕ) (t : Tree) → slice_get (machine_of model).invariants k ≡ Some t → IsEverExact (machine_of model) i nowhere t }
{}
