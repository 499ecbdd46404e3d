//! The laws that answered steps make a refinement, and that counter steps are what is against it.
ghost use Rattle.asm_node.specs.Machine.{State, Input};
ghost use Rattle.ref_link.specs.Answering.{Allowed, Answered, Begins, EachAnswered, StepsStay};
ghost use Rattle.ref_link.specs.Counter.{HasNoCounterStep};
ghost use Rattle.ref_link.specs.Linking.{Linking};
ghost use Rattle.ref_link.specs.Refining.{Refines};

/// Where the initial states conform, the abstract invariants hold at the start, each allowed step is answered, and steps
/// lead to states, every run of the concrete model is answered by a run of the abstract model.
#[tactic(auto, using(crate::proofs::Covering::answered_refine))]
pub fn answered_steps_refine()
    ensures { (p : Linking) → StepsStay p.abstract_model → StepsStay p.concrete_model → (sa sc : State) → Begins p sa sc → EachAnswered p → Refines p }
{}

/// Where each allowed step is answered, no step is a counter step. Where no step is one, no allowed step is without an
/// answer.
pub fn no_counter_steps()
    ensures none { (p : Linking) → EachAnswered p → HasNoCounterStep p }
    ensures each { (p : Linking) → HasNoCounterStep p → (sa sc : State) (i : Input) (next : State) → Allowed p sa sc i next → ¬ (¬ Answered p sa i next) }
{}
