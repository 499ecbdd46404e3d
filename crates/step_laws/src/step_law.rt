//! The laws on states and steps.
ghost use Rattle.std.specs.Prelude.{◌≡◌, ℕ, List, [], Ok, All};
ghost use Rattle.asm_node.specs.Machine.{Machine, State, Input};
ghost use Rattle.asm_node.specs.Step.{IsState, IsInput, IsRun, Steps, initial, next, world_at};
ghost use Rattle.asm_node.specs.WellFormed.{IsWellFormed};
ghost use Rattle.asm_node.specs.Taking.{Choosing};
ghost use Rattle.asm_fire.specs.Drawing.{DrawsFor};
ghost use Rattle.step_laws.specs.Stepping.{Leads};

/// The initial state is a state.
#[tactic(auto, using(crate::proofs::Started::initial_is_state))]
pub fn initial_states_are_states()
    ensures { (m : Machine) (s : State) → initial m ≡ Ok s → IsState m s }
{}

/// A step from a state under an input of a well-formed model leads to a state.
#[tactic(auto, using(crate::proofs::Stepping::steps_stay_states))]
pub fn steps_lead_to_states()
    ensures { (m : Machine) → IsWellFormed m → (s : State) (i : Input) (t : State) → IsState m s → IsInput m i → Steps m s i t → IsState m t }
{}

/// In a well-formed model a step under some choices is the next state under some words, which are all taken, and the next
/// state under any words is a step under some choices.
#[tactic(auto, using(crate::proofs::Stepping::words_of, crate::proofs::Stepping::choices_of))]
pub fn words_are_steps()
    ensures words { (m : Machine) (s : State) (i : Input) (t : State) → IsWellFormed m → Steps m s i t → (words : List ℕ) × (next m s i words m.main ≡ Ok (t, [])) }
    ensures choices { (m : Machine) (s : State) (i : Input) (t : State) (words rest : List ℕ) → IsWellFormed m → IsInput m i → IsState m s → next m s i words m.main ≡ Ok (t, rest) → Steps m s i t }
{}

/// The states of a run of a well-formed model are states.
#[tactic(auto, using(crate::proofs::Running::run_states))]
pub fn runs_have_states()
    ensures { (m : Machine) → IsWellFormed m → (inputs : List Input) (states : List State) → IsRun m inputs states → All (IsState m) states }
{}

/// A step under named choices leads to one state.
#[tactic(auto, using(crate::proofs::Running::leads_once))]
pub fn choices_lead_once()
    ensures { (m : Machine) (s : State) (i : Input) (choosing : Choosing) (t u : State) → Leads m s i choosing t → Leads m s i choosing u → t ≡ u }
{}

/// The words that the main rule draws for the choices of a step lead to the same state, and none of them is left.
#[tactic(auto, using(crate::proofs::Stepping::drawn_lead))]
pub fn drawn_words_lead()
    ensures { (m : Machine) (s : State) (i : Input) (choosing : Choosing) (t : State) (words : List ℕ) → IsWellFormed m → Leads m s i choosing t → DrawsFor (world_at m s i) m.main choosing words → next m s i words m.main ≡ Ok (t, []) }
{}
