//! The laws on runs as they are printed.
ghost use Rattle.std.specs.Prelude.{◌≡◌, ℕ, List, All, length};
ghost use Rattle.asm_source.specs.declared.sources.Source.{Source};
ghost use Rattle.asm_node.specs.Machine.{Machine, State, Input};
ghost use Rattle.asm_node.specs.Step.{IsFull, IsRun};
ghost use Rattle.asm_node.specs.WellFormed.{IsWellFormed};
ghost use Rattle.asm_run.specs.declared.run.RunEnd.TheVariants.{Done};
ghost use Rattle.asm_run.specs.Printed.{run_of};
ghost use Rattle.step_laws.specs.Runs.{ShowsRun, inputs_of, printed_states};

/// Where each step has a full input and all steps are made, the printed run of a well-formed model shows the states of a run
/// of the model; and each run of the model is printed so under some words.
pub fn printed_runs_are_runs()
    ensures shows { (m : Machine) (sources : List Source) → IsWellFormed m → (inputs : List Input) (words : List ℕ) (steps : ℕ) → All (IsFull m) (inputs_of inputs steps) → (run_of m sources inputs words steps).end ≡ Done → ShowsRun m (inputs_of inputs steps) (run_of m sources inputs words steps) }
    ensures each { (m : Machine) (sources : List Source) → IsWellFormed m → (inputs : List Input) (states : List State) → IsRun m inputs states → (words : List ℕ) × (run_of m sources inputs words (length inputs) ≡ printed_states m 0 states) }
{}
