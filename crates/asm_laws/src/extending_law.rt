//! The laws on inputs that give more.
ghost use Rattle.std.specs.Prelude.{◌≡◌, ℕ, List};
ghost use Rattle.asm_node.specs.RuleTree.{Rule};
ghost use Rattle.asm_node.specs.Machine.{Machine, State, Input};
ghost use Rattle.asm_node.specs.Step.{next, Steps};
ghost use Rattle.asm_laws.specs.Extending.{Extends, GivesAll, Keeps, Stays, StaysStep, under};
ghost use Rattle.asm_node.specs.Tree.{Tree};
ghost use Rattle.asm_node.specs.Term.{World, Places, val};
ghost use Rattle.asm_node.specs.Taking.{Choosing, outcome, by_words, by_paths};

/// Under an input that extends another, a step that needs nothing under the other is the same, and so is a step under some
/// choices. So a step under any input is one under each full input that extends it.
#[tactic(auto, using(crate::proofs::Continuing::next_stays, crate::proofs::Continuing::steps_stay))]
pub fn steps_extend()
    ensures words { (m : Machine) (s : State) (i j : Input) → Extends m i j → (words : List ℕ) (rule : Rule) → StaysStep (next m s i words rule) (next m s j words rule) }
    ensures choices { (m : Machine) (s : State) (i j : Input) → Extends m i j → (t : State) → Steps m s i t → Steps m s j t }
{}

/// Under an input that gives more, a term that needs nothing under the other has the same value, and a rule gives the same
/// set or has the same fault, by words and by choices.
#[tactic(auto, using(crate::proofs::Continuing::value_stays))]
pub fn values_extend()
    ensures terms { (w : World) (j : Input) → GivesAll w.input j → (e : Places) (t : Tree) → Keeps (val w e t) (val (under w j) e t) }
    ensures words { (w : World) (j : Input) → GivesAll w.input j → (r : Rule) (words : List ℕ) → Stays (outcome by_words w r words) (outcome by_words (under w j) r words) }
    ensures choices { (w : World) (j : Input) → GivesAll w.input j → (r : Rule) (choosing : Choosing) → Stays (outcome (by_paths choosing) w r tt) (outcome (by_paths choosing) (under w j) r tt) }
{}
