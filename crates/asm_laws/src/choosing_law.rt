//! The laws on the ways to choose.
ghost use Rattle.std.specs.Prelude.{◌≡◌, ℕ, List};
ghost use Rattle.asm_node.specs.RuleTree.{Rule};
ghost use Rattle.asm_node.specs.Term.{World};
ghost use Rattle.asm_node.specs.UpdateSet.{UpdateSet};
ghost use Rattle.asm_node.specs.Machine.{Machine};
ghost use Rattle.asm_node.specs.WellFormed.{IsWellFormed};
ghost use Rattle.asm_node.specs.Taking.{Yields, outcome, by_words, by_paths, Choosing, Path};
ghost use Rattle.asm_laws.specs.Sites.{AreSites};
ghost use Rattle.asm_laws.specs.Choosing.{TuplesDiffer, GivesByWords, by_small_words, GivesBySmallWords, GivesByPaths, GivesMore};

/// A rule gives a set under some choice words exactly where it gives it under some choices at paths, if no domain has an
/// element twice; and then it gives it under words of which each is below the number of its candidates.
#[tactic(auto, using(crate::proofs::ChoosingWords::words_for, crate::proofs::ChoosingWords::small_words_for, crate::proofs::ChoosingPaths::paths_for))]
pub fn words_are_choices()
    ensures words { (w : World) (r : Rule) (u : UpdateSet) → GivesByPaths w r u → GivesByWords w r u }
    ensures small { (w : World) (r : Rule) (u : UpdateSet) → GivesByPaths w r u → GivesBySmallWords w r u }
    ensures paths { (w : World) (r : Rule) (u : UpdateSet) (words rest : List ℕ) → TuplesDiffer w.machine → outcome by_words w r words ≡ Yields u rest → GivesByPaths w r u }
{}

/// In a well-formed model no tuple of binders stands twice.
#[tactic(auto, using(crate::proofs::Differing::tuples_differ))]
pub fn tuples_are_different()
    ensures { (m : Machine) → IsWellFormed m → TuplesDiffer m }
{}

/// What a rule gives under words of which each is below the number of its candidates, it gives under these words.
#[tactic(auto, using(crate::proofs::Following::by_words_too))]
pub fn small_words_are_words()
    ensures { (w : World) (r : Rule) (u : UpdateSet) (words rest : List ℕ) → outcome by_small_words w r words ≡ Yields u rest → outcome by_words w r words ≡ Yields u rest }
{}

/// What a rule gives under some choices at paths, it gives under choices that give more.
#[tactic(auto, using(crate::proofs::Following::by_more_choices))]
pub fn choices_extend()
    ensures { (w : World) (r : Rule) (u : UpdateSet) (first second : Choosing) → GivesMore first second → outcome (by_paths first) w r tt ≡ Yields u tt → outcome (by_paths second) w r tt ≡ Yields u tt }
{}

/// A rule that gives a set under some choices at paths has chosen at finitely many paths, and gives the set under all choices
/// that are the same there.
#[tactic(auto, using(crate::proofs::Sites::sites_of))]
pub fn sites_suffice()
    ensures { (w : World) (r : Rule) (choosing : Choosing) (u : UpdateSet) → outcome (by_paths choosing) w r tt ≡ Yields u tt → (paths : List Path) × AreSites w r choosing u paths }
{}
