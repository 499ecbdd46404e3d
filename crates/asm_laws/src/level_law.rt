//! The law on how many definitions and macro rules may stand inside one another.
ghost use Rattle.std.specs.Prelude.{ℕ, List, Bool};
ghost use Rattle.asm_sign.specs.declared.function.FunKind.{FunKind};
ghost use Rattle.asm_node.specs.Tree.{Tree};
ghost use Rattle.asm_node.specs.RuleTree.{Rule};
ghost use Rattle.asm_node.specs.Term.{World};
ghost use Rattle.asm_node.specs.Reads.{may_be_read};
ghost use Rattle.asm_node.specs.Taking.{Pick, Choosing, by_paths};
ghost use Rattle.asm_node.specs.WellFormed.{IsWellFormed};
ghost use Rattle.asm_laws.specs.Levels.{GivesAlike, HasOneValue, HasOneOutcome};

/// A function in whose definitions at most n stand inside one another gives the same with n levels and with more, so its
/// value may be kept for all depths. In a well-formed model 32 levels suffice: more give each term the same value and each
/// rule the same outcome, by words and by any other way to choose.
#[tactic(auto, using(crate::proofs::Levels::gives_alike))]
pub fn levels_suffice()
    ensures calls { (w : World) (allowed : FunKind → Bool) (n f : ℕ) → may_be_read w.machine allowed n f → GivesAlike w n f }
    ensures terms { (w : World) (t : Tree) → IsWellFormed w.machine → HasOneValue w t }
    ensures words { (w : World) (pick : Pick (List ℕ)) (r : Rule) → IsWellFormed w.machine → HasOneOutcome pick w r }
    ensures choices { (w : World) (choosing : Choosing) (r : Rule) → IsWellFormed w.machine → HasOneOutcome (by_paths choosing) w r }
{}
