//! Calls of macro rules.
ghost use Rattle.std.specs.Prelude.{◌≡◌, ℕ, suc, Bool, Some, slice_get};
ghost use Rattle.asm_source.specs.declared.sources.Place.{Place};
ghost use Rattle.asm_node.specs.Machine.{Macro};
ghost use Rattle.asm_node.specs.RuleTree as tree;
ghost use Rattle.asm_node.specs.Taking.{by_paths, bodies_within};
ghost use Rattle.asm_node.specs.Tree.{Trees};
ghost use Rattle.enc_rule.specs.Rules.{Setting, MeansRule, called_in};
ghost use Rattle.enc_update.specs.declared.pair.UpdateBits as bits;

/// What means the body of a macro rule, its parameters in the place of the actual terms, means the call.
#[tactic(auto, using(crate::proofs::Calling::call_means))]
pub fn calls_are_bodies()
    ensures { (v : ℕ → Bool) (r : bits.UpdateBits) (s : Setting) (n : ℕ) (place : Place) (f : ℕ) (m : Macro) (ts : Trees) → s.bodies ≡ bodies_within (by_paths s.choosing) (suc n) → slice_get s.world.machine.rules f ≡ Some m → MeansRule v r (called_in s n f m ts) m.body → MeansRule v r s (tree.Call place f ts) }
{}
