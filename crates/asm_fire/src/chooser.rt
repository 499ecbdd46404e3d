//! How the choices of a rule are made.

ghost use Rattle.std.specs.Prelude.{◌≡◌, ◌<◌, ℕ, List, IfOk, length};
ghost use Rattle.asm_node.specs.Taking.{Path, Pick};
ghost use Rattle.asm_fire.specs.Chooser.{step_of, Stay, Enter, Leave, ChoosesBy};
ghost use Rattle.asm_fire.specs.Picking.{PicksCandidates};

use crate::error::FireError;
use asm_domain::Value;
use asm_node::Values;
use asm_source::Place;
use std::alloc::AllocError;

/// A step from a rule to a part of it, with values that are lent.
#[derive(Clone, Copy, Debug)]
pub enum Entry<'a> {
    /// The part of this number, counted from 0 in text order.
    Part(usize),
    /// The body of the macro rule of this number.
    Called(u32),
    /// The body under bound values.
    Bound(&'a [Value]),
}

/// Makes the choices of a rule while it is taken.
pub trait Chooser: Drop {
    /// The ways to choose and the paths for which it stands.
    ghost ways: { Self → Pick (List ℕ) → Path → Type 0 };

    /// One such way.
    ghost way: { Self → Pick (List ℕ) };

    /// And its path.
    ghost path: { Self → Path };

    /// The words that are left, or those that were drawn.
    ghost words: { Self → List ℕ };

    /// What no call changes.
    ghost Kept: { Type 0 };

    ghost kept: { Self → Kept };

    /// Goes on to a part of the rule.
    fn enter(&mut self, step: Entry<'_>) -> Result<(), AllocError>
        ensures enters { IfOk result (λ _. Enter (ways self.old) (step_of step.entry) (ways self.new)) }
        ensures words { words self.new ≡ words self.old }
        ensures kept { kept self.new ≡ kept self.old };

    /// Goes back to the rule that the part is of.
    fn leave(&mut self)
        ensures leaves { Leave (ways self.old) (ways self.new) }
        ensures words { words self.new ≡ words self.old }
        ensures kept { kept self.new ≡ kept self.old };

    /// The number of the one that is chosen among these candidates.
    fn choose(&mut self, place: Place, found: &[Values]) -> Result<usize, FireError>
        requires { 0 < length found.now }
        ensures chooses { ChoosesBy (ways self.old) result (words self.new) place found.now (words self.old) }
        ensures within { IfOk result (λ number. number < length found.now) }
        ensures stays { IfOk result (λ _. Stay (ways self.old) (ways self.new)) }
        ensures kept { kept self.new ≡ kept self.old };

    /// It stands for one way at least.
    ghost is_way: { (c : Self) → ways c (way c) (path c) };

    /// What is chosen is one of the candidates.
    ghost picks_candidates: { (c : Self) (pick : Pick (List ℕ)) (path : Path) → ways c pick path → PicksCandidates pick };
}
