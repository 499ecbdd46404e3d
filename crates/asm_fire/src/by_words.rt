//! The update sets of rules under choice words.

ghost use Rattle.std.specs.Prelude.{◌≡◌};
ghost use Rattle.asm_node.specs.Model.{machine_of};
ghost use Rattle.asm_node.specs.RuleTree.{plain_rule};
ghost use Rattle.asm_node.specs.Step.{IsState};
ghost use Rattle.asm_node.specs.Taking.{by_words, outcome};
ghost use Rattle.asm_node.specs.Words.{left};
ghost use Rattle.asm_eval.specs.World.{world_in};
ghost use Rattle.asm_fire.specs.Answer.{Fires};
ghost use Rattle.asm_fire.specs.Sound.{IsSound};

use crate::chooser::{Chooser, Entry};
use crate::error::FireError;
use crate::taking::fire_by;
use asm_node::{Input, Model, Rule, Stop, Values, Words};
use asm_source::Place;
use asm_state::Store;
use asm_update::Updates;
use std::alloc::{AllocError, Global};
use std::rc::Rc;

/// The update set of a rule without free variables, or its first fault. `words` then stands after the words that were
/// taken.
pub fn fire<S: Store>(
    alloc: Global,
    model: &Model,
    store: &S,
    input: &Input,
    words: &mut Words,
    rule: &Rc<Rule>,
) -> Result<Updates, FireError>
    requires state { IsState (machine_of model.now) (S.state store.now) }
    requires sound { IsSound (machine_of model.now) input.now (plain_rule rule.now.value) }
    ensures outcome { Fires result (left words.new) (outcome by_words (world_in (machine_of model.now) (S.state store.now) input.now) (plain_rule rule.now.value) (left words.old)) }
    ensures words { words.new.0 ≡ words.old.0 }
{
    fire_by(alloc, model, store, input, words, rule)
}

/// Words are taken in their order, whatever the path.
impl Chooser for Words {
    ghost use Rattle.std.specs.Prelude.{◌≡◌, ℕ, List, []};
    ghost use mathlib.Core.Path.{refl, subst, sym};
    ghost use Rattle.asm_node.specs.Taking.{by_words};
    ghost use Rattle.asm_node.specs.Words.{left};
    ghost use Rattle.asm_fire.specs.Picking.{PicksCandidates, word_picks};

    ghost ways = { λ w pick path. pick ≡ by_words };

    ghost way = { λ w. by_words };

    ghost path = { λ w. [] };

    ghost words = { λ w. left w };

    ghost Kept = { List ℕ };

    ghost kept = { λ w. w.0 };

    fn enter(&mut self, _step: Entry<'_>) -> Result<(), AllocError> {
        Ok(())
    }

    fn leave(&mut self) {}

    fn choose(&mut self, place: Place, found: &[Values]) -> Result<usize, FireError> {
        let Some(word) = self.take() else {
            return Err(FireError::Stop(Stop::Choice(place)));
        };
        Ok(word as usize % found.len())
    }

    ghost is_way = { λ w. refl };

    ghost picks_candidates = { λ w pick path is. subst PicksCandidates (sym is) word_picks };
}
