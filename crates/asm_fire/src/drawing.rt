//! The words that a rule draws for choices at paths.

ghost use Rattle.std.specs.Prelude.{◌≡◌, ◌<◌, ◌↔◌, ℕ, List, [], IfOk, IfSome, IsTrue, length};
ghost use Rattle.asm_node.specs.declared.path.Step.TheVariants.{Part};
ghost use Rattle.asm_node.specs.Model.{machine_of};
ghost use Rattle.asm_node.specs.RuleTree.{plain_rule};
ghost use Rattle.asm_node.specs.Step.{IsState};
ghost use Rattle.asm_eval.specs.World.{world_in};
ghost use Rattle.asm_fire.specs.Chooser.{step_of};
ghost use Rattle.asm_fire.specs.Drawing.{choosing_of, place_among as first_place, GivesUnder, DrawsFor, DrawnBy, IsShorter, Numbers};
ghost use Rattle.asm_fire.specs.Sound.{IsSound};

use crate::chooser::{Chooser, Entry};
use crate::error::FireError;
use crate::taking::fire_by;
use asm_domain::Value;
use asm_list::Listed;
use asm_node::{Choices, Input, Model, Path, Rule, Step, Stop, Values, Words};
use asm_source::Place;
use asm_state::Store;
use std::alloc::{AllocError, Global};
use std::mem;
use std::rc::Rc;

/// The words that a rule draws for choices under which it gives a set: for each choice in the order in which they are made
/// the number of the chosen one among its candidates, counted from 0. None of them is taken. Want of memory is also the
/// answer where such a number is past those of 32 bits.
pub fn draw_words<S: Store>(
    alloc: Global,
    model: &Model,
    store: &S,
    input: &Input,
    choices: &Choices,
    rule: &Rc<Rule>,
) -> Result<Words, AllocError>
    requires state { IsState (machine_of model.now) (S.state store.now) }
    requires sound { IsSound (machine_of model.now) input.now (plain_rule rule.now.value) }
    requires gives { GivesUnder (world_in (machine_of model.now) (S.state store.now) input.now) (plain_rule rule.now.value) (choosing_of choices.now) }
    // They are the words that are drawn for these choices.
    ensures drawn { IfOk result (λ words. DrawnBy (world_in (machine_of model.now) (S.state store.now) input.now) (plain_rule rule.now.value) (choosing_of choices.now) words.0) }
    // Each is below the number of its candidates, under them the rule gives the same set, and no word is left then.
    ensures serve { IfOk result (λ words. DrawsFor (world_in (machine_of model.now) (S.state store.now) input.now) (plain_rule rule.now.value) (choosing_of choices.now) words.0) }
    ensures none_taken { IfOk result (λ words. words.1 ≡ 0) }
{
    let mut drawing = Drawing::new(alloc, choices);
    match fire_by(alloc, model, store, input, &mut drawing, rule) {
        Ok(_) => Ok(Words::of(drawing.words)),
        Err(FireError::Memory) => Err(AllocError),
        Err(FireError::Stop(_)) => unreachable!(),
    }
}

/// Makes the choices that stand at paths, and keeps a word for each.
#[derive(Drop)]
struct Drawing<'a> {
    alloc: Global,
    choices: &'a Choices,
    path: Path,
    words: Listed<u32>,
}

impl<'a> Drawing<'a> {
    /// At the rule itself, with no word.
    fn new(alloc: Global, choices: &'a Choices) -> Drawing<'a>
        ensures choices { result.choices.now ≡ choices.now }
        ensures path { result.path ≡ [] }
        ensures words { result.words ≡ [] }
    {
        Drawing {
            alloc,
            choices,
            path: Listed::new(alloc),
            words: Listed::new(alloc),
        }
    }
}

/// Each choice is that at its path, and draws the number of the chosen one among its candidates.
impl Chooser for Drawing<'_> {
    ghost use Rattle.std.specs.Prelude.{◌≡◌, ℕ, List};
    ghost use mathlib.Core.Path.{refl, subst, sym};
    ghost use Rattle.asm_node.specs.Choices.{Chosen};
    ghost use Rattle.asm_fire.specs.Drawing.{choosing_of, by_drawing};
    ghost use Rattle.asm_fire.specs.Picking.{PicksCandidates, drawing_picks};

    ghost ways = { λ d pick path. (pick ≡ by_drawing (choosing_of d.choices.now)) × (path ≡ d.path) };

    ghost way = { λ d. by_drawing (choosing_of d.choices.now) };

    ghost path = { λ d. d.path };

    ghost words = { λ d. d.words };

    ghost Kept = { Chosen };

    ghost kept = { λ d. d.choices.now };

    fn enter(&mut self, step: Entry<'_>) -> Result<(), AllocError> {
        let step = held(self.alloc, step)?;
        self.path.push(step)
    }

    fn leave(&mut self) {
        shorten(self.alloc, &mut self.path)
    }

    fn choose(&mut self, place: Place, found: &[Values]) -> Result<usize, FireError> {
        let number = chosen_at(self.choices, &self.path, place, found)?;
        let word = word_of(number)?;
        self.words.push(word)?;
        Ok(number)
    }

    ghost is_way = { λ d. (refl, refl) };

    ghost picks_candidates = { λ d pick path is. subst PicksCandidates (sym is.0) (drawing_picks (choosing_of d.choices.now)) };
}

/// A step whose values are held.
fn held(alloc: Global, step: Entry<'_>) -> Result<Step, AllocError>
    ensures { IfOk result (λ held. held ≡ step_of step.entry) }
{
    match step {
        Entry::Part(number) => part(number),
        Entry::Called(number) => Ok(Step::Called(number)),
        Entry::Bound(values) => Ok(Step::Bound(Values::from_slice(alloc, values)?)),
    }
}

/// The step to the part of a number, where it fits in 32 bits.
fn part(number: usize) -> Result<Step, AllocError>
    ensures { IfOk result (λ step. step ≡ Part number) }
{
    Ok(Step::Part(word_of(number)?))
}

/// A number as a word, where it fits in one.
fn word_of(number: usize) -> Result<u32, AllocError>
    ensures { IfOk result (λ word. word ≡ number) }
{
    if number > u32::MAX as usize {
        return Err(AllocError);
    }
    Ok(number as u32)
}

/// Drops the last step of a path.
fn shorten(alloc: Global, path: &mut Path)
    ensures { IsShorter path.old path.new }
{
    let mut steps = mem::replace(path, Listed::new(alloc)).into_vec();
    steps.pop();
    *path = Listed::from_vec(steps);
}

/// The number of the candidate that is chosen at a path.
fn chosen_at(
    choices: &Choices,
    path: &Path,
    place: Place,
    found: &[Values],
) -> Result<usize, FireError>
    ensures chooses { (words : List ℕ) → Numbers result place found.now (choosing_of choices.now path.now) words }
    ensures within { IfOk result (λ number. number < length found.now) }
{
    let Some(tuple) = choices.get(path) else {
        return Err(FireError::Stop(Stop::Choice(place)));
    };
    match place_among(tuple.slice(), found) {
        Some(number) => Ok(number),
        None => Err(FireError::Stop(Stop::Choice(place))),
    }
}

/// The first place of a tuple in a list.
fn place_among(tuple: &[Value], found: &[Values]) -> Option<usize>
    ensures place { result ≡ first_place tuple.now found.now }
    ensures within { IfSome result (λ number. number < length found.now) }
{
    for place in 0..found.len() {
        if same_tuple(found[place].slice(), tuple) {
            return Some(place);
        }
    }
    None
}

fn same_tuple(left: &[Value], right: &[Value]) -> bool
    ensures { IsTrue result ↔ (left.now ≡ right.now) }
{
    left == right
}
