//! The groups that the walk has come to.

ghost use Rattle.std.specs.Prelude.{◌≡◌, OnOk, true, false, not, ◌&&◌, nat_eq};
ghost use Rattle.cnf_search.specs.Levels.{starts_at, last_depth};
ghost use Rattle.cnf_search.specs.Moves.{ends_refuted, Drops, Puts, TakesOff};

use std::alloc::AllocError;

/// A group with the value that was decided, or with the last one that was refuted.
#[derive(Clone, Copy, Debug)]
pub struct Level {
    /// The group's place in the order of the walk.
    pub depth: usize,
    /// The place of the value in the group.
    pub value: usize,
    /// The length of the trail before the decision, or after the refuted value was made false.
    pub start: usize,
    /// The number of clauses and lines at the time of the decision.
    pub known: u64,
    /// Whether the value is decided.
    pub decided: bool,
}

/// The group of the last level, and the first group where there is none.
pub fn last_depth(levels: &[Level]) -> usize
    ensures { result ≡ last_depth 0 levels.now }
{
    match levels.last() {
        None => 0,
        Some(level) => level.depth,
    }
}

/// Adds a level, in place of the last one where that is of the same group and has no decision.
pub fn put(levels: &mut Vec<Level>, level: Level) -> Result<(), AllocError>
    ensures { OnOk result (Puts levels.old.items levels.new.items level) }
{
    drop_refuted(levels, level.depth);
    levels.push(level)?;
    Ok(())
}

/// Takes off the last level where it is of this group and has no decision.
fn drop_refuted(levels: &mut Vec<Level>, depth: usize)
    ensures { Drops levels.old.items levels.new.items depth }
{
    if is_refuted(levels, depth) {
        levels.pop();
    }
}

/// Whether the last level is of this group and has no decision.
fn is_refuted(levels: &[Level], depth: usize) -> bool
    ensures { result ≡ ends_refuted false levels.now depth }
{
    match levels.last() {
        None => false,
        Some(level) => is_refuted_at(*level, depth),
    }
}

/// Whether a level is of this group and has no decision.
fn is_refuted_at(level: Level, depth: usize) -> bool
    ensures { result ≡ not level.decided && nat_eq level.depth depth }
{
    !level.decided && level.depth == depth
}

/// Takes levels off down to the one whose decision stands at `start`, which it answers.
pub fn take_off(levels: &mut Vec<Level>, start: usize) -> Level
    requires { starts_at levels.old.items start ≡ true }
    ensures off { TakesOff levels.old.items levels.new.items result }
    ensures decided { result.decided ≡ true }
    ensures start { result.start ≡ start }
{
    while let Some(level) = levels.pop() {
        if level.decided && level.start == start {
            return level;
        }
    }
    unreachable!()
}
