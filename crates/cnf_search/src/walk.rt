//! The walk through the choices of the groups.

ghost use Rattle.std.specs.Prelude.{◌≡◌, ℕ, ◌+◌, ◌*◌, ◌<◌, ◌≤◌, ◌++◌, ◌∷◌, [], take, length, IfOk, IfSome, IfNone, OnOk, true, false, None, Some, is_none, is_some, slice_index_or};
ghost use Rattle.std.specs.List.{list_any, list_all};
ghost use Rattle.cnf_base.specs.Clauses.{variables, clause_variables};
ghost use Rattle.cnf_base.specs.Known.{is_true};
ghost use Rattle.cnf_base.specs.Derivation.{accepted, outcome};
ghost use Rattle.cnf_gate.specs.Built.{is_quiet, is_decided};
ghost use Rattle.cnf_search.specs.Trails.{Explained, nothing, values, IsConflict};
ghost use Rattle.cnf_search.specs.Lines.{known};
ghost use Rattle.cnf_search.specs.Levels.{starts_at};
ghost use Rattle.cnf_search.specs.Queue.{IsIndex};
ghost use Rattle.cnf_search.specs.Guides.{Guides};
ghost use Rattle.cnf_search.specs.Walks.{IsSound, IsPlaced, IsPending, IsWalking, Settles, Keeps, Returns, Fails, Decides, Chooses, Takes, IsKept, EndsWith};

use crate::index::{Index, add_clause};
use crate::learn::{Learned, learn};
use crate::level::{Level, last_depth, put, take_off};
use crate::trace::Trace;
use crate::unit::{numbers_from, propagate, visit};
use cnf_base::{Line, Lit, Lits};
use cnf_check::Checker;
use std::alloc::{AllocError, Global};

/// The lines so far, the index of all clauses, the trail and the levels.
#[derive(Drop, Debug)]
pub struct Walk {
    pub checker: Checker,
    pub lists: Index,
    pub trace: Trace,
    pub levels: Vec<Level>,
    /// The entries from this place on, and the clauses from the number `left` on, are still to be looked at.
    pub head: usize,
    pub left: u64,
    /// How many conflicts are allowed.
    pub budget: u64,
}

/// How a walk ended.
#[derive(Drop, Debug)]
pub enum End {
    /// The trail satisfies the formula.
    Solved,
    /// The last line is empty.
    Refuted,
    /// One more conflict would be over the budget.
    Spent,
}

/// What a turn comes to.
#[derive(Drop, Debug)]
pub enum Turn {
    /// The walk goes on.
    On,
    /// The walk is at its end.
    Ended(End),
}

/// Propagates.
fn settle(alloc: Global, walk: &mut Walk) -> Result<Option<u64>, AllocError>
    requires sound { IsSound walk.old }
    requires pending { IsPending walk.old }
    ensures moved { IfOk result (λ _. Settles walk.old walk.new) }
    ensures conflict { IfOk result (λ o. IfSome o (λ n. IsConflict (known walk.new.checker) (values walk.new.trace.entries) n)) }
    ensures quiet { IfOk result (λ o. IfNone o (is_quiet (values walk.new.trace.entries) (known walk.new.checker) ≡ true)) }
{
    let numbers = numbers_from(alloc, walk.left, walk.checker.next_number())?;
    if let Some(conflict) = visit(&walk.checker, &mut walk.trace, &numbers)? {
        return Ok(Some(conflict));
    }
    propagate(&walk.checker, &walk.lists, &mut walk.trace, walk.head)
}

/// How many lines there are, each of a conflict.
fn lines(walk: &Walk) -> u64
    ensures { result ≡ length walk.now.checker.lines }
{
    walk.checker.next_number() - walk.checker.formula().slice().len() as u64
}

/// Adds a line, also to the clauses that propagate.
fn keep_line(walk: &mut Walk, line: Line) -> Result<(), AllocError>
    requires accepted { outcome (known walk.old.checker) line.clause line.hints ≡ accepted }
    requires room { 2 * clause_variables line.clause ≤ length walk.old.lists.items }
    requires indexed { IsIndex (known walk.old.checker) walk.old.lists.items }
    ensures { OnOk result (Keeps walk.old walk.new line) }
{
    let number = walk.checker.next_number();
    add_clause(&mut walk.lists, &line.clause, number)?;
    walk.checker.keep(line)?;
    Ok(())
}

/// Goes back to before the decision at `start`, and makes it false by the line of this number.
fn give_back(walk: &mut Walk, start: usize, number: u64) -> Result<(), AllocError>
    requires explained { Explained (known walk.old.checker) nothing walk.old.trace.entries }
    requires there { start < length walk.old.trace.entries }
    requires started { starts_at walk.old.levels.items start ≡ true }
    ensures { OnOk result (Returns walk.old walk.new start number) }
{
    let level = take_off(&mut walk.levels, start);
    let lit = walk.trace.lit(start);
    walk.trace.undo(start);
    walk.trace.push(lit.negated(), Some(number))?;
    walk.head = start;
    walk.left = level.known;
    let after = walk.trace.len();
    walk.levels.push(Level {
        depth: level.depth,
        value: level.value,
        start: after,
        known: level.known,
        decided: false,
    })?;
    Ok(())
}

/// Learns from a false clause, and goes back.
fn fail(alloc: Global, walk: &mut Walk, conflict: u64) -> Result<Turn, AllocError>
    requires sound { IsSound walk.old }
    requires conflict { IsConflict (known walk.old.checker) (values walk.old.trace.entries) conflict }
    ensures { IfOk result (λ t. Fails walk.old walk.new t) }
{
    if lines(walk) >= walk.budget {
        return Ok(Turn::Ended(End::Spent));
    }
    let Learned { line, found } = learn(alloc, &walk.checker, &walk.trace, conflict)?;
    let number = walk.checker.next_number();
    keep_line(walk, line)?;
    match found {
        None => Ok(Turn::Ended(End::Refuted)),
        Some(start) => {
            give_back(walk, start, number)?;
            Ok(Turn::On)
        }
    }
}

/// The first group from `depth` on that has no true literal.
fn next_group(trace: &Trace, groups: &[Lits], depth: usize) -> usize
    requires room { variables groups.now ≤ trace.now.size }
    requires earlier { is_decided (values trace.now.entries) (take depth groups.now) ≡ true }
    requires within { depth ≤ length groups.now }
    ensures later { depth ≤ result }
    ensures within { result ≤ length groups.now }
    ensures earlier { is_decided (values trace.now.entries) (take result groups.now) ≡ true }
    ensures untrue { result < length groups.now → list_any (is_true (values trace.now.entries)) (slice_index_or groups.now result []) ≡ false }
{
    for place in depth..groups.len() {
        if !trace.has_true(&groups[place]) {
            return place;
        }
    }
    groups.len()
}

/// The first literal of a group that has no value.
fn next_value(trace: &Trace, group: &[Lit]) -> usize
    requires { clause_variables group.now ≤ trace.now.size }
    ensures within { result ≤ length group.now }
    ensures valued { list_all (λ l. is_some (values trace.now.entries l.var)) (take result group.now) ≡ true }
    ensures open_yet { (d : _) → result < length group.now → is_none (values trace.now.entries (slice_index_or group.now result d).var) ≡ true }
{
    for (place, lit) in group.iter().enumerate() {
        if trace.is_open(*lit) {
            return place;
        }
    }
    group.len()
}

/// Makes a value of a group true by decision.
fn decide(walk: &mut Walk, depth: usize, value: usize, lit: Lit) -> Result<(), AllocError>
    requires room { lit.var < walk.old.trace.size }
    requires fresh { values walk.old.trace.entries lit.var ≡ None }
    ensures { OnOk result (Decides walk.old walk.new depth value lit) }
{
    let start = walk.trace.len();
    let known = walk.checker.next_number();
    put(
        &mut walk.levels,
        Level {
            depth,
            value,
            start,
            known,
            decided: true,
        },
    )?;
    walk.trace.push(lit, None)?;
    let _count = walk.trace.len();
    walk.head = start;
    walk.left = known;
    Ok(())
}

/// Decides the next value, where some group has no true literal.
fn choose(walk: &mut Walk, groups: &[Lits]) -> Result<Turn, AllocError>
    requires guided { Guides walk.old.checker.formula groups.now }
    requires sound { IsSound walk.old }
    requires placed { IsPlaced groups.now walk.old }
    requires quiet { is_quiet (values walk.old.trace.entries) (known walk.old.checker) ≡ true }
    ensures { IfOk result (λ t. Chooses groups.now walk.old walk.new t) }
{
    let depth = next_group(&walk.trace, groups, last_depth(&walk.levels));
    if depth == groups.len() {
        return Ok(Turn::Ended(End::Solved));
    }
    let group = groups[depth].slice();
    let value = next_value(&walk.trace, group);
    decide(walk, depth, value, group[value])?;
    Ok(Turn::On)
}

/// One turn: propagates, and then goes back or decides.
fn take_turn(alloc: Global, walk: &mut Walk, groups: &[Lits]) -> Result<Turn, AllocError>
    requires guided { Guides walk.old.checker.formula groups.now }
    requires walking { IsWalking groups.now walk.old }
    ensures takes { IfOk result (λ t. Takes groups.now walk.old walk.new t) }
    ensures kept { IfOk result (λ _. IsKept walk.old.checker.formula walk.old.budget walk.new) }
{
    match settle(alloc, walk)? {
        Some(conflict) => Ok(fail(alloc, walk, conflict)?),
        None => Ok(choose(walk, groups)?),
    }
}

/// Takes turns until the walk ends.
pub fn walk_on(alloc: Global, walk: &mut Walk, groups: &[Lits]) -> Result<End, AllocError>
    requires guided { Guides walk.old.checker.formula groups.now }
    requires walking { IsWalking groups.now walk.old }
    ensures ends { IfOk result (λ e. EndsWith groups.now walk.new e) }
    ensures kept { IfOk result (λ _. IsKept walk.old.checker.formula walk.old.budget walk.new) }
{
    loop {
        if let Turn::Ended(end) = take_turn(alloc, walk, groups)? {
            return Ok(end);
        }
    }
}
