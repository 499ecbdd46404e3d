//! For each literal, the numbers of the clauses that have it.

ghost use Rattle.std.specs.Prelude.{◌≡◌, ◌<◌, ◌≤◌, ◌*◌, ◌++◌, ◌∷◌, [], length, IfOk, OnOk, slice_set, slice_index_or};
ghost use Rattle.cnf_base.specs.Clauses.{clause_variables, variables};
ghost use Rattle.cnf_search.specs.Queue.{place_of, numbers_at, IsIndex, Names};

use asm_list::Listed;
use cnf_base::{Clause, Formula, Lit};
use std::alloc::{AllocError, Global};

/// A list of clause numbers for each literal.
pub type Index = Vec<Listed<u64>>;

/// The index of a formula, with room for the variables below `count`.
pub fn index_of(alloc: Global, formula: &Formula, count: u32) -> Result<Index, AllocError>
    requires { variables formula.now ≤ count }
    ensures index { IfOk result (λ index. IsIndex formula.now index.items) }
    ensures long { IfOk result (λ index. length index.items ≡ 2 * count) }
{
    let mut lists = empty_lists(alloc, 2 * count as usize)?;
    for (number, clause) in formula.slice().iter().enumerate() {
        add_clause(&mut lists, clause, number as u64)?;
    }
    Ok(lists)
}

/// The numbers of the clauses that have the literal.
pub fn clauses_with(index: &Index, lit: Lit) -> &[u64]
    ensures { result.now ≡ numbers_at index.now.items lit }
{
    match index.get(place_of(lit)) {
        Some(numbers) => numbers.slice(),
        None => &[],
    }
}

fn place_of(lit: Lit) -> usize
    ensures { result ≡ place_of lit }
{
    let var = lit.var as usize;
    if lit.positive { 2 * var + 1 } else { 2 * var }
}

fn empty_lists(alloc: Global, count: usize) -> Result<Vec<Listed<u64>>, AllocError>
    ensures { IfOk result (λ lists. length lists.items ≡ count) }
{
    let mut lists = Vec::new(alloc);
    for _ in 0..count {
        lists.push(Listed::new(alloc))?;
    }
    Ok(lists)
}

/// Names the clause in the list of each of its literals.
pub fn add_clause(
    lists: &mut Vec<Listed<u64>>,
    clause: &Clause,
    number: u64,
) -> Result<(), AllocError>
    requires { 2 * clause_variables clause.now ≤ length lists.old.items }
    ensures len { length lists.new.items ≡ length lists.old.items }
    ensures names { OnOk result (Names lists.old.items lists.new.items clause.now number) }
{
    for lit in clause.slice() {
        add(lists, place_of(*lit), number)?;
    }
    Ok(())
}

/// Adds a number to the list at this place.
fn add(lists: &mut Vec<Listed<u64>>, place: usize, number: u64) -> Result<(), AllocError>
    requires { place < length lists.old.items }
    ensures len { length lists.new.items ≡ length lists.old.items }
    ensures added { OnOk result (lists.new.items ≡ slice_set lists.old.items place (slice_index_or lists.old.items place [] ++ number ∷ [])) }
{
    lists[place].push(number)
}
