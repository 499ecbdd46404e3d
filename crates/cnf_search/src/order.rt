//! The order in which the groups are decided.

ghost use Rattle.std.specs.Prelude.{◌≡◌, [], map, IfOk, slice_index_or};
ghost use Rattle.std.specs.List.Sorted.{IsPermutation};
ghost use Rattle.cnf_search.specs.Orders.{picked};

use crate::index::{Index, clauses_with};
use cnf_base::Lits;
use std::alloc::{AllocError, Global};

/// The place of a group among those of the circuit, and a number that is less for a group that is decided sooner.
#[derive(Clone, Copy, Debug)]
pub struct Ranked {
    pub place: usize,
    pub rank: u64,
}

/// The groups in the order in which they are decided: those first whose literals stand in the most clauses on average,
/// and where that is the same, in the order in which they were made.
pub fn ordered(alloc: Global, index: &Index, groups: &[Lits]) -> Result<Vec<Lits>, AllocError>
    ensures { IfOk result (λ v. IsPermutation groups.now v.items) }
{
    let mut ranks = ranks_of(alloc, index, groups)?;
    ranks.sort_by_key(|ranked| ranked.rank)?;
    Ok(picked(alloc, groups, &ranks)?)
}

fn ranks_of(alloc: Global, index: &Index, groups: &[Lits]) -> Result<Vec<Ranked>, AllocError>
    ensures { IfOk result (λ v. picked groups.now v.items ≡ groups.now) }
{
    let mut ranks = Vec::new(alloc);
    for (place, group) in groups.iter().enumerate() {
        ranks.push(Ranked {
            place,
            rank: rank_of(index, group),
        })?;
    }
    Ok(ranks)
}

/// The greatest number, less a thousand times the mean number of clauses that have a literal of the group or its
/// negation.
fn rank_of(index: &Index, group: &Lits) -> u64 {
    let mut total: u64 = 0;
    for lit in group.slice() {
        total = total.saturating_add(clauses_with(index, *lit).len() as u64);
        total = total.saturating_add(clauses_with(index, lit.negated()).len() as u64);
    }
    let size = (group.len() as u64).max(1);
    u64::MAX - total.saturating_mul(1000) / size
}

/// The groups at these places.
fn picked(alloc: Global, groups: &[Lits], ranks: &[Ranked]) -> Result<Vec<Lits>, AllocError>
    ensures { IfOk result (λ v. v.items ≡ picked groups.now ranks.now) }
{
    let mut list = Vec::new(alloc);
    for ranked in ranks {
        list.push(group_at(alloc, groups, ranked.place)?)?;
    }
    Ok(list)
}

/// A copy of the group at a place.
fn group_at(alloc: Global, groups: &[Lits], place: usize) -> Result<Lits, AllocError>
    ensures { IfOk result (λ g. g ≡ slice_index_or groups.now place []) }
{
    match groups.get(place) {
        Some(group) => Ok(Lits::from_slice(alloc, group.slice())?),
        None => Ok(Lits::new(alloc)),
    }
}
