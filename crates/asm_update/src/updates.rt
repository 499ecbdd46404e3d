ghost use Rattle.std.specs.Prelude.{◌≡◌, true, false, ℕ, ◌≤◌, not, filter, OnOk, OnErr, IsNone, vec_len, vec_capacity};
ghost use Rattle.std.specs.FinMap as map;
ghost use Rattle.std.specs.FinSet as set;
ghost use Rattle.std.specs.List.{IsDistinct};
ghost use Rattle.std.specs.List.Sorted.{IsStrictlySortedBy, IsPermutation, IsSorted};
ghost use Rattle.std.specs.Ordering.{eq_by_cmp};
ghost use Rattle.asm_node.specs.UpdateSet.{clash, consistent, touches, override, fire, pair_cmp};
ghost use Rattle.asm_update.specs.Applied.{IsOfSlots, HaveSlots, put_in};
ghost use Rattle.asm_update.specs.Clash.{HaveLocations};
ghost use Rattle.asm_update.specs.Order.{rank_cmp};

use crate::clash::first_clash;
use crate::order::order;
use crate::place::{has_slot, place_of};
use asm_domain::Value;
use asm_sign::Signature;
use asm_state::Store;
use std::alloc::{AllocError, Global};
use std::marker::Model;

/// A set of pairs of a slot and a value: the updates that a rule gives.
#[derive(Debug, Drop)]
pub struct Updates {
    pairs: Vec<(u32, Value)>,
}

impl Model for Updates {
    ghost use Rattle.std.specs.FinSet as set;
    ghost use Rattle.std.specs.List.Sorted.{IsStrictlySortedBy};
    ghost use Rattle.asm_node.specs.UpdateSet.{UpdateSet, pair_cmp, pair_code};
    ghost use Rattle.asm_update.specs.Order.{rank_cmp};

    ghost Value = { UpdateSet };

    ghost coded = { set.code pair_code };

    ghost view = { λ u. set.from_list u.pairs.items };

    ghost invariant = { λ u. IsStrictlySortedBy rank_cmp u.pairs.items };
}

impl Updates {
    /// The empty set.
    pub fn new(alloc: Global) -> Updates
        ensures { result ≡ set.empty }
    {
        Updates {
            pairs: Vec::new(alloc),
        }
    }

    /// The pairs of the set, by slot and then by value: `undef`, truth values, numbers, elements.
    pub fn pairs(&self) -> &[(u32, Value)]
        ensures all { set.from_list result.now ≡ self.now }
        ensures once { IsDistinct (eq_by_cmp pair_cmp) result.now }
        ensures ordered { IsStrictlySortedBy rank_cmp result.now }
    {
        self.pairs.as_slice()
    }

    /// Adds a pair, where the set doesn't have it already.
    pub fn add(&mut self, slot: u32, value: Value) -> Result<(), AllocError>
        ensures ok { OnOk result (self.new ≡ set.insert self.old (slot, value)) }
        ensures err { OnErr result (self.new ≡ self.old) }
    {
        let pair = (slot, value);
        let place = place_of(&self.pairs, pair);
        if place == self.pairs.len() || order(self.pairs[place], pair).is_ne() {
            self.pairs.insert(place, pair)?;
        }
        Ok(())
    }

    /// Adds the pairs of another set.
    pub fn union(&mut self, other: &Updates) -> Result<(), AllocError>
        ensures ok { OnOk result (self.new ≡ set.union self.old other.now) }
        ensures err { OnErr result (self.new ≡ self.old) }
    {
        self.pairs.extend_from_slice(&other.pairs)?;
        settle(&mut self.pairs);
        Ok(())
    }

    /// Adds the pairs of a later set, and leaves out the pairs that are there of the later set's slots.
    pub fn override_by(&mut self, later: &Updates) -> Result<(), AllocError>
        ensures ok { OnOk result (self.new ≡ override self.old later.now) }
        ensures err { OnErr result (self.new ≡ self.old) }
    {
        self.pairs.reserve(later.pairs.len())?;
        keep_others(&mut self.pairs, later);
        self.pairs.extend_from_slice(&later.pairs)?;
        settle(&mut self.pairs);
        Ok(())
    }

    /// Puts the values of a consistent set in the store. No other slot changes.
    pub fn apply<S: Store>(&self, store: &mut S)
        requires consistent { consistent self.now ≡ true }
        requires slots { IsOfSlots self.now (S.state store.old) }
        ensures fired { S.state store.new ≡ fire (S.state store.old) self.now }
        ensures others { (slot : ℕ) → touches self.now slot ≡ false → map.get (S.state store.new) slot ≡ map.get (S.state store.old) slot }
    {
        put_in(&self.pairs, store);
    }

    /// The least slot with two values in the set, and its two least values by rank, `undef` before all others.
    pub fn clash(&self, signature: &Signature) -> Option<(u32, Value, Value)>
        ensures clash { result ≡ clash signature.now self.now }
        ensures consistent { consistent self.now ≡ true → IsNone result }
        ensures inconsistent { HaveLocations signature.now self.now → IsNone result → consistent self.now ≡ true }
    {
        first_clash(&self.pairs, signature)
    }

    /// Whether the set has a pair of the slot.
    fn touches(&self, slot: u32) -> bool
        ensures { result ≡ touches self.now slot }
    {
        has_slot(&self.pairs, slot)
    }
}

/// Puts pairs in, one after the other.
fn put_in<S: Store>(pairs: &[(u32, Value)], store: &mut S)
    requires { HaveSlots pairs.now (S.state store.old) }
    ensures { S.state store.new ≡ put_in (S.state store.old) pairs.now }
{
    for pair in pairs {
        store.put(pair.0, pair.1);
    }
}

/// Keeps the pairs whose slot the later set has no pair of.
fn keep_others(pairs: &mut Vec<(u32, Value)>, later: &Updates)
    ensures kept { pairs.new.items ≡ filter (λ p. not (touches later.now p.0)) pairs.old.items }
    ensures len { vec_len pairs.new ≤ vec_len pairs.old }
    ensures capacity { vec_capacity pairs.new ≡ vec_capacity pairs.old }
{
    pairs.retain(|pair| !later.touches(pair.0));
}

/// Puts pairs in order, and leaves out what is there twice.
fn settle(pairs: &mut Vec<(u32, Value)>)
    ensures same { set.from_list {R = pair_cmp} pairs.new.items ≡ set.from_list pairs.old.items }
    ensures sorted { IsStrictlySortedBy rank_cmp pairs.new.items }
{
    sort(pairs);
    pairs.dedup_by(|later, kept| order(*later, *kept).is_eq());
}

fn sort(pairs: &mut Vec<(u32, Value)>)
    ensures same { IsPermutation pairs.old.items pairs.new.items }
    ensures sorted { IsSorted rank_cmp pairs.new.items }
{
    pairs.sort_unstable_by(|left, right| order(*left, *right));
}
