ghost use Rattle.std.specs.Prelude.{◌≡◌, ◌≤◌, false, length, nat_eq};
ghost use Rattle.std.specs.FinSet as set;
ghost use Rattle.std.specs.List.{list_any};
ghost use Rattle.std.specs.List.Sorted.{IsStrictlySortedBy};
ghost use Rattle.asm_update.specs.Clash.{HasAtMostOne};
ghost use Rattle.asm_update.specs.Order.{rank_cmp, AreBefore, AreNotBefore, AreBelow, AreNotBelow};

use crate::order::order;
use asm_domain::Value;

/// How many pairs are before a pair in the order.
pub fn place_of(pairs: &[(u32, Value)], pair: (u32, Value)) -> usize
    requires { IsStrictlySortedBy rank_cmp pairs.now }
    ensures within { result ≤ length pairs.now }
    ensures before { AreBefore pair pairs.now result }
    ensures after { AreNotBefore pair pairs.now result }
{
    pairs.partition_point(|other| order(*other, pair).is_lt())
}

/// Whether a pair of pairs in order has the slot.
pub fn has_slot(pairs: &[(u32, Value)], slot: u32) -> bool
    requires { IsStrictlySortedBy rank_cmp pairs.now }
    ensures { result ≡ list_any (λ p. nat_eq p.0 slot) pairs.now }
{
    let place = first_of(pairs, slot);
    place < pairs.len() && pairs[place].0 == slot
}

/// Whether two pairs of pairs in order have the slot.
pub fn has_two(pairs: &[(u32, Value)], slot: u32) -> bool
    requires { IsStrictlySortedBy rank_cmp pairs.now }
    ensures { result ≡ false → HasAtMostOne (set.from_list pairs.now) slot }
{
    let next = first_of(pairs, slot) + 1;
    next < pairs.len() && pairs[next].0 == slot
}

/// How many pairs are of slots before a slot.
fn first_of(pairs: &[(u32, Value)], slot: u32) -> usize
    requires { IsStrictlySortedBy rank_cmp pairs.now }
    ensures within { result ≤ length pairs.now }
    ensures below { AreBelow slot pairs.now result }
    ensures not_below { AreNotBelow slot pairs.now result }
{
    pairs.partition_point(|pair| pair.0 < slot)
}
