ghost use Rattle.std.specs.Prelude.{◌≡◌, ◌<◌, true, length, IsNone};
ghost use Rattle.std.specs.FinSet as set;
ghost use Rattle.std.specs.List.Sorted.{IsStrictlySortedBy};
ghost use Rattle.asm_node.specs.UpdateSet.{pair_cmp, clash, consistent, values_at};
ghost use Rattle.asm_sign.specs.Vocabulary.{locations};
ghost use Rattle.asm_update.specs.Clash.{first_pair};
ghost use Rattle.asm_update.specs.Order.{rank_cmp};

use crate::order::order;
use crate::place::{has_two, place_of};
use asm_domain::Value;
use asm_sign::Signature;

/// The clash of pairs in order.
pub fn first_clash(pairs: &[(u32, Value)], signature: &Signature) -> Option<(u32, Value, Value)>
    requires { IsStrictlySortedBy rank_cmp pairs.now }
    ensures clash { result ≡ clash signature.now (set.from_list {R = pair_cmp} pairs.now) }
    ensures consistent { consistent (set.from_list {R = pair_cmp} pairs.now) ≡ true → IsNone result }
{
    for pair in pairs {
        if pair.0 < signature.slots() {
            if let Some((least, next)) = two_least(pairs, pair.0, signature) {
                return Some((pair.0, least, next));
            }
        }
    }
    None
}

/// The two least values of a slot, by rank.
fn two_least(pairs: &[(u32, Value)], slot: u32, signature: &Signature) -> Option<(Value, Value)>
    requires sorted { IsStrictlySortedBy rank_cmp pairs.now }
    requires slot { slot < length (locations signature.now) }
    ensures values { result ≡ first_pair (values_at signature.now (set.from_list {R = pair_cmp} pairs.now) slot) }
    ensures consistent { consistent (set.from_list {R = pair_cmp} pairs.now) ≡ true → IsNone result }
{
    let codomain = signature.codomain(slot);
    let size = codomain.size();
    if !has_two(pairs, slot) {
        return None;
    }
    let mut first = has(pairs, (slot, Value::Undef)).then_some(Value::Undef);
    for rank in 0..size {
        let value = codomain.element(rank);
        if has(pairs, (slot, value)) {
            match first {
                Some(least) => return Some((least, value)),
                None => first = Some(value),
            }
        }
    }
    None
}

/// Whether a pair is one of pairs in order.
fn has(pairs: &[(u32, Value)], pair: (u32, Value)) -> bool
    requires { IsStrictlySortedBy rank_cmp pairs.now }
    ensures { result ≡ set.contains (set.from_list {R = pair_cmp} pairs.now) pair }
{
    let place = place_of(pairs, pair);
    place < pairs.len() && order(pairs[place], pair).is_eq()
}
