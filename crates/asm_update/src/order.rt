ghost use Rattle.std.specs.Prelude.{◌≡◌};
ghost use Rattle.asm_update.specs.Order.{rank_key, rank_cmp};

use asm_domain::Value;
use std::cmp::Ordering;

/// How two pairs stand in order: by slot, and at one slot by value, `undef` before truth values, numbers and elements,
/// each of which are in their own order.
pub fn order(left: (u32, Value), right: (u32, Value)) -> Ordering
    ensures { result ≡ rank_cmp left right }
{
    rank_key(left).cmp(&rank_key(right))
}

fn rank_key(pair: (u32, Value)) -> [i64; 4]
    ensures { result ≡ rank_key pair }
{
    let slot = i64::from(pair.0);
    match pair.1 {
        Value::Undef => [slot, 0, 0, 0],
        Value::Bool(truth) => [slot, 1, i64::from(truth), 0],
        Value::Int(number) => [slot, 2, number, 0],
        Value::Elem(domain, rank) => [slot, 3, i64::from(domain), i64::from(rank)],
    }
}
