//! Tuples of arguments by their places.
ghost use Rattle.std.specs.Prelude.{◌≡◌, ◌<◌, ◌≤◌, ◌^◌, length, map, slice_get, All, Some};
ghost use Rattle.asm_domain.specs.Universe.{IsRank};
ghost use Rattle.asm_sign.specs.Tuples.{tuples, AllDistinct};
ghost use Rattle.asm_sign.specs.Arguments.{elements_at};

use crate::function::DeclaredDomain;
use crate::signature::Args;
use asm_domain::Value;
use std::alloc::Global;

/// The number of tuples of elements of these domains.
pub fn count_of(domains: &[DeclaredDomain], numbers: &[u32]) -> u64
    requires declared { All (λ n. n < length domains.now) numbers.now }
    requires few { length numbers.now ≤ 4 }
    ensures value { result ≡ length (tuples (map (elements_at domains.now) numbers.now)) }
    ensures distinct { AllDistinct (map (elements_at domains.now) numbers.now) }
{
    let mut count = 1;
    for number in numbers {
        let domain = &domains[*number as usize].domain;
        count *= u64::from(domain.size());
    }
    count
}

/// The place of a tuple, the first item slowest.
pub fn place_of(domains: &[DeclaredDomain], numbers: &[u32], args: &[Value]) -> Option<u64>
    requires declared { All (λ n. n < length domains.now) numbers.now }
    requires few { length numbers.now ≤ 4 }
    requires same { length args.now ≡ length numbers.now }
    requires distinct { AllDistinct (map (elements_at domains.now) numbers.now) }
    ensures { IsRank (tuples (map (elements_at domains.now) numbers.now)) args.now result }
{
    let mut place = 0;
    for (at, number) in numbers.iter().enumerate() {
        let domain = &domains[*number as usize].domain;
        let rank = domain.rank(&args[at])?;
        place = place * u64::from(domain.size()) + u64::from(rank);
    }
    Some(place)
}

/// The tuple at a place, where there are so many.
pub fn tuple_at(
    alloc: Global,
    domains: &[DeclaredDomain],
    numbers: &[u32],
    count: u64,
    place: u64,
) -> Args
    requires declared { All (λ n. n < length domains.now) numbers.now }
    requires few { length numbers.now ≤ 4 }
    requires all { count ≡ length (tuples (map (elements_at domains.now) numbers.now)) }
    requires within { place < count }
    ensures { slice_get (tuples (map (elements_at domains.now) numbers.now)) place ≡ Some result.items }
{
    let mut args = Args::new(alloc);
    let mut stride = count;
    let mut rest = place;
    for number in numbers {
        let domain = &domains[*number as usize].domain;
        stride /= u64::from(domain.size());
        args.push_reserved(domain.element((rest / stride) as u32));
        rest %= stride;
    }
    args
}
