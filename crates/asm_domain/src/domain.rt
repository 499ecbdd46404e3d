ghost use Rattle.std.specs.Prelude.{◌≡◌, ℕ, ◌<◌, ◌≤◌, ◌↔◌, [], length, pos, ◌+ℤ◌, ◌≤ℤ◌, ◌<ℤ◌, slice_get, option_copied, IfOk, IfSome, IsNone, IsErrOf, Contains};
ghost use Rattle.asm_domain.specs.Universe.{Truths, Numbers, Named, elements, IsRank, MakeDomain, numbers_between};

use crate::error::DomainError;
use crate::refusal::{place_of_number, refusal_of_names, refusal_of_numbers};
use crate::value::Value;
use asm_list::{Listed, Name};
use std::alloc::Global;
use std::marker::Model;

/// The names of the elements of an enumeration or abstract domain, in their order.
pub type Names = Listed<Name>;

#[derive(Debug, Drop)]
enum Kind {
    Boolean,
    Range(i64, i64),
    Numbers(Listed<i64>),
    Named(u32, Names),
}

/// From 1 to 256 different elements in their order. The place of an element, counted from 0, is its rank.
#[derive(Debug, Drop)]
pub struct Domain {
    kind: Kind,
}

impl Model for Domain {
    ghost use Rattle.asm_domain.specs.Universe.{Universe};

    ghost Value = { Universe };

    ghost use Rattle.asm_domain.specs.Kinds.{universe_of, IsSound};

    ghost view = { λ d. universe_of d.kind };

    ghost invariant = { λ d. IsSound d.kind };
}

impl Domain {
    ghost use Rattle.asm_domain.specs.Universe.{names_of, AreDistinct, IsFirstRepeat};

    /// The truth values, `false` before `true`.
    pub fn boolean() -> Domain
        ensures { result ≡ Truths }
    {
        Domain {
            kind: Kind::Boolean,
        }
    }

    /// The numbers from `low` to `high`, upwards.
    pub fn range(low: i64, high: i64) -> Result<Domain, DomainError>
        ensures empty { IsErrOf result DomainError.Empty ↔ (high <ℤ low) }
        ensures too_large { IsErrOf result DomainError.TooLarge ↔ ((low +ℤ pos 256) ≤ℤ high) }
        ensures ok { low ≤ℤ high → high <ℤ (low +ℤ pos 256) → result ≡ Ok (Numbers (numbers_between low high)) }
    {
        if high < low {
            Err(DomainError::Empty)
        } else if high.abs_diff(low) >= 256 {
            Err(DomainError::TooLarge)
        } else {
            Ok(Domain {
                kind: Kind::Range(low, high),
            })
        }
    }

    /// These numbers, in this order. The tests come before any memory is taken.
    pub fn listed(alloc: Global, numbers: &[i64]) -> Result<Domain, DomainError>
        ensures empty { IsErrOf result DomainError.Empty ↔ (numbers.now ≡ []) }
        ensures too_large { IsErrOf result DomainError.TooLarge ↔ (256 < length numbers.now) }
        ensures repeated { (k : ℕ) → IsErrOf result (DomainError.Repeated k)
            ↔ ((length numbers.now ≤ 256) × IsFirstRepeat numbers.now k) }
        ensures ok { IfOk result (λ d. d ≡ Numbers numbers.now) }
    {
        if let Some(error) = refusal_of_numbers(numbers) {
            return Err(error);
        }
        Ok(Domain {
            kind: Kind::Numbers(Listed::from_slice(alloc, numbers)?),
        })
    }

    /// The elements of the enumeration or abstract domain of this number, which have these names. It takes no memory.
    pub fn named(number: u32, names: Names) -> Result<Domain, DomainError>
        ensures empty { IsErrOf result DomainError.Empty ↔ (names ≡ []) }
        ensures too_large { IsErrOf result DomainError.TooLarge ↔ (256 < length names) }
        ensures repeated { (k : ℕ) → IsErrOf result (DomainError.Repeated k)
            ↔ ((length names ≤ 256) × IsFirstRepeat names k) }
        ensures ok { IfOk result (λ d. d ≡ Named number names) }
        ensures no_memory { IsErrOf result DomainError.Memory → ⊥ }
    {
        if let Some(error) = refusal_of_names(names.slice()) {
            return Err(error);
        }
        Ok(Domain {
            kind: Kind::Named(number, names),
        })
    }

    /// The names of the elements of an enumeration or abstract domain. They are all different.
    pub fn names(&self) -> Option<&Names>
        ensures value { option_copied result ≡ names_of self.now }
        ensures distinct { IfSome result (λ names. AreDistinct names.now) }
    {
        match &self.kind {
            Kind::Named(_, names) => Some(names),
            _ => None,
        }
    }

    /// The number of elements, from 1 to 256. They are all different.
    pub fn size(&self) -> u32
        ensures value { result ≡ length (elements self.now) }
        ensures some { 0 < result }
        ensures few { result ≤ 256 }
        ensures distinct { AreDistinct (elements self.now) }
    {
        match &self.kind {
            Kind::Boolean => 2,
            Kind::Range(low, high) => high.abs_diff(*low) as u32 + 1,
            Kind::Numbers(numbers) => numbers.len() as u32,
            Kind::Named(_, names) => names.len() as u32,
        }
    }

    /// The element of a rank.
    pub fn element(&self, rank: u32) -> Value
        requires { rank < length (elements self.now) }
        ensures { slice_get (elements self.now) rank ≡ Some result }
    {
        match &self.kind {
            Kind::Boolean => Value::Bool(rank == 1),
            Kind::Range(low, high) => Value::Int(number_at(*low, *high, rank)),
            Kind::Numbers(numbers) => Value::Int(numbers.slice()[rank as usize]),
            Kind::Named(number, _) => Value::Elem(*number, rank),
        }
    }

    /// The rank of an element.
    pub fn rank(&self, value: &Value) -> Option<u32>
        ensures rank { IsRank (elements self.now) value.now result }
        ensures none { IsNone result ↔ (¬ Contains (elements self.now) value.now) }
    {
        match &self.kind {
            Kind::Boolean => rank_of_truth(value),
            Kind::Range(low, high) => rank_between(*low, *high, value),
            Kind::Numbers(numbers) => rank_among(numbers.slice(), value),
            Kind::Named(number, names) => rank_by_name(*number, names, value),
        }
    }
}

fn number_at(low: i64, high: i64, rank: u32) -> i64
    requires { (low +ℤ pos rank) ≤ℤ high }
    ensures { result ≡ low +ℤ pos rank }
{
    let number = low + i64::from(rank);
    prove!(number <= high);
    number
}

fn rank_of_truth(value: &Value) -> Option<u32>
    ensures { IsRank (elements Truths) value.now result }
{
    match value {
        Value::Bool(truth) => Some(u32::from(*truth)),
        _ => None,
    }
}

fn rank_between(low: i64, high: i64, value: &Value) -> Option<u32>
    requires { high <ℤ (low +ℤ pos 256) }
    ensures { IsRank (elements (Numbers (numbers_between low high))) value.now result }
{
    match value {
        Value::Int(number) => rank_of_number_between(low, high, *number),
        _ => None,
    }
}

fn rank_of_number_between(low: i64, high: i64, number: i64) -> Option<u32>
    requires { high <ℤ (low +ℤ pos 256) }
    ensures { IsRank (numbers_between low high) number result }
{
    if low <= number && number <= high {
        Some(number.abs_diff(low) as u32)
    } else {
        None
    }
}

fn rank_among(numbers: &[i64], value: &Value) -> Option<u32>
    requires { MakeDomain numbers.now }
    ensures { IsRank (elements (Numbers numbers.now)) value.now result }
{
    match value {
        Value::Int(number) => rank_of_number_among(numbers, *number),
        _ => None,
    }
}

fn rank_of_number_among(numbers: &[i64], number: i64) -> Option<u32>
    requires { MakeDomain numbers.now }
    ensures { IsRank numbers.now number result }
{
    match place_of_number(numbers, number) {
        Some(place) => Some(place as u32),
        None => None,
    }
}

fn rank_by_name(number: u32, names: &Names, value: &Value) -> Option<u32>
    ensures { IsRank (elements (Named number names.now)) value.now result }
{
    match value {
        Value::Elem(domain, rank) => {
            if *domain == number && (*rank as usize) < names.len() {
                Some(*rank)
            } else {
                None
            }
        }
        _ => None,
    }
}
