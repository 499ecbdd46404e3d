//! The tests that elements must pass to make a domain.
ghost use Rattle.std.specs.Prelude.{◌≡◌, ℕ, ◌≤◌, length, Some, IfSome, IsNone, slice_get};
ghost use Rattle.asm_domain.specs.Universe.{AreDistinct, IsFirstRepeat};
ghost use Rattle.asm_domain.specs.Refusal.{IsRefusal};

use crate::error::DomainError;
use asm_list::Name;

/// The most elements that a domain may have.
const MOST: usize = 256;

/// The first test that the numbers fail.
pub fn refusal_of_numbers(numbers: &[i64]) -> Option<DomainError>
    ensures { IsRefusal numbers.now result }
{
    if numbers.is_empty() {
        Some(DomainError::Empty)
    } else if numbers.len() > MOST {
        Some(DomainError::TooLarge)
    } else {
        match first_repeated_number(numbers) {
            Some(place) => Some(DomainError::Repeated(place)),
            None => None,
        }
    }
}

/// The first test that the names fail.
pub fn refusal_of_names(names: &[Name]) -> Option<DomainError>
    ensures { IsRefusal names.now result }
{
    if names.is_empty() {
        Some(DomainError::Empty)
    } else if names.len() > MOST {
        Some(DomainError::TooLarge)
    } else {
        match first_repeated_name(names) {
            Some(place) => Some(DomainError::Repeated(place)),
            None => None,
        }
    }
}

/// The first place at which a number stands.
pub fn place_of_number(numbers: &[i64], number: i64) -> Option<usize>
    ensures found { IfSome result (λ k. slice_get numbers.now k ≡ Some number) }
    ensures none { IsNone result → (k : ℕ) → slice_get numbers.now k ≡ Some number → ⊥ }
{
    for (place, other) in numbers.iter().enumerate() {
        if *other == number {
            return Some(place);
        }
    }
    None
}

fn place_of_name(names: &[Name], name: &Name) -> Option<usize>
    ensures found { IfSome result (λ k. slice_get names.now k ≡ Some name.now) }
    ensures none { IsNone result → (k : ℕ) → slice_get names.now k ≡ Some name.now → ⊥ }
{
    for (place, other) in names.iter().enumerate() {
        if other.text() == name.text() {
            return Some(place);
        }
    }
    None
}

fn first_repeated_number(numbers: &[i64]) -> Option<u32>
    requires { length numbers.now ≤ 256 }
    ensures found { IfSome result (IsFirstRepeat numbers.now) }
    ensures none { IsNone result → AreDistinct numbers.now }
{
    for (place, number) in numbers.iter().enumerate() {
        let earlier = place_of_number(&numbers[..place], *number);
        if earlier.is_some() {
            return Some(place as u32);
        }
    }
    None
}

fn first_repeated_name(names: &[Name]) -> Option<u32>
    requires { length names.now ≤ 256 }
    ensures found { IfSome result (IsFirstRepeat names.now) }
    ensures none { IsNone result → AreDistinct names.now }
{
    for (place, name) in names.iter().enumerate() {
        let earlier = place_of_name(&names[..place], name);
        if earlier.is_some() {
            return Some(place as u32);
        }
    }
    None
}
