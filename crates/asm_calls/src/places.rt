//! For each function, the place of its first definition.

ghost use Rattle.std.specs.Prelude.{◌≡◌, ℕ, ◌+◌, ◌<◌, ◌≤◌, ◌^◌, ◌∷◌, [], ◌++◌, length, if◌then◌else◌, nat_eq, Some, None, slice_index_or, IfOk, OnOk};
ghost use Rattle.asm_calls.specs.Graphs.{is_number, end_of, IsPlaced};

use crate::caller::Caller;
use asm_faults::Known;
use asm_list::Listed;
use std::alloc::{AllocError, Global};

/// For each function, the place of its first definition, up to the last function that is defined.
///
/// There are numbers for 4,294,967,295 definitions.
pub fn places(
    alloc: Global,
    known: &Known,
    definitions: &[Caller],
) -> Result<Listed<Option<u32>>, AllocError>
    ensures { IfOk result (λ places. IsPlaced known.now definitions.now places) }
{
    let mut places = Vec::new(alloc);
    let count = count(definitions)?;
    'definitions: for behind in 0..count {
        let place = count - 1 - behind;
        let number = known.function_number(&definitions[place as usize].name);
        set_place(&mut places, number, place)?;
    }
    Ok(Listed::from_vec(places))
}

fn count(definitions: &[Caller]) -> Result<u32, AllocError>
    ensures { IfOk result (λ count. count ≡ length definitions.now) }
{
    if definitions.len() > u32::MAX as usize {
        return Err(AllocError);
    }
    Ok(definitions.len() as u32)
}

/// Puts a place under a number, if there is one.
fn set_place(
    places: &mut Vec<Option<u32>>,
    number: Option<u32>,
    place: u32,
) -> Result<(), AllocError>
    ensures places { OnOk result ((n : ℕ) → slice_index_or places.new.items n None ≡ (if is_number number n then Some place else slice_index_or places.old.items n None)) }
    ensures short { OnOk result ((bound : ℕ) → length places.old.items ≤ bound → end_of number ≤ bound → length places.new.items ≤ bound) }
{
    match number {
        Some(number) => put(places, number as usize, place),
        None => Ok(()),
    }
}

fn put(places: &mut Vec<Option<u32>>, number: usize, place: u32) -> Result<(), AllocError>
    requires { number < 2 ^ 32 }
    ensures places { OnOk result ((n : ℕ) → slice_index_or places.new.items n None ≡ (if nat_eq number n then Some place else slice_index_or places.old.items n None)) }
    ensures short { OnOk result ((bound : ℕ) → length places.old.items ≤ bound → number + 1 ≤ bound → length places.new.items ≤ bound) }
{
    grow(places, number + 1)?;
    places[number] = Some(place);
    Ok(())
}

/// Adds empty places up to this length.
fn grow(places: &mut Vec<Option<u32>>, needed: usize) -> Result<(), AllocError>
    ensures places { OnOk result ((n : ℕ) → slice_index_or places.new.items n None ≡ slice_index_or places.old.items n None) }
    ensures enough { OnOk result (needed ≤ length places.new.items) }
    ensures short { OnOk result ((bound : ℕ) → length places.old.items ≤ bound → needed ≤ bound → length places.new.items ≤ bound) }
{
    let count = places.len();
    'empty: for _ in count..needed {
        add_empty(places)?;
    }
    Ok(())
}

fn add_empty(places: &mut Vec<Option<u32>>) -> Result<(), AllocError>
    ensures { OnOk result (places.new.items ≡ places.old.items ++ None ∷ []) }
{
    places.push(None)?;
    Ok(())
}
