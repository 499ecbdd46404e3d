ghost use Rattle.std.specs.Prelude.{◌≡◌, ◌∷◌, ◌++◌, [], ◌<◌, length, slice_get, bytes_eq, string_bytes, MatchOption, IfOk, OnErr};
ghost use Rattle.name_table.specs.Numbered.{text_of, number_in};
ghost use Rattle.name_table.specs.Entered.{IsEntered};

use indexmap::IndexMap;
use std::alloc::{AllocError, Global};

/// The place of the entry with a text, which gets this number where it is new.
pub fn place_of(
    alloc: Global,
    entries: &mut IndexMap<String, u32>,
    text: &str,
    number: u32,
) -> Result<usize, AllocError>
    ensures ok { IfOk result (λ place. IsEntered entries.old.entries entries.new.entries text.now number place) }
    ensures err { OnErr result (entries.new.entries ≡ entries.old.entries) }
{
    if let Some(place) = entries.get_index_of(text) {
        return Ok(place);
    }
    let place = entries.len();
    entries.insert(String::from_str(alloc, text)?, number)?;
    Ok(place)
}
