//! The texts of places.
ghost use Rattle.std.specs.Prelude.{◌≡◌, ◌++◌, ◌<◌, ◌^◌, codes, length, slice_get};
ghost use Rattle.std.specs.Fmt.{decimal};
ghost use Rattle.asm_source.specs.Appends.{Appends};
ghost use Rattle.asm_source.specs.Spots.{spot_at, text_of};
ghost use Rattle.asm_text.specs.Texts as spec;

use asm_source::{Place, Sources, Spot, Text, append_number, append_str};
use std::alloc::AllocError;

/// Appends a place as the file's name, the line and the column, both from 1, the column in bytes. A place past the end
/// of its file is told as the end.
pub fn print_place(sources: &Sources, place: Place, out: &mut Text) -> Result<(), AllocError>
    requires { spec.AreShort sources.now }
    ensures { Appends out.old out.new (spec.place_text sources.now place) result }
{
    print_spot(file_name(sources, place.file), spot(sources, place), out)
}

/// Appends a file's name, a line and a column.
fn print_spot(name: &str, spot: Spot, out: &mut Text) -> Result<(), AllocError>
    ensures { Appends out.old out.new (name.now ++ codes ":" ++ spec.spot_text spot) result }
{
    append_str(out, name)?;
    append_str(out, ":")?;
    print_number(spot.line, out)?;
    append_str(out, ":")?;
    print_number(spot.column, out)
}

/// Appends a number in decimal digits.
pub fn print_number(number: u32, out: &mut Text) -> Result<(), AllocError>
    ensures { Appends out.old out.new (decimal number) result }
{
    append_number(out, u64::from(number))
}

/// The name of the file of this number, and nothing where there is none.
fn file_name(sources: &Sources, file: u32) -> &str
    ensures { result.now ≡ spec.file_name (slice_get sources.now file) }
{
    match sources.item(file as usize) {
        Some(source) => source.name.text(),
        None => "",
    }
}

/// The line and the column of a place, or of the end of its text where it is past that.
fn spot(sources: &Sources, place: Place) -> Spot
    requires { spec.AreShort sources.now }
    ensures { result ≡ spot_at (text_of sources.now place.file) place.at }
{
    if place.file as usize >= sources.len() {
        return Spot { line: 1, column: 1 };
    }
    let at = place.at.min(text_len(sources, place.file));
    sources.spot(Place {
        file: place.file,
        at,
    })
}

/// The length of the text of a file.
fn text_len(sources: &Sources, file: u32) -> u32
    requires short { spec.AreShort sources.now }
    requires listed { file < length sources.now }
    ensures within { result < 2 ^ 31 }
    ensures value { result ≡ length (text_of sources.now file) }
{
    sources.slice()[file as usize].text.len() as u32
}
