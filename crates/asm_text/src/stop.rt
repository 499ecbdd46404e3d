//! The lines of stops.
ghost use Rattle.std.specs.Prelude.{◌++◌, codes};
ghost use Rattle.std.specs.Fmt.{decimal};
ghost use Rattle.asm_source.specs.Appends.{Appends};
ghost use Rattle.asm_text.specs.Texts as spec;

use crate::location::print_location;
use crate::place::{print_number, print_place};
use crate::value::print_value;
use asm_domain::Value;
use asm_node::Stop;
use asm_sign::Signature;
use asm_source::{Place, Sources, Text, append_str};
use std::alloc::AllocError;

/// Appends the line of a stop, with its end.
pub fn print_stop(
    signature: &Signature,
    sources: &Sources,
    stop: &Stop,
    out: &mut Text,
) -> Result<(), AllocError>
    requires { spec.AreShort sources.now }
    ensures { Appends out.old out.new (spec.stop_line signature.now sources.now stop.now) result }
{
    append_str(out, "stop: ")?;
    print_reason(signature, sources, stop, out)?;
    append_str(out, "\n")
}

/// Appends what a stop is, without its beginning and its end.
fn print_reason(
    signature: &Signature,
    sources: &Sources,
    stop: &Stop,
    out: &mut Text,
) -> Result<(), AllocError>
    requires { spec.AreShort sources.now }
    ensures { Appends out.old out.new (spec.stop_text signature.now sources.now stop.now) result }
{
    match stop {
        Stop::Clash(slot, first, second) => print_clash(signature, *slot, first, second, out),
        Stop::Invariant(number) => print_invariant(*number, out),
        Stop::Input(slot) => print_located(signature, "no input for ", *slot, out),
        Stop::Choice(place) => print_placed(sources, "no choice word at ", *place, out),
        Stop::UndefGuard(place) => print_placed(sources, "undefined guard at ", *place, out),
        Stop::BadArgument(place) => print_placed(sources, "bad argument at ", *place, out),
        Stop::BadValue(place, slot, value) => print_bad_value(
            signature, sources, *place, *slot, value, out,
        ),
        Stop::BadInitial(slot, value) => print_bad_initial(signature, *slot, value, out),
    }
}

/// Appends these words and a location.
fn print_located(
    signature: &Signature,
    words: &str,
    slot: u32,
    out: &mut Text,
) -> Result<(), AllocError>
    ensures { Appends out.old out.new (words.now ++ spec.location_text signature.now slot) result }
{
    append_str(out, words)?;
    print_location(signature, slot, out)
}

/// Appends these words and a place.
fn print_placed(
    sources: &Sources,
    words: &str,
    place: Place,
    out: &mut Text,
) -> Result<(), AllocError>
    requires { spec.AreShort sources.now }
    ensures { Appends out.old out.new (words.now ++ spec.place_text sources.now place) result }
{
    append_str(out, words)?;
    print_place(sources, place, out)
}

fn print_clash(
    signature: &Signature,
    slot: u32,
    first: &Value,
    second: &Value,
    out: &mut Text,
) -> Result<(), AllocError>
    ensures { Appends out.old out.new (codes "clash at " ++ spec.location_text signature.now slot ++ codes ": " ++ spec.value_text signature.now first.now ++ codes " and " ++ spec.value_text signature.now second.now) result }
{
    append_str(out, "clash at ")?;
    print_location(signature, slot, out)?;
    append_str(out, ": ")?;
    print_value(signature, first, out)?;
    append_str(out, " and ")?;
    print_value(signature, second, out)
}

fn print_invariant(number: u32, out: &mut Text) -> Result<(), AllocError>
    ensures { Appends out.old out.new (codes "invariant " ++ decimal number) result }
{
    append_str(out, "invariant ")?;
    print_number(number, out)
}

fn print_bad_value(
    signature: &Signature,
    sources: &Sources,
    place: Place,
    slot: u32,
    value: &Value,
    out: &mut Text,
) -> Result<(), AllocError>
    requires { spec.AreShort sources.now }
    ensures { Appends out.old out.new (codes "bad value " ++ spec.value_text signature.now value.now ++ codes " for " ++ spec.location_text signature.now slot ++ codes " at " ++ spec.place_text sources.now place) result }
{
    append_str(out, "bad value ")?;
    print_value(signature, value, out)?;
    append_str(out, " for ")?;
    print_location(signature, slot, out)?;
    append_str(out, " at ")?;
    print_place(sources, place, out)
}

fn print_bad_initial(
    signature: &Signature,
    slot: u32,
    value: &Value,
    out: &mut Text,
) -> Result<(), AllocError>
    ensures { Appends out.old out.new (codes "bad initial value " ++ spec.value_text signature.now value.now ++ codes " for " ++ spec.location_text signature.now slot) result }
{
    append_str(out, "bad initial value ")?;
    print_value(signature, value, out)?;
    append_str(out, " for ")?;
    print_location(signature, slot, out)
}
