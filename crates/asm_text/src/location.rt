//! The texts of locations.
ghost use Rattle.std.specs.Prelude.{◌≡◌, ◌++◌, codes, map};
ghost use Rattle.asm_source.specs.Appends.{Appends};
ghost use Rattle.asm_text.specs.Texts as spec;

use crate::value::print_value;
use asm_domain::Value;
use asm_sign::Signature;
use asm_source::{Text, append_str};
use std::alloc::AllocError;

/// Appends the text of the location at a slot. Past the last slot there is nothing to append.
pub fn print_location(signature: &Signature, slot: u32, out: &mut Text) -> Result<(), AllocError>
    ensures { Appends out.old out.new (spec.location_text signature.now slot) result }
{
    if slot >= signature.slots() {
        return Ok(());
    }
    let (function, arguments) = signature.location(slot);
    print_call(signature, function, arguments.as_slice(), out)
}

/// Appends a function's name and its arguments: `f`, or `f(v,w)` without blanks.
pub fn print_call(
    signature: &Signature,
    function: u32,
    arguments: &[Value],
    out: &mut Text,
) -> Result<(), AllocError>
    ensures { Appends out.old out.new (spec.function_name signature.now function ++ spec.arguments_text signature.now arguments.now) result }
{
    append_str(out, function_name(signature, function))?;
    print_arguments(signature, arguments, out)
}

/// The name of the function of this number, and nothing where there is none.
pub fn function_name(signature: &Signature, number: u32) -> &str
    ensures { result.now ≡ spec.function_name signature.now number }
{
    match signature.functions().item(number as usize) {
        Some(function) => function.name.text(),
        None => "",
    }
}

/// Appends arguments in parentheses, if there are any.
fn print_arguments(
    signature: &Signature,
    arguments: &[Value],
    out: &mut Text,
) -> Result<(), AllocError>
    ensures { Appends out.old out.new (spec.arguments_text signature.now arguments.now) result }
{
    if arguments.is_empty() {
        return Ok(());
    }
    print_enclosed(signature, arguments, out)
}

/// Appends values with commas between them, in parentheses.
fn print_enclosed(signature: &Signature, values: &[Value], out: &mut Text) -> Result<(), AllocError>
    ensures { Appends out.old out.new (codes "(" ++ spec.with_commas (map (spec.value_text signature.now) values.now) ++ codes ")") result }
{
    append_str(out, "(")?;
    print_values(signature, values, out)?;
    append_str(out, ")")
}

/// Appends values with commas between them.
fn print_values(signature: &Signature, values: &[Value], out: &mut Text) -> Result<(), AllocError>
    ensures { Appends out.old out.new (spec.with_commas (map (spec.value_text signature.now) values.now)) result }
{
    'items: for (index, value) in values.iter().enumerate() {
        print_item(signature, index, value, out)?;
    }
    Ok(())
}

/// Appends the value at this place among several, behind a comma if it isn't the first.
fn print_item(
    signature: &Signature,
    index: usize,
    value: &Value,
    out: &mut Text,
) -> Result<(), AllocError>
    ensures { Appends out.old out.new (spec.joint index ++ spec.value_text signature.now value.now) result }
{
    append_str(out, joint(index))?;
    print_value(signature, value, out)
}

/// What stands before the item at this place.
fn joint(index: usize) -> &'static str
    ensures { result.now ≡ spec.joint index }
{
    if index == 0 { "" } else { "," }
}
