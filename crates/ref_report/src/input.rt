//! The locations that an input gives, and choice words.
ghost use Rattle.std.specs.Prelude.{◌≡◌, ◌++◌, OnOk, map, decimal, option_copied};
ghost use Rattle.asm_text.specs.Texts.{joint, location_line, with_commas};
ghost use Rattle.ref_report.specs.Texts as spec;

use asm_domain::Value;
use asm_node::Input;
use asm_sign::Signature;
use asm_source::{Text, append_number, append_str};
use asm_text::{print_location, print_value};
use std::alloc::AllocError;

/// Appends a line for each location that the input gives, in their order.
pub fn append_input(signature: &Signature, input: &Input, text: &mut Text) -> Result<(), AllocError>
    ensures { OnOk result (text.new ≡ text.old ++ spec.input_text signature.now input.now) }
{
    'slots: for slot in 0..signature.slots() {
        append_given(signature, slot, input.get(slot), text)?;
    }
    Ok(())
}

/// Appends the line of a location, if it is given a value.
fn append_given(
    signature: &Signature,
    slot: u32,
    value: Option<&Value>,
    text: &mut Text,
) -> Result<(), AllocError>
    ensures { OnOk result (text.new ≡ text.old ++ spec.given_line signature.now slot (option_copied value.entry)) }
{
    match value {
        Some(value) => append_location(signature, slot, value, text),
        None => Ok(()),
    }
}

/// Appends the line of a location with its value.
fn append_location(
    signature: &Signature,
    slot: u32,
    value: &Value,
    text: &mut Text,
) -> Result<(), AllocError>
    ensures { OnOk result (text.new ≡ text.old ++ location_line signature.now slot value.now) }
{
    append_str(text, "  ")?;
    print_location(signature, slot, text)?;
    append_str(text, " = ")?;
    print_value(signature, value, text)?;
    append_str(text, "\n")
}

/// Appends the line of choice words.
pub fn append_choices(words: &[u32], text: &mut Text) -> Result<(), AllocError>
    ensures { OnOk result (text.new ≡ text.old ++ spec.choices_line words.now) }
{
    append_str(text, "choices ")?;
    append_words(words, text)?;
    append_str(text, "\n")
}

/// Appends words with commas between them, or `none`.
fn append_words(words: &[u32], text: &mut Text) -> Result<(), AllocError>
    ensures { OnOk result (text.new ≡ text.old ++ spec.words_text words.now) }
{
    if words.is_empty() {
        return append_str(text, "none");
    }
    append_listed(words, text)
}

/// Appends words with commas between them.
fn append_listed(words: &[u32], text: &mut Text) -> Result<(), AllocError>
    ensures { OnOk result (text.new ≡ text.old ++ with_commas (map decimal words.now)) }
{
    'words: for (index, word) in words.iter().enumerate() {
        append_str(text, joint(index))?;
        append_number(text, *word as u64)?;
    }
    Ok(())
}

/// What stands before the word at this place.
fn joint(index: usize) -> &'static str
    ensures { result.now ≡ joint index }
{
    if index == 0 { "" } else { "," }
}
