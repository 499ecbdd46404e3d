//! The texts of values.
ghost use Rattle.std.specs.Prelude.{◌≡◌, [], slice_get};
ghost use Rattle.std.specs.Option.{unwrap_or};
ghost use Rattle.asm_source.specs.Appends.{Appends};
ghost use Rattle.asm_text.specs.Texts as spec;

use asm_domain::{Domain, Names, Value};
use asm_sign::Signature;
use asm_source::{Text, append_integer, append_str};
use std::alloc::AllocError;

/// Appends the text of a value.
pub fn print_value(signature: &Signature, value: &Value, out: &mut Text) -> Result<(), AllocError>
    ensures { Appends out.old out.new (spec.value_text signature.now value.now) result }
{
    match value {
        Value::Undef => append_str(out, "undef"),
        Value::Bool(true) => append_str(out, "true"),
        Value::Bool(false) => append_str(out, "false"),
        Value::Int(number) => append_integer(out, *number),
        Value::Elem(domain, rank) => append_str(out, element_name(signature, *domain, *rank)),
    }
}

/// The name of an element of the domain of this number, and nothing where there is none.
fn element_name(signature: &Signature, domain: u32, rank: u32) -> &str
    ensures { result.now ≡ spec.element_name signature.now.domains domain rank }
{
    match signature.domains().item(domain as usize) {
        Some(declared) => name_in(&declared.domain, rank),
        None => "",
    }
}

fn name_in(domain: &Domain, rank: u32) -> &str
    ensures { result.now ≡ spec.name_in (Some domain.now) rank }
{
    match domain.names() {
        Some(names) => name_at(names, rank),
        None => "",
    }
}

fn name_at(names: &Names, rank: u32) -> &str
    ensures { result.now ≡ unwrap_or (slice_get names.now rank) [] }
{
    match names.item(rank as usize) {
        Some(name) => name.text(),
        None => "",
    }
}
