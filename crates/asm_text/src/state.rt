//! The texts of states.
ghost use Rattle.std.specs.Prelude.{◌≡◌, ◌<◌, ◌++◌, ℕ, codes, is_some, length};
ghost use Rattle.std.specs.FinMap.{get};
ghost use Rattle.asm_source.specs.Appends.{Appends};
ghost use Rattle.asm_node.specs.Machine.{has_kind};
ghost use Rattle.asm_sign.specs.Kind.{is_kept};
ghost use Rattle.asm_sign.specs.Vocabulary.{function_at, locations};
ghost use Rattle.asm_text.specs.Texts as spec;

use crate::location::print_location;
use crate::value::print_value;
use asm_domain::Value;
use asm_sign::Signature;
use asm_source::{Text, append_str};
use asm_state::Store;
use std::alloc::AllocError;

/// Appends a line for each location that the state keeps, in their order.
pub fn print_state<S: Store>(
    signature: &Signature,
    store: &S,
    out: &mut Text,
) -> Result<(), AllocError>
    requires { (slot : ℕ) → is_some (get (S.state store.now) slot) ≡ has_kind is_kept (function_at signature.now slot) }
    ensures { Appends out.old out.new (spec.state_text signature.now (S.state store.now)) result }
{
    for slot in 0..signature.slots() {
        print_kept(signature, store, slot, out)?;
    }
    Ok(())
}

/// Appends the line of a location, if the state keeps it.
fn print_kept<S: Store>(
    signature: &Signature,
    store: &S,
    slot: u32,
    out: &mut Text,
) -> Result<(), AllocError>
    requires kept { is_some (get (S.state store.now) slot) ≡ has_kind is_kept (function_at signature.now slot) }
    requires within { slot < length (locations signature.now) }
    ensures { Appends out.old out.new (spec.kept_line signature.now (S.state store.now) slot) result }
{
    if !signature.kept(slot) {
        return Ok(());
    }
    print_line(signature, slot, store.get(slot), out)
}

/// Appends the line of a location with this value.
fn print_line(
    signature: &Signature,
    slot: u32,
    value: Value,
    out: &mut Text,
) -> Result<(), AllocError>
    ensures { Appends out.old out.new (spec.location_line signature.now slot value) result }
{
    print_entry(signature, slot, value, out)?;
    append_str(out, "\n")
}

/// Appends a location and its value, after two spaces.
fn print_entry(
    signature: &Signature,
    slot: u32,
    value: Value,
    out: &mut Text,
) -> Result<(), AllocError>
    ensures { Appends out.old out.new (codes "  " ++ spec.location_text signature.now slot ++ codes " = " ++ spec.value_text signature.now value) result }
{
    append_str(out, "  ")?;
    print_location(signature, slot, out)?;
    append_str(out, " = ")?;
    print_value(signature, &value, out)
}
