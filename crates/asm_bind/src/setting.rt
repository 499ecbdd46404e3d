//! Settings of functions.
ghost use Rattle.std.specs.Prelude.{◌≡◌, IfOk, option_map};
ghost use Rattle.asm_node.specs.Machine.{slot_at};
ghost use Rattle.asm_bind.specs.Given as spec;

use crate::constant::{element, elements};
use asm_domain::Value;
use asm_sign::{FunKind, Function, Signature};
use asm_tree::script::RawSet;
use std::alloc::{AllocError, Global};

/// The slot and the value that a setting of this function gives, if it isn't bad.
pub fn given_to(
    alloc: Global,
    signature: &Signature,
    raw: &RawSet,
    number: u32,
    function: &Function,
) -> Result<Option<(u32, Value)>, AllocError>
    ensures { IfOk result (λ o. o ≡ spec.given_to signature.now raw.now number function.now) }
{
    if !is_asked(function.kind) {
        return Ok(None);
    }
    let domains = signature.domains();
    let arguments = elements(
        alloc,
        domains,
        function.domains.slice(),
        raw.arguments.slice(),
    )?;
    match arguments {
        Some(arguments) => {
            let value = element(domains, function.codomain, &raw.value);
            Ok(placed(signature, number, arguments.slice(), value))
        }
        None => Ok(None),
    }
}

/// Whether an input may give the locations of a function of this kind values.
fn is_asked(kind: FunKind) -> bool
    ensures { result ≡ spec.is_asked_kind kind }
{
    matches!(kind, FunKind::Monitored) || matches!(kind, FunKind::Shared)
}

/// A value at the slot of a location, if both are there.
fn placed(
    signature: &Signature,
    number: u32,
    arguments: &[Value],
    value: Option<Value>,
) -> Option<(u32, Value)>
    ensures { result ≡ spec.and_then value (λ x. option_map (λ slot. (slot, x)) (slot_at signature.now number arguments.now)) }
{
    let value = value?;
    match signature.slot_of(number, arguments) {
        Some(slot) => Some((slot, value)),
        None => None,
    }
}
