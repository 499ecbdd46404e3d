//! Constants of settings.
ghost use Rattle.std.specs.Prelude.{◌≡◌, IfOk};
ghost use Rattle.std.specs.List.{position};
ghost use Rattle.asm_node.specs.Machine.{same_name};
ghost use Rattle.asm_bind.specs.Given as spec;

use asm_domain::{Domain, Value};
use asm_list::{Listed, Name};
use asm_node::is_element;
use asm_sign::Domains;
use asm_tree::script::RawConstant;
use std::alloc::{AllocError, Global};

/// The elements that constants are of the domains at their places, if there are as many and each is one.
pub fn elements(
    alloc: Global,
    domains: &Domains,
    numbers: &[u32],
    constants: &[RawConstant],
) -> Result<Option<Listed<Value>>, AllocError>
    ensures { IfOk result (λ o. o ≡ spec.elements domains.now numbers.now constants.now) }
{
    if numbers.len() != constants.len() {
        return Ok(None);
    }
    let mut values = Listed::new(alloc);
    'constants: for (place, constant) in constants.iter().enumerate() {
        match element(domains, numbers[place], constant) {
            Some(value) => values.push(value)?,
            None => return Ok(None),
        }
    }
    Ok(Some(values))
}

/// The element that a constant is of the domain of a number, if it is one.
pub fn element(domains: &Domains, number: u32, constant: &RawConstant) -> Option<Value>
    ensures { result ≡ spec.element domains.now number constant.now }
{
    let declared = domains.item(number as usize)?;
    let value = meant(&declared.domain, constant)?;
    if is_element(domains, number, value) {
        Some(value)
    } else {
        None
    }
}

/// What a constant is where a value of the domain stands.
fn meant(domain: &Domain, constant: &RawConstant) -> Option<Value>
    ensures { result ≡ spec.meant domain.now constant.now }
{
    match constant {
        RawConstant::Int(int) => Some(Value::Int(int.value)),
        RawConstant::Truth(truth) => Some(Value::Bool(*truth)),
        RawConstant::Element(name) => named(domain, &name.text),
        RawConstant::Constant(name) => named(domain, &name.text),
    }
}

/// The element of a name, where the domain's elements have names.
fn named(domain: &Domain, name: &Name) -> Option<Value>
    ensures { result ≡ spec.named name.now domain.now }
{
    let _size = domain.size();
    match domain.names() {
        Some(names) => match place_of(names.slice(), name) {
            Some(rank) => Some(domain.element(rank as u32)),
            None => None,
        },
        None => None,
    }
}

/// The first place of a name.
fn place_of(names: &[Name], name: &Name) -> Option<usize>
    ensures { result ≡ position (same_name name.now) names.now }
{
    names.iter().position(|other| is_same_name(name, other))
}

/// Whether two names are the same.
fn is_same_name(name: &Name, other: &Name) -> bool
    ensures { result ≡ same_name name.now other.now }
{
    name.text() == other.text()
}
