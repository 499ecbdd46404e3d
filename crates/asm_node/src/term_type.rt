ghost use Rattle.std.specs.Prelude.{◌≡◌};
ghost use Rattle.asm_node.specs.Types as types;

use asm_domain::{Domain, Value};
use asm_sign::DeclaredDomain;

/// The types of terms: truth values, whole numbers, or the elements of the enumeration or abstract domain of a number.
/// Ranges and lists of numbers have the type of the whole numbers.
#[derive(Clone, Copy, Debug, PartialEq, Eq)]
pub enum TermType {
    Boolean,
    Integer,
    ElementOf(u32),
}

/// The type of the elements of the domain of a number, where there is one. 4,294,967,295 is the domain of all whole numbers.
pub fn domain_type(domains: &[DeclaredDomain], domain: u32) -> Option<TermType>
    ensures { result ≡ types.domain_type domains.now domain }
{
    if domain == u32::MAX {
        return Some(TermType::Integer);
    }
    match domains.get(domain as usize) {
        Some(declared) => Some(type_of(&declared.domain)),
        None => None,
    }
}

fn type_of(domain: &Domain) -> TermType
    ensures { result ≡ types.type_of domain.now }
{
    let _size = domain.size();
    match domain.element(0) {
        Value::Undef => TermType::Boolean,
        Value::Bool(_) => TermType::Boolean,
        Value::Int(_) => TermType::Integer,
        Value::Elem(number, _) => TermType::ElementOf(number),
    }
}
