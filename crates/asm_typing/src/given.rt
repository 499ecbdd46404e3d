//! Of which functions a term may be given.

ghost use Rattle.std.specs.Prelude.{◌≡◌, ℕ, List, not, ◌&&◌, bytes_eq};
ghost use Rattle.std.specs.List.{list_any};
ghost use Rattle.asm_node.specs.Machine.{element_named};
ghost use Rattle.asm_node.specs.Values.{is_undef};
ghost use Rattle.asm_faults.specs.Bodies.{is_defined_by_term};
ghost use Rattle.asm_typing.specs.Given.{constant_at, may_be};

use asm_domain::Domain;
use asm_list::Name;
use asm_sign::{Domains, Function};

/// What a term is given as.
#[derive(Clone, Copy, Debug, PartialEq, Eq)]
pub enum Given {
    /// The values of a static or derived function.
    Definition,
    /// The initial values of a function that a state keeps.
    Initial,
}

/// Whether such a term may be given for a function.
pub fn may_be(given: Given, domains: &Domains, function: &Function) -> bool
    ensures { result ≡ may_be given domains.now function.now }
{
    match given {
        Given::Definition => is_defined(domains, function),
        Given::Initial => function.kind.is_kept(),
    }
}

fn is_defined(domains: &Domains, function: &Function) -> bool
    ensures { result ≡ is_defined_by_term domains.now function.now }
{
    let dynamic = function.kind.is_dynamic();
    let free = is_free(domains, &function.name, function.codomain);
    is_static_and(dynamic, free)
}

/// Whether a function is static or derived, and something else holds.
pub fn is_static_and(dynamic: bool, free: bool) -> bool
    ensures { result ≡ (not dynamic && free) }
{
    !dynamic && free
}

/// Whether the domain of a number has no element of this name.
pub fn is_free(domains: &Domains, name: &Name, codomain: u32) -> bool
    ensures { result ≡ is_undef (constant_at domains.now name.now codomain) }
{
    match domains.item(codomain as usize) {
        Some(declared) => lacks(&declared.domain, name),
        None => true,
    }
}

fn lacks(domain: &Domain, name: &Name) -> bool
    ensures { result ≡ is_undef (element_named name.now domain.now) }
{
    match domain.names() {
        Some(names) => !is_among(names.slice(), name),
        None => true,
    }
}

fn is_among(names: &[Name], name: &Name) -> bool
    ensures { result ≡ list_any (λ (other : List ℕ). bytes_eq other name.now) names.now }
{
    names.iter().any(|other| other.text() == name.text())
}
