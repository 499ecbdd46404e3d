//! Which domains of two models agree.
ghost use Rattle.std.specs.Prelude.{◌≡◌, ◌&&◌, bytes_eq, Some};
ghost use Rattle.asm_domain.specs.Universe.{elements};
ghost use Rattle.asm_node.specs.Values as values;
ghost use Rattle.ref_link.specs.Linkable as spec;

use crate::side::Side;
use asm_domain::{Domain, Value};
use asm_list::Name;
use asm_sign::{FunKind, Function};

/// Whether the arguments' domains of two functions agree, and so do their codomains.
pub fn agree_on_domains(a: &Side<'_>, c: &Side<'_>, first: u32, second: u32) -> bool
    ensures { result ≡ spec.agree_on_domains a.now c.now first second }
{
    match a.function(first) {
        Some(function) => match c.function(second) {
            Some(other) => functions_agree(a, c, function, other),
            None => false,
        },
        None => false,
    }
}

fn functions_agree(a: &Side<'_>, c: &Side<'_>, first: &Function, second: &Function) -> bool
    ensures { result ≡ spec.functions_agree a.now c.now (Some first.now) (Some second.now) }
{
    all_agree(a, c, first.domains.slice(), second.domains.slice())
        && codomains_agree(
            a,
            c,
            matches!(first.kind, FunKind::Monitored),
            first.codomain,
            second.codomain,
        )
}

fn codomains_agree(a: &Side<'_>, c: &Side<'_>, given: bool, first: u32, second: u32) -> bool
    ensures { result ≡ spec.codomains_agree a.now c.now given first second }
{
    domains_agree(a, c, first, second)
        || (!given && (a.has_numbers(first) && c.has_numbers(second)))
}

/// Whether the domains at the same places agree.
fn all_agree(a: &Side<'_>, c: &Side<'_>, first: &[u32], second: &[u32]) -> bool
    ensures { result ≡ spec.alike (spec.domains_agree a.now c.now) first.now second.now }
{
    if first.len() != second.len() {
        return false;
    }
    for place in 0..first.len() {
        if !domains_agree(a, c, first[place], second[place]) {
            return false;
        }
    }
    true
}

fn domains_agree(a: &Side<'_>, c: &Side<'_>, first: u32, second: u32) -> bool
    ensures { result ≡ spec.domains_agree a.now c.now first second }
{
    match a.domain(first) {
        Some(declared) => match c.domain(second) {
            Some(other) => same_elements(&declared.domain, &other.domain),
            None => false,
        },
        None => false,
    }
}

/// Whether two domains have elements of the same names, or else the same values, in the same order.
pub fn same_elements(first: &Domain, second: &Domain) -> bool
    ensures { result ≡ spec.same_elements first.now second.now }
{
    match first.names() {
        Some(names) => match second.names() {
            Some(others) => same_names(names.slice(), others.slice()),
            None => false,
        },
        None => match second.names() {
            Some(_) => false,
            None => same_values(first, second),
        },
    }
}

/// Whether two lists have the same names at the same places.
fn same_names(names: &[Name], others: &[Name]) -> bool
    ensures { result ≡ spec.alike bytes_eq names.now others.now }
{
    if names.len() != others.len() {
        return false;
    }
    for place in 0..names.len() {
        if names[place].text() != others[place].text() {
            return false;
        }
    }
    true
}

/// Whether two domains have the same elements at the same ranks.
fn same_values(first: &Domain, second: &Domain) -> bool
    ensures { result ≡ spec.alike values.same (elements first.now) (elements second.now) }
{
    if first.size() != second.size() {
        return false;
    }
    for rank in 0..first.size() {
        if !same(first.element(rank), second.element(rank)) {
            return false;
        }
    }
    true
}

/// Whether two values are the same.
fn same(left: Value, right: Value) -> bool
    ensures { result ≡ values.same left right }
{
    match (left, right) {
        (Value::Undef, Value::Undef) => true,
        (Value::Bool(left), Value::Bool(right)) => left == right,
        (Value::Int(left), Value::Int(right)) => left == right,
        (Value::Elem(domain, rank), Value::Elem(other, place)) => domain == other && rank == place,
        _ => false,
    }
}
