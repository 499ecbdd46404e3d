//! How many elements the declared domains have.
ghost use Rattle.std.specs.Prelude.{◌≡◌, ℕ, ◌+◌, ◌≤◌, ◌&&◌, length, filter, if◌then◌else◌};
ghost use Rattle.asm_domain.specs.Universe.{numbers_between};
ghost use Rattle.asm_faults.specs.Files.{function_in};
ghost use Rattle.asm_faults.specs.DomainFaults.{is_constant_of, constants_of};
ghost use Rattle.asm_declare.specs.Measures.{capped, functions_in, is_static};

use asm_list::Name;
use asm_tree::unit::{LoadedUnit, RawDeclaration, RawFunctionKind};

/// A number, or 4,097 for all greater ones.
pub fn capped(count: usize) -> u32
    ensures { result ≡ capped count }
{
    if count < 4097 { count as u32 } else { 4097 }
}

/// How many numbers stand between two, or 4,097 where there are more.
pub fn count_between(low: i64, high: i64) -> u32
    ensures { result ≡ capped (length (numbers_between low high)) }
{
    if high < low {
        return 0;
    }
    let steps = high.abs_diff(low);
    if steps < 4096 { steps as u32 + 1 } else { 4097 }
}

/// How many constants a domain has in some files, or 4,097 where there are more.
pub fn constants(units: &[LoadedUnit], domain: &Name) -> u32
    ensures { result ≡ capped (length (constants_of units.now domain.now)) }
{
    let mut count = 0;
    for loaded in units {
        count = constants_in(loaded.unit.declarations.slice(), domain, count);
    }
    count
}

/// So many constants, and those among some declarations.
fn constants_in(declarations: &[RawDeclaration], domain: &Name, others: u32) -> u32
    requires { others ≤ 4097 }
    ensures { (number : ℕ) → result ≡ capped (others + length (filter (is_constant_of domain.now) (functions_in number declarations.now))) }
{
    let mut count = others;
    for declaration in declarations {
        count = one_more(count, is_constant(declaration, domain));
    }
    count
}

fn one_more(count: u32, more: bool) -> u32
    requires { count ≤ 4097 }
    ensures { result ≡ capped (count + (if more then 1 else 0)) }
{
    if more && count < 4097 {
        count + 1
    } else {
        count
    }
}

/// Whether a declaration is that of a constant of a domain.
pub fn is_constant(declaration: &RawDeclaration, domain: &Name) -> bool
    ensures { (number : ℕ) → length (filter (is_constant_of domain.now) (function_in (number, declaration.now))) ≡ (if result then 1 else 0) }
{
    match declaration {
        RawDeclaration::Function(kind, _, domains, codomain) => {
            let same = codomain.text.text() == domain.text();
            all_hold(is_static(*kind), domains.is_empty(), same)
        }
        RawDeclaration::Enumeration(_, _) => false,
        RawDeclaration::Subset(_, _) => false,
        RawDeclaration::Abstract(_) => false,
    }
}

fn all_hold(first: bool, second: bool, third: bool) -> bool
    ensures { result ≡ (first && (second && third)) }
{
    first && second && third
}

fn is_static(kind: RawFunctionKind) -> bool
    ensures { result ≡ is_static kind }
{
    match kind {
        RawFunctionKind::Static => true,
        RawFunctionKind::Derived => false,
        RawFunctionKind::Controlled => false,
        RawFunctionKind::Monitored => false,
        RawFunctionKind::Shared => false,
        RawFunctionKind::Out => false,
    }
}
