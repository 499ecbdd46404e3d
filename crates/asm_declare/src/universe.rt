//! The domains of a signature.
ghost use Rattle.std.specs.Prelude.{◌≡◌, ℕ, [], ◌∷◌, ◌++◌, length, map, Some, OnOk, IfOk};
ghost use Rattle.std.specs.List.{enumerate_from};
ghost use Rattle.asm_domain.specs.Universe.{Universe, Named};
ghost use Rattle.asm_tree.specs.declared.term.RawName.{RawName};
ghost use Rattle.asm_faults.specs.Files.{domain_in, domains as domains_in_order};
ghost use Rattle.asm_faults.specs.DomainFaults.{name_faults, domain_faults};
ghost use Rattle.asm_faults.specs.FunctionFaults.{declared_domain, domains_of};
ghost use Rattle.asm_declare.specs.Measures.{domains_in};

use crate::constants::constants;
use crate::numerals::part;
use asm_domain::{Domain, Names};
use asm_list::Name;
use asm_sign::{DeclaredDomain, Domains};
use asm_tree::term::RawName;
use asm_tree::unit::{LoadedUnit, RawDeclaration, Units};
use std::alloc::{AllocError, Global};

/// The domains of a model: the truth values first, then the declared ones in load order.
///
/// There are numbers for 4,294,967,294 declared domains; where there are more it answers want of memory.
pub fn domain_list(alloc: Global, units: &Units) -> Result<Domains, AllocError>
    requires names { name_faults units.now ≡ [] }
    requires domains { domain_faults units.now ≡ [] }
    ensures { IfOk result (λ ds. ds ≡ domains_of units.now) }
{
    let mut list = Domains::new(alloc);
    list.push(DeclaredDomain {
        name: None,
        domain: Domain::boolean(),
    })?;
    all_domains(alloc, &mut list, units.slice())?;
    Ok(list)
}

fn all_domains(alloc: Global, list: &mut Domains, units: &[LoadedUnit]) -> Result<(), AllocError>
    ensures { OnOk result (list.new ≡ list.old ++ map (declared_domain units.now) (enumerate_from (length list.old) (domains_in_order units.now))) }
{
    for loaded in units {
        unit_domains(alloc, list, units, loaded.unit.declarations.slice())?;
    }
    Ok(())
}

fn unit_domains(
    alloc: Global,
    list: &mut Domains,
    units: &[LoadedUnit],
    declarations: &[RawDeclaration],
) -> Result<(), AllocError>
    ensures { OnOk result ((n : ℕ) → list.new ≡ list.old ++ map (declared_domain units.now) (enumerate_from (length list.old) (domains_in n declarations.now))) }
{
    for declaration in declarations {
        add_domain(alloc, list, units, declaration)?;
    }
    Ok(())
}

/// Adds a domain where one is declared.
fn add_domain(
    alloc: Global,
    list: &mut Domains,
    units: &[LoadedUnit],
    declaration: &RawDeclaration,
) -> Result<(), AllocError>
    ensures { OnOk result ((n : ℕ) → list.new ≡ list.old ++ map (declared_domain units.now) (enumerate_from (length list.old) (domain_in (n, declaration.now)))) }
{
    let number = next_number(list)?;
    match declaration {
        RawDeclaration::Enumeration(name, elements) => {
            let domain = enumeration(alloc, number, elements.slice())?;
            put(alloc, list, name, domain)?;
            Ok(())
        }
        RawDeclaration::Subset(name, _) => {
            let domain = part(alloc, units, &name.text)?;
            put(alloc, list, name, domain)?;
            Ok(())
        }
        RawDeclaration::Abstract(name) => {
            let names = constants(alloc, units, &name.text)?;
            let domain = named(number, names)?;
            put(alloc, list, name, domain)?;
            Ok(())
        }
        RawDeclaration::Function(_, _, _, _) => Ok(()),
    }
}

/// The number of the next domain, which isn't that of all whole numbers.
fn next_number(list: &Domains) -> Result<u32, AllocError>
    ensures { IfOk result (λ n. n ≡ length list.now) }
{
    if list.len() >= u32::MAX as usize {
        return Err(AllocError);
    }
    Ok(list.len() as u32)
}

fn put(alloc: Global, list: &mut Domains, name: &RawName, domain: Domain) -> Result<(), AllocError>
    ensures { OnOk result (list.new ≡ list.old ++ record { name = Some name.now.text; domain = domain } ∷ []) }
{
    let name = Name::of(alloc, name.text.text())?;
    list.push(DeclaredDomain {
        name: Some(name),
        domain,
    })?;
    Ok(())
}

fn enumeration(alloc: Global, number: u32, elements: &[RawName]) -> Result<Domain, AllocError>
    ensures { IfOk result (λ d. d ≡ Named number (map (λ (e : RawName). e.text) elements.now)) }
{
    let names = texts(alloc, elements)?;
    named(number, names)
}

fn texts(alloc: Global, elements: &[RawName]) -> Result<Names, AllocError>
    ensures { IfOk result (λ names. names ≡ map (λ (e : RawName). e.text) elements.now) }
{
    let mut names = Names::new(alloc);
    for element in elements {
        let name = Name::of(alloc, element.text.text())?;
        names.push(name)?;
    }
    Ok(names)
}

/// The domain of these names, where they make one.
fn named(number: u32, names: Names) -> Result<Domain, AllocError>
    ensures { IfOk result (λ d. d ≡ Named number names) }
{
    match Domain::named(number, names) {
        Ok(domain) => Ok(domain),
        Err(_) => Err(AllocError),
    }
}
