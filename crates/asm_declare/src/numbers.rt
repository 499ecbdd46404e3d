//! The numbers of domains by their names.
ghost use Rattle.std.specs.Prelude.{◌≡◌, ◌≤◌, map, IfOk};
ghost use Rattle.asm_faults.specs.DomainFaults.{boolean as boolean_text};
ghost use Rattle.asm_faults.specs.FunctionFaults.{domain_number, number_or_whole, size_of};
ghost use Rattle.asm_faults.specs.Known.{domain_text};

use asm_list::Name;
use asm_sign::{DeclaredDomain, Domains};
use asm_tree::term::RawName;
use name_table::Table;
use std::alloc::{AllocError, Global};
use std::marker::Model;

/// The domains of a model with a table that finds the number of one at once. Contracts see it as the domains.
#[derive(Debug, Drop)]
pub struct DomainNumbers<'a> {
    domains: &'a Domains,
    names: Table,
}

impl<'a> Model for DomainNumbers<'a> {
    ghost use Rattle.std.specs.Prelude.{List};
    ghost use Rattle.asm_sign.specs.declared.function.DeclaredDomain.{DeclaredDomain};
    ghost use Rattle.asm_declare.specs.Numbers.{AreNamesOf};

    ghost Value = { List DeclaredDomain };

    ghost view = { λ n. n.domains.now };

    ghost invariant = { λ n. AreNamesOf n.domains.now n.names };
}

impl<'a> DomainNumbers<'a> {
    /// These domains. There are numbers for 4,294,967,295 of them.
    pub fn new(alloc: Global, domains: &'a Domains) -> Result<DomainNumbers<'a>, AllocError>
        ensures { IfOk result (λ numbers. numbers ≡ domains.now) }
    {
        let names = domain_names(alloc, domains.slice())?;
        Ok(DomainNumbers { domains, names })
    }

    /// The number of a domain; 4,294,967,295 is that of all whole numbers.
    pub fn number(&self, name: &Name) -> Option<u32>
        ensures { result ≡ domain_number self.now name.now }
    {
        if name.text() == "Boolean" {
            return Some(0);
        }
        if name.text() == "Integer" {
            return Some(u32::MAX);
        }
        self.names.find(name)
    }

    /// The number of a domain, or that of all whole numbers where it isn't known.
    pub fn number_or_whole(&self, domain: &RawName) -> u32
        ensures { result ≡ number_or_whole self.now domain.now }
    {
        match self.number(&domain.text) {
            Some(number) => number,
            None => u32::MAX,
        }
    }

    /// How many elements the domain of a number has. The whole numbers count as none.
    pub fn size(&self, number: u32) -> u32
        ensures value { result ≡ size_of self.now number }
        ensures few { result ≤ 256 }
    {
        match self.domains.item(number as usize) {
            Some(declared) => declared.domain.size(),
            None => 0,
        }
    }
}

/// The names of domains; that of the truth values, which has none, is `Boolean`.
fn domain_names(alloc: Global, domains: &[DeclaredDomain]) -> Result<Table, AllocError>
    ensures { IfOk result (λ table. table ≡ map domain_text domains.now) }
{
    let boolean = Name::of(alloc, "Boolean")?;
    let mut table = Table::new(alloc);
    for domain in domains {
        table.add(text_of(domain, &boolean))?;
    }
    Ok(table)
}

fn text_of<'a>(domain: &'a DeclaredDomain, boolean: &'a Name) -> &'a Name
    requires { boolean.now ≡ boolean_text }
    ensures { result.now ≡ domain_text domain.now }
{
    match &domain.name {
        Some(name) => name,
        None => boolean,
    }
}
