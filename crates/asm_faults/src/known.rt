//! What names stand for in a model: its domains, its functions and the elements of its domains.
ghost use Rattle.std.specs.Prelude.{◌≡◌, ◌++◌, map, option_copied, IfOk, OnOk};
ghost use Rattle.std.specs.List.{flat_map};
ghost use Rattle.asm_domain.specs.Universe.{elements};
ghost use Rattle.asm_node.specs.Types as types;
ghost use Rattle.asm_faults.specs.DomainFaults.{boolean as boolean_text};
ghost use Rattle.asm_faults.specs.FunctionFaults.{domain_number};
ghost use Rattle.asm_faults.specs.Known.{domain_text, names_in, element_names, values_in, element_values};
ghost use Rattle.asm_faults.specs.Terms.{type_named, function_place, function_named, element_in, element_type};

use asm_domain::{Domain, Value};
use asm_list::{Listed, Name};
use asm_node::{TermType, domain_type};
use asm_sign::{DeclaredDomain, Function, Signature};
use name_table::Table;
use std::alloc::{AllocError, Global};
use std::marker::Model;

/// A signature with tables that find at once what a name stands for. Contracts see it as what the signature is made of.
#[derive(Debug, Drop)]
pub struct Known<'a> {
    alloc: Global,
    signature: &'a Signature,
    domains: Table,
    functions: Table,
    elements: Table,
    values: Listed<Value>,
}

impl<'a> Model for Known<'a> {
    ghost use Rattle.asm_sign.specs.Vocabulary.{Vocabulary};
    ghost use Rattle.asm_faults.specs.Known.{AreTables};

    ghost Value = { Vocabulary };

    ghost view = { λ k. k.signature.now };

    ghost invariant = { λ k. AreTables k.signature.now k.domains k.functions k.elements k.values };
}

impl<'a> Known<'a> {
    /// The tables of a signature.
    pub fn new(alloc: Global, signature: &'a Signature) -> Result<Known<'a>, AllocError>
        ensures { IfOk result (λ known. known ≡ signature.now) }
    {
        let domains = domain_names(alloc, signature.domains().slice())?;
        let functions = function_names(alloc, signature.functions().slice())?;
        let elements = element_names(alloc, signature.domains().slice())?;
        let values = element_values(alloc, signature.domains().slice())?;
        Ok(Known {
            alloc,
            signature,
            domains,
            functions,
            elements,
            values,
        })
    }

    /// Where further tables take their memory.
    pub fn alloc(&self) -> Global {
        self.alloc
    }

    /// The number of a domain; 4,294,967,295 is that of all whole numbers.
    pub fn domain(&self, name: &Name) -> Option<u32>
        ensures { result ≡ domain_number self.now.domains name.now }
    {
        if name.text() == "Boolean" {
            return Some(0);
        }
        if name.text() == "Integer" {
            return Some(u32::MAX);
        }
        self.domains.find(name)
    }

    /// The type of the elements of the domain of a number.
    pub fn domain_type(&self, domain: u32) -> Option<TermType>
        ensures { result ≡ types.domain_type self.now.domains domain }
    {
        domain_type(self.signature.domains().slice(), domain)
    }

    /// The type of the elements of a domain.
    pub fn type_named(&self, name: &Name) -> Option<TermType>
        ensures { result ≡ type_named self.now name.now }
    {
        match self.domain(name) {
            Some(domain) => self.domain_type(domain),
            None => None,
        }
    }

    /// The number of a function.
    pub fn function_number(&self, name: &Name) -> Option<u32>
        ensures { result ≡ function_place self.now name.now }
    {
        self.functions.find(name)
    }

    /// The declared function of a name.
    pub fn function(&self, name: &Name) -> Option<&Function>
        ensures { option_copied result ≡ function_named self.now name.now }
    {
        match self.function_number(name) {
            Some(number) => self.signature.functions().item(number as usize),
            None => None,
        }
    }

    /// The element of a name, or `undef` where no domain has one of this name.
    pub fn element(&self, name: &Name) -> Value
        ensures { result ≡ element_in self.now.domains name.now }
    {
        match self.elements.find(name) {
            Some(place) => match self.values.item(place as usize) {
                Some(value) => *value,
                None => Value::Undef,
            },
            None => Value::Undef,
        }
    }

    /// The type of the element of a name, where a domain has it.
    pub fn element_type(&self, name: &Name) -> Option<TermType>
        ensures { result ≡ element_type (element_in self.now.domains name.now) }
    {
        match self.element(name) {
            Value::Elem(domain, _) => Some(TermType::ElementOf(domain)),
            Value::Undef => None,
            Value::Bool(_) => None,
            Value::Int(_) => None,
        }
    }
}

/// The names of domains; that of the truth values, which has none, is `Boolean`.
fn domain_names(alloc: Global, domains: &[DeclaredDomain]) -> Result<Table, AllocError>
    ensures { IfOk result (λ table. table ≡ map domain_text domains.now) }
{
    let boolean = Name::of(alloc, "Boolean")?;
    let mut table = Table::new(alloc);
    for domain in domains {
        table.add(text_of(domain, &boolean))?;
    }
    Ok(table)
}

fn text_of<'a>(domain: &'a DeclaredDomain, boolean: &'a Name) -> &'a Name
    requires { boolean.now ≡ boolean_text }
    ensures { result.now ≡ domain_text domain.now }
{
    match &domain.name {
        Some(name) => name,
        None => boolean,
    }
}

fn function_names(alloc: Global, functions: &[Function]) -> Result<Table, AllocError>
    ensures { IfOk result (λ table. table ≡ map (λ f. f.name) functions.now) }
{
    let mut table = Table::new(alloc);
    for function in functions {
        table.add(&function.name)?;
    }
    Ok(table)
}

/// The names of the elements of all domains, one domain after the other.
fn element_names(alloc: Global, domains: &[DeclaredDomain]) -> Result<Table, AllocError>
    ensures { IfOk result (λ table. table ≡ flat_map element_names domains.now) }
{
    let mut table = Table::new(alloc);
    for declared in domains {
        add_names(&mut table, &declared.domain)?;
    }
    Ok(table)
}

fn add_names(table: &mut Table, domain: &Domain) -> Result<(), AllocError>
    ensures { OnOk result (table.new ≡ table.old ++ names_in domain.now) }
{
    match domain.names() {
        Some(names) => add_all(table, names.slice()),
        None => Ok(()),
    }
}

fn add_all(table: &mut Table, names: &[Name]) -> Result<(), AllocError>
    ensures { OnOk result (table.new ≡ table.old ++ names.now) }
{
    for name in names {
        table.add(name)?;
    }
    Ok(())
}

/// The elements of all domains whose elements have names, one domain after the other.
fn element_values(alloc: Global, domains: &[DeclaredDomain]) -> Result<Listed<Value>, AllocError>
    ensures { IfOk result (λ values. values ≡ flat_map element_values domains.now) }
{
    let mut values = Listed::new(alloc);
    for declared in domains {
        add_values(&mut values, &declared.domain)?;
    }
    Ok(values)
}

fn add_values(values: &mut Listed<Value>, domain: &Domain) -> Result<(), AllocError>
    ensures { OnOk result (values.new ≡ values.old ++ values_in domain.now) }
{
    match domain.names() {
        Some(_) => add_elements(values, domain),
        None => Ok(()),
    }
}

fn add_elements(values: &mut Listed<Value>, domain: &Domain) -> Result<(), AllocError>
    ensures { OnOk result (values.new ≡ values.old ++ elements domain.now) }
{
    for rank in 0..domain.size() {
        values.push(domain.element(rank))?;
    }
    Ok(())
}
