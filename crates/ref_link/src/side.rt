//! One of the two models whose functions are linked.
ghost use Rattle.std.specs.Prelude.{◌≡◌, ◌<◌, ◌^◌, not, ◌&&◌, ◌||◌, length, map, slice_get, option_copied, IfOk};
ghost use Rattle.asm_node.specs.Model.{machine_of};
ghost use Rattle.asm_sign.specs.Kind as kinds;
ghost use Rattle.ref_link.specs.Linkable as spec;
ghost use Rattle.ref_link.specs.Linked.{function_of_name};

use crate::reads::{is_in, reading_input};
use asm_list::Name;
use asm_node::{Model, TermType, domain_type};
use asm_sign::{DeclaredDomain, FunKind, Function};
use name_table::Table;
use std::alloc::{AllocError, Global};

/// A model with a table that finds a function by its name at once, and with what its functions read. Contracts see it as the
/// machine that the model is.
#[derive(Drop)]
pub struct Side<'m> {
    model: &'m Model,
    names: Table,
    reading: Vec<bool>,
}

impl<'m> std::marker::Model for Side<'m> {
    ghost use Rattle.asm_node.specs.Codes.{machine_code};
    ghost use Rattle.asm_node.specs.Machine.{Machine};
    ghost use Rattle.asm_node.specs.Model.{machine_of};
    ghost use Rattle.ref_link.specs.Rows.{IsSide};

    ghost Value = { Machine };

    ghost coded = { machine_code };

    ghost view = { λ s. machine_of s.model.now };

    ghost invariant = { λ s. IsSide (machine_of s.model.now) s.names s.reading.items };
}

impl<'m> Side<'m> {
    pub fn new(alloc: Global, model: &'m Model) -> Result<Side<'m>, AllocError>
        ensures { IfOk result (λ side. side ≡ machine_of model.now) }
    {
        let names = function_names(alloc, model.signature().functions().slice())?;
        let _few = names.len();
        let reading = reading_input(alloc, model)?;
        Ok(Side {
            model,
            names,
            reading,
        })
    }

    /// The number of the first function of a name.
    pub fn function_of_name(&self, name: &Name) -> Option<u32>
        ensures { result ≡ function_of_name self.now name.now }
    {
        self.names.find(name)
    }

    /// The declared functions, of which there are fewer than 2^32.
    pub fn functions(&self) -> &[Function]
        ensures value { result.now ≡ self.now.signature.functions }
        ensures few { length result.now < 2 ^ 32 }
    {
        let _few = self.names.len();
        self.model.signature().functions().slice()
    }

    /// The declared function of a number.
    pub fn function(&self, number: u32) -> Option<&Function>
        ensures { option_copied result ≡ spec.function_in self.now number }
    {
        self.model.signature().functions().item(number as usize)
    }

    /// The declared domain of a number; that of all whole numbers is none.
    pub fn domain(&self, number: u32) -> Option<&DeclaredDomain>
        ensures { option_copied result ≡ slice_get self.now.signature.domains number }
    {
        self.model.signature().domains().item(number as usize)
    }

    /// Whether the function is monitored.
    pub fn is_input(&self, number: u32) -> bool
        ensures { result ≡ spec.is_input self.now number }
    {
        match self.function(number) {
            Some(function) => matches!(function.kind, FunKind::Monitored),
            None => false,
        }
    }
}

impl<'m> Side<'m> {
    /// Whether a state determines the function's values: it is kept, or derived and reads no monitored function through
    /// definitions.
    pub fn is_of_state(&self, number: u32) -> bool
        ensures { result ≡ spec.is_of_state self.now number }
    {
        match self.function(number) {
            Some(function) => is_kept(function)
                || (is_derived(function) && !self.reads_input(number)),
            None => false,
        }
    }

    /// Whether the function is monitored or leads to a monitored one through definitions.
    fn reads_input(&self, number: u32) -> bool
        ensures { result ≡ spec.reads_input self.now 32 number }
    {
        is_in(&self.reading, number)
    }

    /// Whether the elements of the domain are numbers.
    pub fn has_numbers(&self, number: u32) -> bool
        ensures { result ≡ spec.has_numbers self.now number }
    {
        match domain_type(self.model.signature().domains().slice(), number) {
            Some(TermType::Integer) => true,
            _ => false,
        }
    }
}

fn is_kept(function: &Function) -> bool
    ensures { result ≡ kinds.is_kept function.now.kind }
{
    match function.kind {
        FunKind::Controlled => true,
        FunKind::Out => true,
        FunKind::Shared => true,
        FunKind::Static => false,
        FunKind::Derived => false,
        FunKind::Monitored => false,
    }
}

fn is_derived(function: &Function) -> bool
    ensures { result ≡ spec.is_derived function.now.kind }
{
    matches!(function.kind, FunKind::Derived)
}

fn function_names(alloc: Global, functions: &[Function]) -> Result<Table, AllocError>
    ensures { IfOk result (λ table. table ≡ map (λ f. f.name) functions.now) }
{
    let mut table = Table::new(alloc);
    for function in functions {
        table.add(&function.name)?;
    }
    Ok(table)
}
