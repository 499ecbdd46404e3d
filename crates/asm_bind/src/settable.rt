//! The functions to which settings give values.
ghost use Rattle.std.specs.Prelude.{◌≡◌, map, IfOk};
ghost use Rattle.asm_node.specs.Model.{machine_of};
ghost use Rattle.asm_bind.specs.Given as spec;
ghost use Rattle.asm_bind.specs.Given.{Binds, IsToldOf};

use crate::error::BadSet;
use crate::setting::given_to;
use asm_domain::Value;
use asm_list::Name;
use asm_node::Model;
use asm_sign::{Function, Signature};
use asm_tree::script::RawSet;
use name_table::Table;
use std::alloc::{AllocError, Global};

/// The signature of a model with a table that finds a function by its name at once. Contracts see it as what the signature
/// is made of.
#[derive(Debug, Drop)]
pub struct Settable<'m> {
    alloc: Global,
    signature: &'m Signature,
    names: Table,
}

impl<'m> std::marker::Model for Settable<'m> {
    ghost use Rattle.std.specs.Prelude.{◌≡◌, map};
    ghost use Rattle.asm_sign.specs.declared.function.Function.{Function};
    ghost use Rattle.asm_sign.specs.Vocabulary.{Vocabulary};

    ghost Value = { Vocabulary };

    ghost view = { λ s. s.signature.now };

    ghost invariant = { λ s. s.names ≡ map (λ (f : Function). f.name) s.signature.now.functions };
}

impl<'m> Settable<'m> {
    /// The functions of a model.
    pub fn new(alloc: Global, model: &'m Model) -> Result<Settable<'m>, AllocError>
        ensures { IfOk result (λ s. s ≡ (machine_of model.now).signature) }
    {
        let signature = model.signature();
        let names = function_names(alloc, signature.functions().slice())?;
        Ok(Settable {
            alloc,
            signature,
            names,
        })
    }

    /// The slot and the value that a setting gives. It is bad where its name isn't that of a monitored or shared function,
    /// the number of arguments differs, an argument isn't an element of its domain, or the value isn't one of the codomain.
    pub fn bind(&self, raw: &RawSet) -> Result<(u32, Value), BadSet>
        ensures { Binds result (spec.given_or_name self.now raw.now) }
    {
        match self.given(raw)? {
            Some(pair) => Ok(pair),
            None => Err(bad(self.alloc, raw)),
        }
    }

    /// The slot and the value that a setting gives, if it isn't bad.
    fn given(&self, raw: &RawSet) -> Result<Option<(u32, Value)>, AllocError>
        ensures { IfOk result (λ o. o ≡ spec.given self.now raw.now) }
    {
        match self.names.find(&raw.name.text) {
            Some(number) => self.given_by(raw, number),
            None => Ok(None),
        }
    }

    /// The same where the function of this number is the first of the setting's name.
    fn given_by(&self, raw: &RawSet, number: u32) -> Result<Option<(u32, Value)>, AllocError>
        ensures { IfOk result (λ o. o ≡ spec.given_by self.now raw.now number) }
    {
        match self.signature.functions().item(number as usize) {
            Some(function) => given_to(self.alloc, self.signature, raw, number, function),
            None => Ok(None),
        }
    }
}

/// The slot and the value that one setting gives; `Settable` serves many. It is bad where its name isn't that of a monitored
/// or shared function, the number of arguments differs, an argument isn't an element of its domain, or the value isn't one of
/// the codomain.
pub fn bind_set(alloc: Global, model: &Model, raw: &RawSet) -> Result<(u32, Value), BadSet>
    ensures { Binds result (spec.given_or_name (machine_of model.now).signature raw.now) }
{
    match Settable::new(alloc, model) {
        Ok(settable) => settable.bind(raw),
        Err(_) => Err(BadSet::Memory),
    }
}

/// The names of functions, each at the function's number.
fn function_names(alloc: Global, functions: &[Function]) -> Result<Table, AllocError>
    ensures { IfOk result (λ names. names ≡ map (λ f. f.name) functions.now) }
{
    let mut names = Table::new(alloc);
    'functions: for function in functions {
        names.add(&function.name)?;
    }
    Ok(names)
}

/// What is told of a bad setting.
fn bad(alloc: Global, raw: &RawSet) -> BadSet
    ensures { IsToldOf result raw.now.name }
{
    match Name::of(alloc, raw.name.text.text()) {
        Ok(name) => BadSet::At(raw.name.at, name),
        Err(_) => BadSet::Memory,
    }
}
