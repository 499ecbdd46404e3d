ghost use Rattle.std.specs.Prelude.{◌≡◌, ◌+◌, IfOk};
ghost use Rattle.asm_node.specs.Tree.{Const, Within, plain};
ghost use Rattle.asm_node.specs.Term.{nowhere, put, close};

use crate::term::Term;
use asm_domain::Value;
use std::alloc::{AllocError, Global};
use std::rc::Rc;

/// What variables stand for: closed terms. An entry takes the place of an earlier one of its variable.
#[derive(Drop)]
pub struct Env {
    alloc: Global,
    entries: Entries,
}

/// What a variable stands for, as it is held.
#[derive(Drop)]
pub enum Binding {
    /// Nothing: the variable is `undef`.
    Free,
    Value(Value),
    /// A term, whose variables stand for nothing.
    Node(Rc<Term>),
    /// A domain, a term inside it, and what the term's variables stand for.
    Actual(u32, Rc<Term>, Env),
}

/// The newest entry stands first.
#[derive(Drop)]
enum Entries {
    Empty,
    Value(u32, Value, Rc<Entries>),
    Node(u32, Rc<Term>, Rc<Entries>),
    /// A variable, its domain, the term, what the term's variables stand for, and the other entries.
    Actual(u32, u32, Rc<Term>, Rc<Entries>, Rc<Entries>),
}

impl Env {
    ghost use Rattle.asm_node.specs.Env.{places_in, places_of, Holds};
    ghost use Rattle.asm_node.specs.Weight.{weight_in, weight_of, IsLighter};

    /// No variable stands for anything. It takes no memory.
    pub fn new(alloc: Global) -> Env
        ensures places { places_of result ≡ nowhere }
        ensures weight { weight_of result ≡ 0 }
    {
        Env {
            alloc,
            entries: Entries::Empty,
        }
    }

    /// The variable stands for the value.
    pub fn value(&self, variable: u32, value: Value) -> Result<Env, AllocError>
        ensures places { IfOk result (λ env. places_of env ≡ put variable (Const value) (places_of self.now)) }
        ensures weight { IfOk result (λ env. weight_of env ≡ 1 + weight_of self.now) }
    {
        let rest = self.shared()?;
        Ok(Env {
            alloc: self.alloc,
            entries: Entries::Value(variable, value, rest),
        })
    }

    /// The variable stands for the term of a node. Variables of that term stand for nothing.
    pub fn node(&self, variable: u32, term: &Rc<Term>) -> Result<Env, AllocError>
        ensures { IfOk result (λ env. places_of env ≡ put variable (close nowhere (plain term.now.value)) (places_of self.now)) }
    {
        let rest = self.shared()?;
        Ok(Env {
            alloc: self.alloc,
            entries: Entries::Node(variable, term.clone()?, rest),
        })
    }

    /// The variable stands for the term with what the caller's variables stand for, inside the domain.
    pub fn actual(
        &self,
        variable: u32,
        domain: u32,
        term: &Rc<Term>,
        caller: &Env,
    ) -> Result<Env, AllocError>
        ensures { IfOk result (λ env. places_of env ≡ put variable (Within domain (close (places_of caller.now) (plain term.now.value))) (places_of self.now)) }
    {
        let of_caller = caller.shared()?;
        let rest = self.shared()?;
        Ok(Env {
            alloc: self.alloc,
            entries: Entries::Actual(variable, domain, term.clone()?, of_caller, rest),
        })
    }

    /// The same variables, in an environment of its own.
    pub fn copy(&self) -> Result<Env, AllocError>
        ensures places { IfOk result (λ env. places_of env ≡ places_of self.now) }
        ensures weight { IfOk result (λ env. weight_of env ≡ weight_of self.now) }
    {
        let entries = self.entries.copy()?;
        Ok(Env {
            alloc: self.alloc,
            entries,
        })
    }

    /// What a variable stands for.
    pub fn find(&self, variable: u32) -> Result<Binding, AllocError>
        ensures holds { IfOk result (λ binding. Holds binding (places_of self.now variable)) }
        ensures lighter { IfOk result (IsLighter (weight_of self.now)) }
    {
        self.entries.find(self.alloc, variable)
    }

    fn shared(&self) -> Result<Rc<Entries>, AllocError>
        ensures places { IfOk result (λ entries. places_in entries.value ≡ places_of self.now) }
        ensures weight { IfOk result (λ entries. weight_in entries.value ≡ weight_of self.now) }
    {
        let entries = self.entries.copy()?;
        Ok(Rc::new(self.alloc, entries)?)
    }
}

impl Entries {
    ghost use Rattle.asm_node.specs.Env.{places_in, Holds};
    ghost use Rattle.asm_node.specs.Weight.{weight_in, IsLighter};

    fn copy(&self) -> Result<Entries, AllocError>
        ensures places { IfOk result (λ entries. places_in entries ≡ places_in self.now) }
        ensures weight { IfOk result (λ entries. weight_in entries ≡ weight_in self.now) }
    {
        match self {
            Entries::Empty => Ok(Entries::Empty),
            Entries::Value(variable, value, rest) => {
                Ok(Entries::Value(*variable, *value, rest.clone()?))
            }
            Entries::Node(variable, term, rest) => {
                Ok(Entries::Node(*variable, term.clone()?, rest.clone()?))
            }
            Entries::Actual(variable, domain, term, caller, rest) => Ok(Entries::Actual(
                *variable,
                *domain,
                term.clone()?,
                caller.clone()?,
                rest.clone()?,
            )),
        }
    }

    fn find(&self, alloc: Global, variable: u32) -> Result<Binding, AllocError>
        ensures holds { IfOk result (λ binding. Holds binding (places_in self.now variable)) }
        ensures lighter { IfOk result (IsLighter (weight_in self.now)) }
    {
        match self {
            Entries::Empty => Ok(Binding::Free),
            Entries::Value(known, value, rest) => {
                if *known == variable {
                    Ok(Binding::Value(*value))
                } else {
                    Ok(rest.find(alloc, variable)?)
                }
            }
            Entries::Node(known, term, rest) => {
                if *known == variable {
                    Ok(Binding::Node(term.clone()?))
                } else {
                    Ok(rest.find(alloc, variable)?)
                }
            }
            Entries::Actual(known, domain, term, caller, rest) => {
                if *known == variable {
                    let entries = caller.copy()?;
                    Ok(Binding::Actual(*domain, term.clone()?, Env { alloc, entries }))
                } else {
                    Ok(rest.find(alloc, variable)?)
                }
            }
        }
    }
}
