ghost use Rattle.std.specs.Prelude.{◌≡◌, [], ◌∷◌, ◌++◌, length, take, OnOk, OnErr};
ghost use Rattle.asm_faults.specs.Terms.{bound_type};

use asm_list::Name;
use asm_node::TermType;
use std::alloc::{AllocError, Global};
use std::marker::Model;

/// A variable that is bound, and the type of its values, where it fits one alone.
#[derive(Debug, Drop)]
struct Variable {
    name: Name,
    kind: Option<TermType>,
}

/// The variables that are bound, the innermost last.
#[derive(Debug, Drop)]
pub struct Scope {
    alloc: Global,
    variables: Vec<Variable>,
}

impl Model for Scope {
    ghost use Rattle.std.specs.Prelude.{List, map};
    ghost use Rattle.asm_faults.specs.Terms.{Bound};
    ghost use Rattle.asm_typing.specs.Bound.{bound_of};

    ghost Value = { List Bound };

    ghost view = { λ s. map bound_of s.variables.items };
}

impl Scope {
    /// No variable is bound. It takes no memory.
    pub fn new(alloc: Global) -> Scope
        ensures { result ≡ [] }
    {
        Scope {
            alloc,
            variables: Vec::new(alloc),
        }
    }

    /// How many variables are bound, those that others hide too.
    pub fn len(&self) -> usize
        ensures { result ≡ length self.now }
    {
        self.variables.len()
    }

    /// Binds a variable within all others. Where memory is wanting the scope stays as before.
    pub fn bind(&mut self, name: &Name, kind: Option<TermType>) -> Result<(), AllocError>
        ensures ok { OnOk result (self.new ≡ self.old ++ record { name = name.now; type = kind } ∷ []) }
        ensures err { OnErr result (self.new ≡ self.old) }
    {
        let name = Name::of(self.alloc, name.text())?;
        self.variables.push(Variable { name, kind })?;
        Ok(())
    }

    /// Leaves so many of the outermost variables bound.
    pub fn leave(&mut self, depth: usize)
        ensures { self.new ≡ take depth self.old }
    {
        self.variables.truncate(depth);
    }

    /// What the innermost variable of a name is bound to.
    #[tactic(auto, using(crate::proofs::Scopes::found_step, crate::proofs::Scopes::found_first))]
    pub fn find(&self, name: &Name) -> Option<Option<TermType>>
        ensures { result ≡ bound_type self.now name.now }
    {
        let mut found = None;
        'variables: for variable in &self.variables {
            if variable.name.text() == name.text() {
                found = Some(variable.kind);
            }
        }
        found
    }
}
