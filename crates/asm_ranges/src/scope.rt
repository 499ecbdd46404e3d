ghost use Rattle.std.specs.Prelude.{◌≡◌, [], ◌∷◌, ◌++◌, length, take, OnOk, OnErr};
ghost use Rattle.asm_faults.specs.Ranges.{bound_spread, spread_or_none};
ghost use Rattle.asm_ranges.specs.Spreads.{bounds_of};

use crate::spread::Spread;
use asm_list::Name;
use std::alloc::{AllocError, Global};
use std::marker::Model;

/// A variable that is bound, and the interval of its values.
#[derive(Debug, Drop)]
struct Variable {
    name: Name,
    spread: Spread,
}

/// The variables that are bound, the innermost last.
#[derive(Debug, Drop)]
pub struct Scope {
    alloc: Global,
    variables: Vec<Variable>,
}

impl Model for Scope {
    ghost use Rattle.std.specs.Prelude.{List, map};
    ghost use Rattle.asm_faults.specs.Ranges.{Spreading};
    ghost use Rattle.asm_ranges.specs.Bound.{bound_of};

    ghost Value = { List Spreading };

    ghost view = { λ s. map bound_of s.variables.items };
}

impl Scope {
    /// No variable is bound. It takes no memory.
    pub fn new(alloc: Global) -> Scope
        ensures { result ≡ [] }
    {
        Scope {
            alloc,
            variables: Vec::new(alloc),
        }
    }

    /// How many variables are bound, those that others hide too.
    pub fn len(&self) -> usize
        ensures { result ≡ length self.now }
    {
        self.variables.len()
    }

    /// Binds a variable within all others. Where memory is wanting the scope stays as before.
    pub fn bind(&mut self, name: &Name, spread: Spread) -> Result<(), AllocError>
        ensures ok { OnOk result (self.new ≡ self.old ++ record { name = name.now; spread = bounds_of spread } ∷ []) }
        ensures err { OnErr result (self.new ≡ self.old) }
    {
        let name = Name::of(self.alloc, name.text())?;
        self.variables.push(Variable { name, spread })?;
        Ok(())
    }

    /// Leaves so many of the outermost variables bound.
    pub fn leave(&mut self, depth: usize)
        ensures { self.new ≡ take depth self.old }
    {
        self.variables.truncate(depth);
    }

    /// The interval of the innermost variable of a name; a name that is free gives no number.
    pub fn find(&self, name: &Name) -> Spread
        ensures { bounds_of result ≡ spread_or_none (bound_spread self.now name.now) }
    {
        let mut found = Spread::NoNumber;
        'variables: for variable in &self.variables {
            if variable.name.text() == name.text() {
                found = variable.spread;
            }
        }
        found
    }
}
