ghost use Rattle.std.specs.Prelude.{◌≡◌, [], Some, IfOk};
ghost use Rattle.name_table.specs.Numbered.{number_of};
ghost use Rattle.asm_node.specs.Pool.{terms_of, rules_of, HasTerms, HasParts};

use asm_list::Name;
use asm_node::{Pool, Rule, RuleKind, Term, TermKind};
use name_table::Table;
use std::alloc::{AllocError, Global};
use std::rc::Rc;

/// The nodes that are made so far, and the variables that have a number so far.
#[derive(Drop)]
pub struct Maker {
    alloc: Global,
    pub pool: Pool,
    pub variables: Table,
}

impl Maker {
    ghost use Rattle.asm_build.specs.Made.{HasGrown};
    ghost use Rattle.asm_node.specs.Tree.{plain_kind};
    ghost use Rattle.asm_node.specs.RuleTree as rule;

    /// No node and no variable. It takes no memory.
    pub fn new(alloc: Global) -> Maker
        ensures terms { terms_of result.pool ≡ [] }
        ensures rules { rules_of result.pool ≡ [] }
        ensures variables { result.variables ≡ [] }
    {
        Maker {
            alloc,
            pool: Pool::new(alloc),
            variables: Table::new(alloc),
        }
    }

    /// The nodes of a pool and no variable. It takes no memory.
    pub fn over(alloc: Global, pool: Pool) -> Maker
        ensures pool { result.pool ≡ pool }
        ensures variables { result.variables ≡ [] }
    {
        Maker {
            alloc,
            pool,
            variables: Table::new(alloc),
        }
    }

    /// Where further nodes take their memory.
    pub(crate) fn alloc(&self) -> Global {
        self.alloc
    }

    /// The nodes that were made.
    pub fn into_pool(self) -> Pool
        ensures { result ≡ self.pool }
    {
        let Maker {
            alloc: _,
            pool,
            variables: _,
        } = self;
        pool
    }

    /// The number of a variable, which gets one where it has none.
    pub fn variable(&mut self, name: &Name) -> Result<u32, AllocError>
        ensures number { IfOk result (λ k. number_of self.new.variables name.now ≡ Some k) }
        ensures grown { IfOk result (λ k. HasGrown self.old self.new) }
    {
        match self.variables.find(name) {
            Some(number) => Ok(number),
            None => {
                let number = self.variables.len();
                self.variables.add(name)?;
                Ok(number as u32)
            }
        }
    }
}
