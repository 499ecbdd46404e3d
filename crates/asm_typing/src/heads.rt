ghost use Rattle.std.specs.Prelude.{◌≡◌, [], ◌∷◌, ◌++◌, option_copied, IfOk};
ghost use Rattle.std.specs.Option.{option_map};
ghost use Rattle.asm_faults.specs.Bodies as bodies;
ghost use Rattle.asm_faults.specs.Bodies.{head_named};

use asm_list::{Listed, Name};
use asm_node::TermType;
use name_table::Table;
use std::alloc::{AllocError, Global};
use std::marker::Model;

/// The types of a rule's parameters.
pub type Types = Listed<Option<TermType>>;

/// Rules by their names, as others call them.
#[derive(Debug, Drop)]
pub struct Heads {
    names: Table,
    lists: Listed<Types>,
}

impl Model for Heads {
    ghost use Rattle.std.specs.Prelude.{◌≡◌, List, length};
    ghost use Rattle.asm_faults.specs.Bodies.{RuleHead};
    ghost use Rattle.asm_typing.specs.Heads.{heads_from};

    ghost Value = { List RuleHead };

    ghost view = { λ h. heads_from h.names h.lists };

    ghost invariant = { λ h. length h.names ≡ length h.lists };
}

impl Heads {
    /// No rule. It takes no memory.
    pub fn new(alloc: Global) -> Heads
        ensures { result ≡ [] }
    {
        Heads {
            names: Table::new(alloc),
            lists: Listed::new(alloc),
        }
    }

    /// Adds a rule.
    pub fn add(self, name: &Name, types: Types) -> Result<Heads, AllocError>
        ensures { IfOk result (λ heads. heads ≡ self ++ record { name = name.now; types = types } ∷ []) }
    {
        let Heads {
            mut names,
            mut lists,
        } = self;
        names.add(name)?;
        lists.push(types)?;
        Ok(Heads { names, lists })
    }

    /// The types of the parameters of the first rule of a name.
    pub fn find(&self, name: &Name) -> Option<&Types>
        ensures { option_copied result ≡ option_map (λ (h : bodies.RuleHead). h.types) (head_named self.now name.now) }
    {
        match self.names.find(name) {
            Some(place) => self.lists.item(place as usize),
            None => None,
        }
    }
}
