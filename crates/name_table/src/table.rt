ghost use Rattle.std.specs.Prelude.{◌≡◌, ◌<◌, ◌^◌, [], ◌∷◌, ◌++◌, length, OnOk, OnErr};
ghost use Rattle.name_table.specs.Numbered.{number_of};

use crate::entries::place_of;
use asm_list::Name;
use indexmap::IndexMap;
use std::alloc::{AllocError, Global};
use std::marker::Model;

/// Names in the order in which they were added, numbered from 0. Contracts see it as the list of them.
///
/// Each text is kept once, however often it was added.
#[derive(Debug, Drop)]
pub struct Table {
    alloc: Global,
    entries: IndexMap<String, u32>,
    places: Vec<u32>,
}

impl Model for Table {
    ghost use Rattle.std.specs.Prelude.{List, ℕ};
    ghost use Rattle.name_table.specs.Numbered.{names_at, IsIndexed};

    ghost Value = { List (List ℕ) };

    ghost view = { λ t. names_at t.entries.entries t.places.items };

    ghost invariant = { λ t. IsIndexed t.entries.entries t.places.items };
}

impl Table {
    /// The table of no names, which takes no memory.
    pub fn new(alloc: Global) -> Self
        ensures { result ≡ [] }
    {
        Table {
            alloc,
            entries: IndexMap::new(alloc),
            places: Vec::new(alloc),
        }
    }

    /// How many names were added, each as often as it was.
    pub fn len(&self) -> usize
        ensures value { result ≡ length self.now }
        ensures few { result < 2 ^ 32 }
    {
        self.places.len()
    }

    /// The first number of a name, found with no walk over the names.
    pub fn find(&self, name: &Name) -> Option<u32>
        ensures { result ≡ number_of self.now name.now }
    {
        self.entries.get(name.text()).copied()
    }

    /// Adds a name, also one that is there. There are numbers for 4,294,967,295 names; where these or memory are wanting
    /// the table stays as before.
    pub fn add(&mut self, name: &Name) -> Result<(), AllocError>
        ensures ok { OnOk result (self.new ≡ self.old ++ name.now ∷ []) }
        ensures err { OnErr result (self.new ≡ self.old) }
    {
        if self.places.len() >= u32::MAX as usize {
            return Err(AllocError);
        }
        let number = self.places.len() as u32;
        self.places.reserve(1)?;
        let place = place_of(self.alloc, &mut self.entries, name.text(), number)?;
        self.places.push(place as u32)?;
        Ok(())
    }
}
