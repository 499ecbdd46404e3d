//! What is kept of domains and of their definitions, by names.
ghost use Rattle.std.specs.Prelude.{◌≡◌, [], ◌∷◌, ◌++◌, OnOk};
ghost use Rattle.asm_declare.specs.Measures.{found};

use asm_list::{Listed, Name};
use name_table::Table;
use std::alloc::{AllocError, Global};

/// The definitions of domains: their names, and how many numbers each gives, where 4,097 stands for all greater sizes.
#[derive(Debug, Drop)]
pub struct Definitions {
    pub names: Table,
    pub sizes: Listed<u32>,
}

impl Definitions {
    /// No definition.
    pub fn new(alloc: Global) -> Definitions
        ensures names { result.names ≡ [] }
        ensures sizes { result.sizes ≡ [] }
    {
        Definitions {
            names: Table::new(alloc),
            sizes: Listed::new(alloc),
        }
    }

    /// How many numbers the first definition of a domain gives.
    pub fn size(&self, name: &Name) -> Option<u32>
        ensures { result ≡ found self.now.names self.now.sizes name.now }
    {
        match self.names.find(name) {
            Some(place) => self.sizes.item(place as usize).copied(),
            None => None,
        }
    }
}

/// Whether a domain is declared as part of another, and how many elements it has, where 4,097 stands for all greater sizes.
#[derive(Clone, Copy, Debug)]
pub struct Measure {
    pub is_part: bool,
    pub size: u32,
}

/// The declared domains.
#[derive(Debug, Drop)]
pub struct Measures {
    pub names: Table,
    pub measures: Listed<Measure>,
}

impl Measures {
    /// No domain.
    pub fn new(alloc: Global) -> Measures
        ensures names { result.names ≡ [] }
        ensures measures { result.measures ≡ [] }
    {
        Measures {
            names: Table::new(alloc),
            measures: Listed::new(alloc),
        }
    }

    /// What is known of the first domain of a name.
    pub fn measure(&self, name: &Name) -> Option<Measure>
        ensures { result ≡ found self.now.names self.now.measures name.now }
    {
        match self.names.find(name) {
            Some(place) => self.measures.item(place as usize).copied(),
            None => None,
        }
    }

    /// Adds a domain.
    pub fn add(&mut self, name: &Name, measure: Measure) -> Result<(), AllocError>
        ensures names { OnOk result (self.new.names ≡ self.old.names ++ name.now ∷ []) }
        ensures measures { OnOk result (self.new.measures ≡ self.old.measures ++ measure ∷ []) }
    {
        self.names.add(name)?;
        self.measures.push(measure)?;
        Ok(())
    }
}
