ghost use Rattle.std.specs.Prelude.{◌≡◌, OnOk, OnErr, IfOk, IsErrOf, ◌≤◌, length, option_copied};
ghost use Rattle.std.specs.FinMap as map;
ghost use Rattle.asm_io.specs.Reads.{Reads};

use crate::{ReadError, Text};
use asm_list::Name;
use std::alloc::{AllocError, Global};
use std::collections::VecDeque;
use std::marker::Model;

/// Files by their names: the newest entry of a name counts.
#[derive(Debug, Drop)]
pub struct FileMap {
    entries: VecDeque<(Name, Text)>,
}

impl Model for FileMap {
    ghost use Rattle.std.specs.FinMap as map;
    ghost use Rattle.std.specs.Coded.{coded_ℕ, coded_list};
    ghost use Rattle.asm_io.specs.Outside.{Files};

    ghost Value = { Files };

    ghost coded = { map.code (coded_list coded_ℕ) (coded_list coded_ℕ) };

    ghost view = { λ f. map.from_entries f.entries.items };
}

impl FileMap {
    pub fn new(alloc: Global) -> Self
        ensures { result ≡ map.empty }
    {
        FileMap {
            entries: VecDeque::new(alloc),
        }
    }

    pub fn insert(&mut self, alloc: Global, name: &str, text: &[u8]) -> Result<(), AllocError>
        ensures ok { OnOk result (self.new ≡ map.insert self.old name.now text.now) }
        ensures err { OnErr result (self.new ≡ self.old) }
    {
        let name = Name::of(alloc, name)?;
        let text = Text::from_slice(alloc, text)?;
        self.entries.push_front((name, text))?;
        Ok(())
    }

    #[tactic(auto, using(crate::proofs::Names::text_names))]
    pub fn get(&self, name: &str) -> Option<&Text>
        ensures { option_copied result ≡ map.get self.now name.now }
    {
        for (held, text) in &self.entries {
            if name == held.text() {
                return Some(text);
            }
        }
        None
    }

    /// A whole file of at most `limit` bytes.
    pub fn read(&self, alloc: Global, name: &str, limit: u64) -> Result<Text, ReadError>
        ensures short { IfOk result (λ text. length text ≤ limit) }
        ensures reads { Reads self.now name.now limit result }
        ensures no_fault { IsErrOf result ReadError.Failed → ⊥ }
    {
        let Some(text) = self.get(name) else {
            return Err(ReadError::Absent);
        };
        if text.len() as u64 > limit {
            return Err(ReadError::TooLong);
        }
        Ok(Text::from_slice(alloc, text.slice())?)
    }
}
