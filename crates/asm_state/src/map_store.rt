ghost use Rattle.std.specs.Prelude.{◌≡◌, ◌++◌, ◌∷◌, [], IfOk};
ghost use Rattle.asm_state.specs.State.{IsStateOf, IsUndefined};

use crate::Store;
use asm_domain::Value;
use asm_sign::Signature;
use std::alloc::{AllocError, Global};
use std::marker::Model;

/// A state that is held with an entry for each slot of a signature, which is empty where the slot isn't kept.
#[derive(Debug, Drop)]
pub struct MapStore {
    alloc: Global,
    entries: Vec<Option<Value>>,
}

impl Model for MapStore {
    ghost use Rattle.asm_state.specs.State.{State, state_code};
    ghost use Rattle.asm_state.specs.Entries.{held};

    ghost Value = { State };

    ghost coded = { state_code };

    ghost view = { λ s. held s.entries.items };
}

impl MapStore {
    /// The state of a signature in which every location is undefined.
    pub fn new(alloc: Global, signature: &Signature) -> Result<MapStore, AllocError>
        ensures undefined { IfOk result (IsUndefined signature.now) }
        ensures state { IfOk result (IsStateOf signature.now) }
    {
        let mut entries = Vec::new(alloc);
        for slot in 0..signature.slots() {
            push(&mut entries, signature.kept(slot).then_some(Value::Undef))?;
        }
        Ok(MapStore { alloc, entries })
    }
}

impl Store for MapStore {
    ghost state = { λ s. s };

    fn get(&self, slot: u32) -> Value {
        self.entries[slot as usize].unwrap_or_default()
    }

    fn put(&mut self, slot: u32, value: Value) {
        self.entries[slot as usize] = Some(value);
    }

    fn copy(&self) -> Result<Self, AllocError> {
        Ok(MapStore {
            alloc: self.alloc,
            entries: Vec::from_slice(self.alloc, &self.entries)?,
        })
    }
}

fn push(entries: &mut Vec<Option<Value>>, entry: Option<Value>) -> Result<(), AllocError>
    ensures { IfOk result (λ _. entries.new.items ≡ entries.old.items ++ entry ∷ []) }
{
    entries.push(entry)?;
    Ok(())
}
