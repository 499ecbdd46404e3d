ghost use Rattle.std.specs.Prelude.{◌≡◌, ◌<◌, OnOk, OnErr, option_copied, not, length};
ghost use Rattle.std.specs.FinMap as finite;
ghost use Rattle.asm_sign.specs.Vocabulary.{locations, function_at};
ghost use Rattle.asm_node.specs.Machine.{no_input, has_kind, is_shared};

use asm_domain::Value;
use asm_list::Listed;
use asm_sign::{FunKind, Signature};
use std::alloc::{AllocError, Global};
use std::collections::BTreeMap;
use std::marker::Model;

/// The values that a step is given, by the slots of monitored and shared locations.
#[derive(Debug, Drop)]
pub struct Input {
    values: BTreeMap<u32, Value>,
}

/// The inputs of steps, in their order.
pub type Inputs = Listed<Input>;

impl Model for Input {
    ghost use Rattle.std.specs.FinMap as finite;
    ghost use Rattle.std.specs.Coded.{coded_ℕ};
    ghost use Rattle.asm_node.specs.Machine.{Input};
    ghost use Rattle.asm_node.specs.UpdateSet.{value_code};

    ghost Value = { Input };

    ghost coded = { finite.code coded_ℕ value_code };

    ghost view = { λ i. finite.from_entries i.values.entries };
}

impl Input {
    /// No value, which takes no memory.
    pub fn new(alloc: Global) -> Input
        ensures { result ≡ no_input }
    {
        Input {
            values: BTreeMap::new(alloc),
        }
    }

    /// Gives a value to a slot, in place of an earlier one.
    pub fn set(&mut self, slot: u32, value: Value) -> Result<(), AllocError>
        ensures ok { OnOk result (self.new ≡ finite.insert self.old slot value) }
        ensures err { OnErr result (self.new ≡ self.old) }
    {
        self.values.insert(slot, value)?;
        Ok(())
    }

    /// The value of a slot, where it is given one.
    pub fn get(&self, slot: u32) -> Option<&Value>
        ensures { option_copied result ≡ finite.get self.now slot }
    {
        self.values.get(&slot)
    }

    /// Takes away the values of the shared locations.
    pub fn drop_shared(&mut self, signature: &Signature)
        ensures { self.new ≡ finite.retain_keys self.old (λ l. not (has_kind is_shared (function_at signature.now l))) }
    {
        for slot in 0..signature.slots() {
            if is_shared_slot(signature, slot) {
                self.remove(slot);
            }
        }
    }

    fn remove(&mut self, slot: u32)
        ensures { self.new ≡ finite.remove self.old slot }
    {
        self.values.remove(&slot);
    }
}

fn is_shared_slot(signature: &Signature, slot: u32) -> bool
    requires { slot < length (locations signature.now) }
    ensures { result ≡ has_kind is_shared (function_at signature.now slot) }
{
    let (number, _) = signature.location(slot);
    match signature.functions().item(number as usize) {
        Some(function) => is_shared_kind(function.kind),
        None => false,
    }
}

fn is_shared_kind(kind: FunKind) -> bool
    ensures { result ≡ is_shared kind }
{
    matches!(kind, FunKind::Shared)
}
