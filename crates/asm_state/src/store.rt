ghost use Rattle.std.specs.Prelude.{◌≡◌, IfOk, IsSome, Some};
ghost use Rattle.std.specs.FinMap as map;
ghost use Rattle.asm_state.specs.State.{State};

use asm_domain::Value;
use std::alloc::AllocError;

/// What holds a state: a value at each of its slots.
pub trait Store: Drop {
    /// The state that it holds.
    ghost state: { Self → State };

    /// The value at a slot.
    fn get(&self, slot: u32) -> Value
        requires { IsSome (map.get (state self.now) slot) }
        ensures { map.get (state self.now) slot ≡ Some result };

    /// Puts a value at a slot, in place of the one that is there. No other slot changes.
    fn put(&mut self, slot: u32, value: Value)
        requires { IsSome (map.get (state self.old) slot) }
        ensures { state self.new ≡ map.insert (state self.old) slot value };

    /// A store of its own with the same state.
    fn copy(&self) -> Result<Self, AllocError>
        ensures { IfOk result (λ copy. state copy ≡ state self.now) };
}
