//! Pairs of a slot and a value with their literals.
ghost use Rattle.std.specs.Prelude.{◌≡◌, ◌++◌, ◌∷◌, [], OnOk};
ghost use Rattle.asm_domain.specs.declared.value.Value as datum;

use asm_domain::Value;
use asm_list::Listed;
use cnf_base::Lit;
use std::alloc::AllocError;

/// A slot and a value, and a literal that is true where the pair is in the set.
#[derive(Clone, Copy, Debug)]
pub struct Pair {
    pub slot: u32,
    pub value: Value,
    pub lit: Lit,
}

/// Pairs with their literals.
pub type Pairs = Listed<Pair>;

/// The pairs that a rule gives, and a literal that is true where it ends in a fault.
#[derive(Drop, Debug)]
pub struct UpdateBits {
    pub pairs: Pairs,
    pub fault: Lit,
}

/// Adds a pair at the end.
pub fn add_pair(pairs: &mut Pairs, slot: u32, value: Value, lit: Lit) -> Result<(), AllocError>
    ensures { OnOk result (pairs.new ≡ pairs.old ++ (record { slot = slot; value = value; lit = lit }) ∷ []) }
{
    pairs.push(Pair { slot, value, lit })
}
