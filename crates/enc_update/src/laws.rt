//! What the literals of a set say of each slot.
ghost use Rattle.std.specs.Prelude.{◌≡◌, ◌↔◌, ℕ, Bool, true, false, List, map};
ghost use Rattle.std.specs.FinSet as set;
ghost use Rattle.cnf_base.specs.declared.lit.Lit as literal;
ghost use Rattle.asm_domain.specs.declared.value.Value.{Value};
ghost use Rattle.asm_node.specs.Taking.{Yields};
ghost use Rattle.asm_node.specs.UpdateSet.{UpdateSet, consistent, value_at};
ghost use Rattle.enc_group.specs.declared.group.Entry.{Entry};
ghost use Rattle.enc_group.specs.Group.{are_distinct, holds, values_in};
ghost use Rattle.enc_update.specs.declared.pair.Pair as pair;
ghost use Rattle.enc_update.specs.Slots.{Writes, entries_at};
ghost use Rattle.enc_update.specs.Updates.{Takes, two_true};

/// The entries of a slot have the value that a consistent set has there, or none.
#[tactic(auto, using(crate::proofs::Telling::set_written))]
pub fn consistent_sets_are_written()
    ensures { (v : ℕ → Bool) (ps : List pair.Pair) (fault : literal.Lit) (u : UpdateSet) → Takes v ps fault (Yields u tt) → consistent u ≡ true → (l : ℕ) → Writes v (entries_at ps l) (value_at u l) }
{}

/// A set is consistent exactly where at no slot two literals are true, in groups with one literal for each value.
#[tactic(auto, using(crate::proofs::Telling::clash_told))]
pub fn clashes_are_told()
    ensures { (v : ℕ → Bool) (u : UpdateSet) (groups : ℕ → List Entry) → ((l : ℕ) → are_distinct (values_in (groups l)) ≡ true) → ((l : ℕ) (x : Value) → holds v (groups l) x ≡ set.contains u (l, x)) → ((l : ℕ) → two_true v (map (λ e. e.lit) (groups l)) ≡ false) ↔ (consistent u ≡ true) }
{}
