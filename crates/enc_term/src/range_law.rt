//! What a term may have is in its range, and its operators stay small.
ghost use Rattle.std.specs.Prelude.{◌≡◌, ℕ};
ghost use Rattle.asm_domain.specs.declared.value.Value.{Value};
ghost use Rattle.asm_node.specs.Machine.{Machine};
ghost use Rattle.asm_node.specs.Ranges.{Range, Ranges, IsIn, HasRange, IsRanged};
ghost use Rattle.asm_node.specs.Term.{Places};
ghost use Rattle.asm_node.specs.Tree.{Tree};
ghost use Rattle.asm_node.specs.WellFormed.{IsWellFormed};
ghost use Rattle.enc_term.specs.Can.{Has, can_in};
ghost use Rattle.enc_term.specs.Ranged.{FitsRanges};
ghost use Rattle.enc_term.specs.Small.{StaysSmallIn};

/// In a term of a model in which no interval is refused, each operator gives small numbers over all combinations of what
/// its arguments may have.
pub fn ranged_terms_stay_small()
    ensures { (m : Machine) → IsWellFormed m → (n : ℕ) (e : Places) (rs : Ranges) → FitsRanges m e rs → (t : Tree) → IsRanged m.signature rs t → StaysSmallIn m n e t }
{}

/// What a term may have is no number, or one of its range.
pub fn terms_stay_in_range()
    ensures { (m : Machine) → IsWellFormed m → (n : ℕ) (e : Places) (rs : Ranges) → FitsRanges m e rs → (t : Tree) (r : Range) → HasRange m.signature rs t r → (v : Value) → Has (can_in m n e t) v → IsIn r v }
{}
