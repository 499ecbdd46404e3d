//! Which literals of a group are true.
ghost use Rattle.std.specs.Prelude.{◌≡◌, ℕ, Bool, true, List};
ghost use Rattle.cnf_base.specs.Clauses.{lit_true};
ghost use Rattle.asm_domain.specs.declared.value.Value.{Value};
ghost use Rattle.asm_node.specs.Term.{Outcome};
ghost use Rattle.enc_group.specs.declared.group.Entry.{Entry};
ghost use Rattle.enc_group.specs.Group.{Means, is_gives, values_in, are_distinct};
ghost use Rattle.enc_term.specs.Can.{Has};

/// In a group that has no value twice, the literal of an entry is true exactly where its value is what the group means.
pub fn literals_tell_values()
    ensures { (v : ℕ → Bool) (g : List Entry) (o : Outcome Value) → are_distinct (values_in g) ≡ true → Means v g o → (e : Entry) → Has g e → lit_true v e.lit ≡ is_gives e.value o }
{}
