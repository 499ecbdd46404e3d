//! The law on free variables.
ghost use Rattle.std.specs.Prelude.{◌≡◌};
ghost use Rattle.asm_node.specs.Tree.{Tree};
ghost use Rattle.asm_node.specs.Term.{World, Reads, Calls, value_of};
ghost use Rattle.asm_laws.specs.Free.{ReadAlike};

/// The value of a term depends on what its free variables read as, and on no other variable.
#[tactic(auto, using(crate::proofs::Free::value_alike))]
pub fn free_variables_decide()
    ensures { (w : World) (calls : Calls) (t : Tree) (reads other : Reads) → ReadAlike t reads other → value_of w calls reads t ≡ value_of w calls other t }
{}
