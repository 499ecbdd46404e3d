//! What the definition of a model's files stands on.
ghost use Rattle.std.specs.Prelude.{◌≡◌, ◌≢◌, ◌≤◌, ◌+◌, ◌↔◌, ℕ, List, length, Ok, Err};
ghost use Rattle.asm_io.specs.Outside.{Files};
ghost use Rattle.asm_source.specs.declared.sources.Source.{Source};
ghost use Rattle.asm_lex.specs.declared.token.Token.{Token};
ghost use Rattle.asm_tree.specs.declared.error.ParseError.{ParseError};
ghost use Rattle.asm_tree.specs.declared.error.ParseError.TheVariants.{Memory};
ghost use Rattle.asm_tree.specs.declared.unit.RawUnit.{RawUnit};
ghost use Rattle.asm_tree.specs.declared.unit.LoadedUnit.{LoadedUnit};
ghost use Rattle.asm_unit.specs.Loading.{most_files, new_file};
ghost use Rattle.asm_unit.specs.Spelled.{parsed};
ghost use Rattle.asm_unit.specs.Unit.{IsUnit, Explains};

/// The law that `parsed` gives the unit that tokens spell where they spell one, and the error that
/// explains why they don't where they spell none.
pub fn parsed_is_spelled()
    ensures unit { (text : List ℕ) (ts : List Token) (y : RawUnit) → (parsed text ts ≡ Ok y) ↔ IsUnit text ts y }
    ensures error { (text : List ℕ) (ts : List Token) (e : ParseError) → e ≢ Memory → (parsed text ts ≡ Err e) ↔ Explains text ts e }
{}

/// The law that the number of levels in the definition bounds nothing: from 64 on, one more level changes
/// nothing, since as many files may be read.
pub fn levels_suffice()
    ensures { (files : Files) (first levels : ℕ) (name : List ℕ) (sources : List Source) (units : List LoadedUnit) → most_files ≤ levels → first ≤ length sources → new_file files first (levels + 1) name sources units ≡ new_file files first levels name sources units }
{}
