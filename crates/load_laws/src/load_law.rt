//! The laws on the files of a model.
ghost use Rattle.std.specs.Prelude.{◌≡◌, ◌<◌, ◌≤◌, ℕ, true, List, [], length};
ghost use Rattle.asm_io.specs.Outside.{Files};
ghost use Rattle.asm_source.specs.declared.sources.Source.{Source};
ghost use Rattle.asm_tree.specs.declared.unit.LoadedUnit.{LoadedUnit};
ghost use Rattle.asm_unit.specs.declared.error.LoadError.TheVariants.{Absent, TooLong, ImportCycle, TooManyFiles};
ghost use Rattle.asm_unit.specs.Path.{normalised};
ghost use Rattle.asm_unit.specs.Loading.{Outcome, units_in, ended, refused, is_loaded};
ghost use Rattle.load_laws.specs.Importing.{StandInOrder, EndsWith, AreReached, Reaches, IsOnCycle, IsOneTooMany, name_at};

/// Each unit of a model stands behind all that it imports, no file has two units, and the last unit is that of the named
/// file. Each file that is read for a model is one of its units.
#[tactic(auto, using(crate::proofs::Loading::in_order, crate::proofs::Loading::named_last, crate::proofs::Loading::all_loaded))]
pub fn units_stand_in_order()
    ensures order { (files : Files) (name : List ℕ) (before now : List Source) (units : List LoadedUnit) → units_in files name before ≡ ended now units → StandInOrder (name_at now) [] units }
    ensures last { (files : Files) (name : List ℕ) (before now : List Source) (units : List LoadedUnit) → units_in files name before ≡ ended now units → EndsWith (normalised name) before now units }
    ensures whole { (files : Files) (name : List ℕ) (before now : List Source) (units : List LoadedUnit) → units_in files name before ≡ ended now units → (file : ℕ) → length before ≤ file → file < length now → is_loaded file units ≡ true }
{}

/// Imports lead from the named file to each file that is read for a model, also where a file is refused, and each has a
/// name of its own. They lead to a file that is absent or too long, too.
#[tactic(auto, using(crate::proofs::Loading::all_reached))]
pub fn only_imports_are_read()
    ensures read { (files : Files) (name : List ℕ) (before : List Source) → AreReached files (normalised name) before (units_in files name before).sources }
    ensures absent { (files : Files) (name missing : List ℕ) (before now : List Source) → units_in files name before ≡ refused now (Absent missing) → Reaches files (normalised name) missing }
    ensures long { (files : Files) (name held : List ℕ) (before now : List Source) → units_in files name before ≡ refused now (TooLong held) → Reaches files (normalised name) held }
{}

/// Where an import cycle is told, imports lead from the named file to one that imports itself, by others or at once. Where
/// too many files are told, 64 were read, and imports lead to one more.
pub fn refused_imports_are_shown()
    ensures cycle { (files : Files) (name again : List ℕ) (before now : List Source) → units_in files name before ≡ refused now (ImportCycle again) → IsOnCycle files (normalised name) again }
    ensures too_many { (files : Files) (name next : List ℕ) (before now : List Source) → units_in files name before ≡ refused now (TooManyFiles next) → IsOneTooMany files (normalised name) before now next }
{}
