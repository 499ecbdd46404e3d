//! What the model check makes sure of.

ghost use Rattle.std.specs.Prelude.{◌≡◌, List, None};
ghost use Rattle.asm_tree.specs.declared.unit.LoadedUnit.{LoadedUnit};
ghost use Rattle.asm_faults.specs.Check.{model_fault};
ghost use Rattle.asm_sound.specs.Checked.{AreFaultless, ChecksAreSound, CheckedIsWellFormed};

/// Where the check finds nothing wrong with the files of a model, the model that they are is well typed, reads and calls
/// what it may, and defines what it has to. This much needs the passes before that over intervals alone.
pub fn checks_are_sound()
    ensures sound { ChecksAreSound }
    ensures faultless { (units : List LoadedUnit) → model_fault units ≡ None → AreFaultless units }
{}

/// Where the check has no fault, the model that the files are is well formed, whatever numbers its variables have: it is
/// all that evaluation relies on, so the interval of each of its integer terms is known too. There may be no more domains
/// than the number that stands for the whole numbers says.
pub fn checked_is_well_formed()
    ensures { CheckedIsWellFormed }
{}
