//! The law on numbers of variables.
ghost use Rattle.asm_faults.specs.Model.{IsNumbering};
ghost use Rattle.asm_renaming.specs.Coded.{code};
ghost use Rattle.asm_renaming.specs.Meaning.{NumbersAreFree, ScriptNumbersAreFree};

/// The machines of files under two numberings of their variables mean the same. Names have codes, so there is a numbering.
pub fn numbers_are_free()
    ensures codes { IsNumbering code }
    ensures free { NumbersAreFree }
{}

/// Over the machine of files a script's rules and conditions mean the same, whichever numbers its variables have and whichever those of the files.
pub fn script_numbers_are_free()
    ensures { ScriptNumbersAreFree }
{}
