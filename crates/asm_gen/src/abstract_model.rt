//! The abstract model of a ring.
ghost use Rattle.std.specs.Prelude.{◌≡◌, ◌≤◌, IfOk};
ghost use Rattle.asm_gen.specs.Ring.{abstract_text};

use asm_source::{Text, append_number, append_str};
use std::alloc::{AllocError, Global};

const HEAD: &str =
    "asm ringA\nsignature:\n  domain Station subsetof Integer\n  controlled holder : Station\ndefinitions:\n  domain Station = {0..";

const STEP: &str = "}\nmain rule r_Main =\n  holder := (holder + 1) mod ";

const INITIAL: &str = "\ndefault init s0:\n  function holder = 0\n";

/// The text of the abstract model of a ring of so many stations.
pub fn abstract_model(alloc: Global, stations: u64) -> Result<Text, AllocError>
    requires { 1 ≤ stations }
    ensures { IfOk result (λ text. text ≡ abstract_text stations) }
{
    let mut text = Text::new(alloc);
    append_str(&mut text, HEAD)?;
    append_number(&mut text, stations - 1)?;
    append_str(&mut text, STEP)?;
    append_number(&mut text, stations)?;
    append_str(&mut text, INITIAL)?;
    Ok(text)
}
