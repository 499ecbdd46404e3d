//! What is told of a fault.
ghost use Rattle.std.specs.Prelude.{◌≡◌, None, OnOk, IfErr};
ghost use Rattle.asm_script.specs.Script.{Tells, told_in};

use asm_faults::{Fault, First, ModelError};
use asm_source::Place;

/// Refuses what something is wrong with, in the file of this number.
pub fn settle(file: u32, first: First) -> Result<(), ModelError>
    ensures ok { OnOk result (first ≡ None) }
    ensures err { IfErr result (Tells file first) }
{
    match first.into_fault() {
        Some(fault) => Err(told(file, fault)),
        None => Ok(()),
    }
}

/// What is told of a fault in the file of this number.
fn told(file: u32, fault: Fault) -> ModelError
    ensures { result ≡ told_in file fault }
{
    let at = fault.at;
    ModelError::Fault(fault.kind, fault.name, Place { file, at })
}
