//! Names are taken one after the other, and those that stand earlier are noted.
ghost use Rattle.std.specs.Prelude.{◌≡◌, [], ◌∷◌, if◌then◌else◌, OnOk};
ghost use Rattle.asm_faults.specs.declared.fault.ModelFault.TheVariants.{Duplicate};
ghost use Rattle.asm_faults.specs.At.{fault_at};
ghost use Rattle.asm_faults.specs.First.{noted};
ghost use Rattle.asm_faults.specs.DomainFaults.{is_listed};
ghost use Rattle.asm_declare.specs.Entered.{of_unit, AreEntered};

use asm_faults::{First, ModelFault};
use asm_tree::term::RawName;
use name_table::Table;
use std::alloc::AllocError;

/// Notes a name that is among others.
fn note_listed(
    names: &Table,
    first: &mut First,
    unit: u32,
    name: &RawName,
) -> Result<(), AllocError>
    ensures { OnOk result (first.new ≡ noted first.old (if is_listed names.now name.now.text then fault_at Duplicate unit name.now ∷ [] else [])) }
{
    if names.find(&name.text).is_some() {
        first.note(ModelFault::Duplicate, unit, name.at, &name.text)
    } else {
        Ok(())
    }
}

/// Takes a name of a unit.
pub fn enter(
    names: &mut Table,
    first: &mut First,
    unit: u32,
    name: &RawName,
) -> Result<(), AllocError>
    ensures { OnOk result (AreEntered first.old names.old ((unit, name.now) ∷ []) first.new names.new) }
{
    note_listed(names, first, unit, name)?;
    names.add(&name.text)?;
    Ok(())
}

/// Takes some names of a unit.
pub fn enter_all(
    names: &mut Table,
    first: &mut First,
    unit: u32,
    more: &[RawName],
) -> Result<(), AllocError>
    ensures { OnOk result (AreEntered first.old names.old (of_unit unit more.now) first.new names.new) }
{
    for name in more {
        enter(names, first, unit, name)?;
    }
    Ok(())
}
