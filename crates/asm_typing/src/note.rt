//! Single faults.

ghost use Rattle.std.specs.Prelude.{◌≡◌, [], ◌∷◌, ◌++◌, nat_eq, if◌then◌else◌, OnOk};
ghost use Rattle.asm_faults.specs.declared.fault.ModelFault.TheVariants.{Duplicate, WrongArity, WrongType};
ghost use Rattle.asm_faults.specs.At.{token, fault_at};
ghost use Rattle.asm_faults.specs.First.{noted};
ghost use Rattle.asm_faults.specs.DomainFaults.{is_listed};
ghost use Rattle.asm_typing.specs.Pieces.{differ};

use asm_faults::{First, ModelFault};
use asm_list::Name;
use asm_node::TermType;
use asm_tree::term::{RawName, RawTerm};
use name_table::Table;
use std::alloc::AllocError;

/// Notes a fault where something is wrong.
pub fn note_if(
    wrong: bool,
    first: &mut First,
    kind: ModelFault,
    unit: u32,
    at: u32,
    name: &Name,
) -> Result<(), AllocError>
    ensures { OnOk result (first.new ≡ noted first.old (if wrong then token kind unit at name.now ∷ [] else [])) }
{
    if wrong {
        first.note(kind, unit, at, name)
    } else {
        Ok(())
    }
}

/// Notes a fault where something isn't right.
pub fn note_unless(
    right: bool,
    first: &mut First,
    kind: ModelFault,
    unit: u32,
    at: u32,
    name: &Name,
) -> Result<(), AllocError>
    ensures { OnOk result (first.new ≡ noted first.old (if right then [] else token kind unit at name.now ∷ [])) }
{
    if right {
        return Ok(());
    }
    first.note(kind, unit, at, name)
}

/// Notes a name that is among those before it, and adds it to them.
pub fn see(first: &mut First, unit: u32, seen: &mut Table, name: &RawName) -> Result<(), AllocError>
    ensures seen { OnOk result (seen.new ≡ seen.old ++ name.now.text ∷ []) }
    ensures faults { OnOk result (first.new ≡ noted first.old (if is_listed seen.old name.now.text then fault_at Duplicate unit name.now ∷ [] else [])) }
{
    let listed = is_listed(seen, &name.text);
    note_if(
        listed,
        first,
        ModelFault::Duplicate,
        unit,
        name.at,
        &name.text,
    )?;
    seen.add(&name.text)?;
    Ok(())
}

/// Whether a table has a name.
pub fn is_listed(names: &Table, name: &Name) -> bool
    ensures { result ≡ is_listed names.now name.now }
{
    names.find(name).is_some()
}

/// Notes that a term has another type than the one that it is asked for, where both are known.
pub fn mismatch(
    first: &mut First,
    unit: u32,
    want: Option<TermType>,
    own: Option<TermType>,
    term: &RawTerm,
) -> Result<(), AllocError>
    ensures { OnOk result (first.new ≡ noted first.old (if differ want own then token WrongType unit term.now.at term.now.first ∷ [] else [])) }
{
    let wrong = differ(want, own);
    note_if(
        wrong,
        first,
        ModelFault::WrongType,
        unit,
        term.at,
        &term.first,
    )
}

/// Whether two types are known and aren't the same.
fn differ(want: Option<TermType>, own: Option<TermType>) -> bool
    ensures { result ≡ differ want own }
{
    match want {
        Some(want) => differs_from(want, own),
        None => false,
    }
}

fn differs_from(want: TermType, own: Option<TermType>) -> bool
    ensures { result ≡ differ (Some want) own }
{
    match own {
        Some(own) => want != own,
        None => false,
    }
}

/// Notes that another number of arguments is wanted than is given.
pub fn arity(
    first: &mut First,
    unit: u32,
    at: u32,
    name: &Name,
    wanted: usize,
    given: usize,
) -> Result<(), AllocError>
    ensures { OnOk result (first.new ≡ noted first.old (if nat_eq wanted given then [] else token WrongArity unit at name.now ∷ [])) }
{
    note_unless(
        wanted == given,
        first,
        ModelFault::WrongArity,
        unit,
        at,
        name,
    )
}
