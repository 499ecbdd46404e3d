//! Variables with their domains.

ghost use Rattle.std.specs.Prelude.{◌≡◌, ℕ, [], ◌∷◌, if◌then◌else◌, OnOk};
ghost use Rattle.std.specs.List.{flat_map};
ghost use Rattle.asm_tree.specs.declared.term.RawBinder.{RawBinder};
ghost use Rattle.asm_faults.specs.declared.fault.ModelFault.TheVariants.{WrongKind};
ghost use Rattle.asm_faults.specs.At.{fault_at};
ghost use Rattle.asm_faults.specs.First.{noted};
ghost use Rattle.asm_faults.specs.Files.{has_name};
ghost use Rattle.asm_faults.specs.DomainFaults.{integer, repeats};
ghost use Rattle.asm_faults.specs.FunctionFaults as function_faults;
ghost use Rattle.asm_faults.specs.Terms as terms;
ghost use Rattle.asm_faults.specs.Terms.{variables_of};

use crate::note::{note_if, see};
use crate::scope::Scope;
use asm_faults::{First, Known, ModelFault};
use asm_tree::term::{RawBinder, RawName};
use name_table::Table;
use std::alloc::AllocError;

/// Notes variables that stand twice, and domains that aren't declared.
#[tactic(auto, using(asm_faults::proofs::Noting::noted_append))]
pub fn binder_faults(
    known: &Known,
    unit: u32,
    first: &mut First,
    items: &[RawBinder],
) -> Result<(), AllocError>
    ensures { OnOk result (first.new ≡ noted first.old (terms.binder_faults known.now unit items.now)) }
{
    repeated(known, unit, first, items)?;
    undeclared(known, unit, first, items)?;
    Ok(())
}

/// Notes variables that stand twice.
#[tactic(auto, using(crate::proofs::Steps::repeats_step))]
fn repeated(
    known: &Known,
    unit: u32,
    first: &mut First,
    items: &[RawBinder],
) -> Result<(), AllocError>
    ensures { OnOk result (first.new ≡ noted first.old (repeats [] (variables_of known.now unit items.now))) }
{
    let mut seen = Table::new(known.alloc());
    'items: for item in items {
        see(first, unit, &mut seen, &item.variable)?;
    }
    Ok(())
}

/// Notes domains that aren't declared.
#[tactic(auto, using(crate::proofs::Steps::each_step))]
fn undeclared(
    known: &Known,
    unit: u32,
    first: &mut First,
    items: &[RawBinder],
) -> Result<(), AllocError>
    ensures { OnOk result (first.new ≡ noted first.old (flat_map (λ (b : RawBinder). function_faults.unknown_domain known.now.domains unit b.domain) items.now)) }
{
    'items: for item in items {
        unknown_domain(known, unit, first, &item.domain)?;
    }
    Ok(())
}

fn unknown_domain(
    known: &Known,
    unit: u32,
    first: &mut First,
    name: &RawName,
) -> Result<(), AllocError>
    ensures { OnOk result (first.new ≡ noted first.old (function_faults.unknown_domain known.now.domains unit name.now)) }
{
    match known.domain(&name.text) {
        Some(_) => Ok(()),
        None => first.note(ModelFault::Unknown, unit, name.at, &name.text),
    }
}

/// Notes domains of all whole numbers.
#[tactic(auto, using(crate::proofs::Steps::each_step))]
pub fn infinite_faults(unit: u32, first: &mut First, items: &[RawBinder]) -> Result<(), AllocError>
    ensures { OnOk result (first.new ≡ noted first.old (flat_map (λ (b : RawBinder). if has_name integer b.domain then fault_at WrongKind unit b.domain ∷ [] else []) items.now)) }
{
    'items: for item in items {
        let infinite = item.domain.text.text() == "Integer";
        note_if(
            infinite,
            first,
            ModelFault::WrongKind,
            unit,
            item.domain.at,
            &item.domain.text,
        )?;
    }
    Ok(())
}

/// Binds variables to elements of their domains. The first one is the innermost.
pub fn within(known: &Known, scope: &mut Scope, items: &[RawBinder]) -> Result<(), AllocError>
    ensures { (n : ℕ) → OnOk result (scope.new ≡ terms.within known.now n items.now scope.old) }
{
    let count = items.len();
    'items: for index in 0..count {
        let item = &items[count - 1 - index];
        scope.bind(&item.variable.text, known.type_named(&item.domain.text))?;
    }
    Ok(())
}
