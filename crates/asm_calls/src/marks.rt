//! Truth values for each of some callers, and the faults where they are true.

ghost use Rattle.std.specs.Prelude.{◌≡◌, ◌&&◌, ◌||◌, map, [], ◌∷◌, if◌then◌else◌, IfOk, OnOk};
ghost use Rattle.std.specs.List.{list_any};
ghost use Rattle.call_graph.specs.Calls.{is_in};
ghost use Rattle.asm_faults.specs.First.{noted};
ghost use Rattle.asm_faults.specs.At.{token};
ghost use Rattle.asm_faults.specs.Terms.{function_place, function_named};
ghost use Rattle.asm_calls.specs.Graphs.{in_row, marked_faults, are_some, if_reads, reads_at, reads_by};
ghost use Rattle.asm_calls.specs.Reads.{is_static, is_static_kind, reads_itself};

use crate::caller::Caller;
use crate::graphs::is_in;
use crate::read::Reading;
use asm_faults::{First, Known, ModelFault};
use asm_list::Listed;
use asm_sign::FunKind;
use std::alloc::{AllocError, Global};

/// For each definition, whether the row has `true` at the number of its function.
pub fn by_function(
    alloc: Global,
    known: &Known,
    definitions: &[Caller],
    row: &[bool],
) -> Result<Listed<bool>, AllocError>
    ensures { IfOk result (λ marks. marks ≡ map (λ c. in_row row.now (function_place known.now c.name)) definitions.now) }
{
    let mut marks = Listed::new(alloc);
    'definitions: for definition in definitions {
        marks.push(is_in_row(row, known.function_number(&definition.name)))?;
    }
    Ok(marks)
}

fn is_in_row(row: &[bool], number: Option<u32>) -> bool
    ensures { result ≡ in_row row.now number }
{
    match number {
        Some(number) => is_in(row, number as usize),
        None => false,
    }
}

/// Notes a fault at each caller whose mark is `true`. Answers whether there is one.
#[tactic(auto, using(crate::proofs::Marking::notings))]
pub fn note_marked(
    kind: ModelFault,
    callers: &[Caller],
    marks: &[bool],
    first: &mut First,
) -> Result<bool, AllocError>
    ensures faults { OnOk result (first.new ≡ noted first.old (marked_faults kind marks.now 0 callers.now)) }
    ensures found { IfOk result (λ found. found ≡ are_some (marked_faults kind marks.now 0 callers.now)) }
{
    let mut found = false;
    'callers: for (index, caller) in callers.iter().enumerate() {
        let marked = is_in(marks, index);
        note_if(marked, kind, caller, first)?;
        found = either(found, marked);
    }
    Ok(found)
}

/// Whether one of two is `true`.
pub fn either(one: bool, other: bool) -> bool
    ensures { result ≡ one || other }
{
    one || other
}

fn note_if(
    marked: bool,
    kind: ModelFault,
    caller: &Caller,
    first: &mut First,
) -> Result<(), AllocError>
    ensures { OnOk result (first.new ≡ noted first.old (if marked then token kind caller.now.unit caller.now.at caller.now.name ∷ [] else [])) }
{
    if marked {
        first.note(kind, caller.unit, caller.at, &caller.name)
    } else {
        Ok(())
    }
}

/// For each place, whether the definition there reads such a function itself.
pub fn own_reads(
    alloc: Global,
    reading: Reading,
    definitions: &[Caller],
    places: &[Option<u32>],
) -> Result<Listed<bool>, AllocError>
    ensures { IfOk result (λ marks. marks ≡ map (reads_at reading definitions.now) places.now) }
{
    let mut marks = Listed::new(alloc);
    'places: for place in places {
        marks.push(reads_at(reading, definitions, *place))?;
    }
    Ok(marks)
}

fn reads_at(reading: Reading, definitions: &[Caller], place: Option<u32>) -> bool
    ensures { result ≡ reads_at reading definitions.now place }
{
    match place {
        Some(place) => match definitions.get(place as usize) {
            Some(definition) => reads_itself(reading, definition),
            None => false,
        },
        None => false,
    }
}

fn reads_itself(reading: Reading, caller: &Caller) -> bool
    ensures { result ≡ reads_itself reading caller.now }
{
    match reading {
        Reading::Dynamic => caller.dynamic,
        Reading::Monitored => caller.monitored,
    }
}

/// For each caller, whether it reads such a function itself, or calls one that is in the row.
pub fn all_reads(
    alloc: Global,
    reading: Reading,
    callers: &[Caller],
    row: &[bool],
) -> Result<Listed<bool>, AllocError>
    ensures { IfOk result (λ marks. marks ≡ map (reads_by reading row.now) callers.now) }
{
    let mut marks = Listed::new(alloc);
    'callers: for caller in callers {
        marks.push(reads_by(reading, row, caller))?;
    }
    Ok(marks)
}

fn reads_by(reading: Reading, row: &[bool], caller: &Caller) -> bool
    ensures { result ≡ reads_by reading row.now caller.now }
{
    reads_itself(reading, caller) || calls_into(caller, row)
}

fn calls_into(caller: &Caller, row: &[bool]) -> bool
    ensures { result ≡ list_any (is_in row.now) caller.now.calls }
{
    caller
        .calls
        .slice()
        .iter()
        .any(|call| is_in(row, *call as usize))
}

/// For each definition, whether it is one of a static function and reads such a function, itself or by what is in the row.
pub fn static_reads(
    alloc: Global,
    known: &Known,
    reading: Reading,
    definitions: &[Caller],
    row: &[bool],
) -> Result<Listed<bool>, AllocError>
    ensures { IfOk result (λ marks. marks ≡ map (λ c. is_static (function_named known.now c.name) && reads_by reading row.now c) definitions.now) }
{
    let mut marks = Listed::new(alloc);
    'definitions: for definition in definitions {
        marks.push(is_static_reading(known, reading, definition, row))?;
    }
    Ok(marks)
}

fn is_static_reading(known: &Known, reading: Reading, definition: &Caller, row: &[bool]) -> bool
    ensures { result ≡ is_static (function_named known.now definition.now.name) && reads_by reading row.now definition.now }
{
    is_static(known, definition) && reads_by(reading, row, definition)
}

fn is_static(known: &Known, definition: &Caller) -> bool
    ensures { result ≡ is_static (function_named known.now definition.now.name) }
{
    match known.function(&definition.name) {
        Some(function) => is_static_kind(function.kind),
        None => false,
    }
}

fn is_static_kind(kind: FunKind) -> bool
    ensures { result ≡ is_static_kind kind }
{
    match kind {
        FunKind::Static => true,
        FunKind::Derived => false,
        FunKind::Controlled => false,
        FunKind::Out => false,
        FunKind::Shared => false,
        FunKind::Monitored => false,
    }
}
