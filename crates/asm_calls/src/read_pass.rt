//! Reads of functions that may not be read.

ghost use Rattle.std.specs.Prelude.{◌≡◌, ◌++◌, IfOk, OnOk};
ghost use Rattle.asm_faults.specs.First.{noted};
ghost use Rattle.asm_faults.specs.Calls.{read_faults};
ghost use Rattle.asm_calls.specs.Graphs.{reads_row, static_marked, reading_marked};

use crate::caller::Caller;
use crate::gather::{definitions, initials, invariants};
use crate::graphs::function_graph;
use crate::marks::{all_reads, note_marked, own_reads, static_reads};
use crate::places::places;
use crate::read::Reading;
use asm_faults::{First, Known, ModelFault};
use asm_list::Listed;
use asm_tree::unit::Units;
use call_graph::{Graph, touching};
use std::alloc::{AllocError, Global};

/// How many calls are followed from a definition on: no chain of definitions is longer, since it is itself the first.
const FAR: u32 = 31;

/// Notes static definitions and initial values that read dynamic functions, and invariants that read monitored ones, by
/// themselves or through at most 32 definitions.
///
/// There are numbers for 4,294,967,295 files and as many definitions. After want of memory nothing is said of the first
/// fault.
pub fn reads(
    alloc: Global,
    units: &Units,
    known: &Known,
    first: &mut First,
) -> Result<(), AllocError>
    ensures { OnOk result (first.new ≡ noted first.old (read_faults known.now units.now)) }
{
    let files = units.slice();
    let definitions = definitions(alloc, known, files)?;
    let readers = definitions.slice();
    let initials = initials(alloc, known, files)?;
    let invariants = invariants(alloc, known, files)?;
    let places = places(alloc, known, readers)?;
    let placed = places.slice();
    let graph = function_graph(alloc, readers, placed)?;
    note_dynamic(
        alloc,
        known,
        readers,
        placed,
        &graph,
        initials.slice(),
        first,
    )?;
    note_monitored(alloc, readers, placed, &graph, invariants.slice(), first)?;
    Ok(())
}

/// Notes static definitions and initial values that read dynamic functions.
fn note_dynamic(
    alloc: Global,
    known: &Known,
    definitions: &[Caller],
    places: &[Option<u32>],
    graph: &Graph,
    initials: &[Caller],
    first: &mut First,
) -> Result<(), AllocError>
    ensures { OnOk result (first.new ≡ noted first.old (static_marked known.now Reading.Dynamic (reads_row Reading.Dynamic definitions.now places.now graph.now) definitions.now ++ reading_marked Reading.Dynamic (reads_row Reading.Dynamic definitions.now places.now graph.now) initials.now)) }
{
    let dynamic = Reading::Dynamic;
    let row = reading_row(alloc, dynamic, graph, definitions, places)?;
    let held = row.slice();
    note_static(alloc, known, dynamic, definitions, held, first)?;
    note_reading(alloc, dynamic, initials, held, first)?;
    Ok(())
}

/// Notes invariants that read monitored functions.
fn note_monitored(
    alloc: Global,
    definitions: &[Caller],
    places: &[Option<u32>],
    graph: &Graph,
    invariants: &[Caller],
    first: &mut First,
) -> Result<(), AllocError>
    ensures { OnOk result (first.new ≡ noted first.old (reading_marked Reading.Monitored (reads_row Reading.Monitored definitions.now places.now graph.now) invariants.now)) }
{
    let monitored = Reading::Monitored;
    let row = reading_row(alloc, monitored, graph, definitions, places)?;
    let held = row.slice();
    note_reading(alloc, monitored, invariants, held, first)?;
    Ok(())
}

/// For each function, whether its definition reads such a function, itself or through others.
fn reading_row(
    alloc: Global,
    reading: Reading,
    graph: &Graph,
    definitions: &[Caller],
    places: &[Option<u32>],
) -> Result<Listed<bool>, AllocError>
    ensures { IfOk result (λ row. row ≡ reads_row reading definitions.now places.now graph.now) }
{
    let marks = own_reads(alloc, reading, definitions, places)?;
    let row = touching(alloc, graph, marks.slice(), FAR)?;
    Ok(row)
}

/// Notes definitions of static functions that read such a function, itself or by what is in the row.
fn note_static(
    alloc: Global,
    known: &Known,
    reading: Reading,
    definitions: &[Caller],
    row: &[bool],
    first: &mut First,
) -> Result<(), AllocError>
    ensures { OnOk result (first.new ≡ noted first.old (static_marked known.now reading row.now definitions.now)) }
{
    let marks = static_reads(alloc, known, reading, definitions, row)?;
    let kind = ModelFault::ForbiddenRead;
    note_marked(kind, definitions, marks.slice(), first)?;
    Ok(())
}

/// Notes callers that read such a function, themselves or by what is in the row.
fn note_reading(
    alloc: Global,
    reading: Reading,
    callers: &[Caller],
    row: &[bool],
    first: &mut First,
) -> Result<(), AllocError>
    ensures { OnOk result (first.new ≡ noted first.old (reading_marked reading row.now callers.now)) }
{
    let marks = all_reads(alloc, reading, callers, row)?;
    let kind = ModelFault::ForbiddenRead;
    note_marked(kind, callers, marks.slice(), first)?;
    Ok(())
}
