//! Cycles and long chains of definitions and of rules.

ghost use Rattle.std.specs.Prelude.{◌≡◌, ℕ, ◌≤◌, length, IfOk, OnOk};
ghost use Rattle.asm_faults.specs.First.{noted};
ghost use Rattle.asm_faults.specs.Calls.{call_faults, or_next};
ghost use Rattle.asm_calls.specs.Graphs.{are_some, both_marked, cycles_marked, chains_marked};

use crate::caller::Caller;
use crate::gather::{definitions, rules};
use crate::graphs::{TOO_LONG, function_graph, looping, rule_graph};
use crate::marks::{by_function, either, note_marked};
use crate::places::places;
use asm_faults::{First, Known, ModelFault};
use asm_tree::unit::Units;
use call_graph::{Graph, chains};
use std::alloc::{AllocError, Global};

/// Notes definitions and rules that call themselves, by themselves or through others, and, where there are none, those at
/// which a chain of more than 32 begins.
///
/// There are numbers for 4,294,967,295 files and as many definitions and rules. After want of memory nothing is said of
/// the first fault.
pub fn calls(
    alloc: Global,
    units: &Units,
    known: &Known,
    first: &mut First,
) -> Result<(), AllocError>
    ensures { OnOk result (first.new ≡ noted first.old (call_faults known.now units.now)) }
{
    let files = units.slice();
    let definitions = definitions(alloc, known, files)?;
    let readers = definitions.slice();
    let rules = rules(alloc, known, files)?;
    let callers = rules.slice();
    let places = places(alloc, known, readers)?;
    let reading = function_graph(alloc, readers, places.slice())?;
    let calling = rule_graph(alloc, callers)?;
    note_calls(alloc, known, readers, &reading, callers, &calling, first)?;
    Ok(())
}

/// Notes what is wrong with the calls of definitions and rules, whose graphs are these.
fn note_calls(
    alloc: Global,
    known: &Known,
    definitions: &[Caller],
    reading: &Graph,
    rules: &[Caller],
    calling: &Graph,
    first: &mut First,
) -> Result<(), AllocError>
    ensures { OnOk result ((far : ℕ) → length reading.now ≤ far → first.new ≡ noted first.old (or_next (cycles_marked known.now far definitions.now reading.now rules.now calling.now) (chains_marked known.now definitions.now reading.now rules.now calling.now))) }
{
    let found = note_cycles(alloc, known, definitions, reading, rules, calling, first)?;
    if found {
        return Ok(());
    }
    note_chains(alloc, known, definitions, reading, rules, calling, first)?;
    Ok(())
}

fn note_cycles(
    alloc: Global,
    known: &Known,
    definitions: &[Caller],
    reading: &Graph,
    rules: &[Caller],
    calling: &Graph,
    first: &mut First,
) -> Result<bool, AllocError>
    ensures faults { OnOk result ((far : ℕ) → length reading.now ≤ far → first.new ≡ noted first.old (cycles_marked known.now far definitions.now reading.now rules.now calling.now)) }
    ensures found { IfOk result (λ found. (far : ℕ) → length reading.now ≤ far → found ≡ are_some (cycles_marked known.now far definitions.now reading.now rules.now calling.now)) }
{
    let row = looping(alloc, reading)?;
    let other = looping(alloc, calling)?;
    let kind = ModelFault::Cycle;
    let found = note_both(
        alloc,
        known,
        kind,
        definitions,
        row.slice(),
        rules,
        other.slice(),
        first,
    )?;
    Ok(found)
}

fn note_chains(
    alloc: Global,
    known: &Known,
    definitions: &[Caller],
    reading: &Graph,
    rules: &[Caller],
    calling: &Graph,
    first: &mut First,
) -> Result<(), AllocError>
    ensures { OnOk result (first.new ≡ noted first.old (chains_marked known.now definitions.now reading.now rules.now calling.now)) }
{
    let row = chains(alloc, reading, TOO_LONG)?;
    let other = chains(alloc, calling, TOO_LONG)?;
    let kind = ModelFault::CallsTooDeep;
    note_both(
        alloc,
        known,
        kind,
        definitions,
        row.slice(),
        rules,
        other.slice(),
        first,
    )?;
    Ok(())
}

/// Notes a fault at each definition and at each rule where the row of its graph has `true`. Answers whether there is one.
fn note_both(
    alloc: Global,
    known: &Known,
    kind: ModelFault,
    definitions: &[Caller],
    row: &[bool],
    rules: &[Caller],
    other: &[bool],
    first: &mut First,
) -> Result<bool, AllocError>
    ensures faults { OnOk result (first.new ≡ noted first.old (both_marked known.now kind definitions.now row.now rules.now other.now)) }
    ensures found { IfOk result (λ found. found ≡ are_some (both_marked known.now kind definitions.now row.now rules.now other.now)) }
{
    let marks = by_function(alloc, known, definitions, row)?;
    let some = note_marked(kind, definitions, marks.slice(), first)?;
    let more = note_marked(kind, rules, other, first)?;
    Ok(either(some, more))
}
