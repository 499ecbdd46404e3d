//! The graphs of calls of a model.

ghost use Rattle.std.specs.Prelude.{◌≡◌, ℕ, ◌≤◌, map, length, false, IfOk, Some, None};
ghost use Rattle.call_graph.specs.Calls.{leads, is_in};
ghost use Rattle.call_graph.specs.Rows.{for_each};
ghost use Rattle.asm_faults.specs.Calls.{node_of};
ghost use Rattle.asm_calls.specs.Graphs.{AreBounded, node_at};

use crate::caller::Caller;
use crate::endless::endless;
use asm_list::Listed;
use call_graph::{Graph, Node, leads_to_itself};
use std::alloc::{AllocError, Global};

/// The longest chain of definitions or rules that is let through has one less.
pub const TOO_LONG: u32 = 33;

/// A node for each rule, numbered as they are.
pub fn rule_graph(alloc: Global, rules: &[Caller]) -> Result<Graph, AllocError>
    ensures { IfOk result (λ graph. graph ≡ map (λ c. node_of (Some c.calls)) rules.now) }
{
    let mut graph = Listed::new(alloc);
    'rules: for rule in rules {
        graph.push(node(alloc, rule)?)?;
    }
    Ok(graph)
}

fn node(alloc: Global, caller: &Caller) -> Result<Node, AllocError>
    ensures { IfOk result (λ node. node ≡ node_of (Some caller.now.calls)) }
{
    let calls = Listed::from_slice(alloc, caller.calls.slice())?;
    Ok(Node { there: true, calls })
}

/// A node for each function, numbered as they are, up to the last one that is defined. Those without a definition aren't
/// there.
pub fn function_graph(
    alloc: Global,
    definitions: &[Caller],
    places: &[Option<u32>],
) -> Result<Graph, AllocError>
    ensures { IfOk result (λ graph. graph ≡ map (node_at definitions.now) places.now) }
{
    let mut graph = Listed::new(alloc);
    'places: for place in places {
        graph.push(node_at(alloc, definitions, *place)?)?;
    }
    Ok(graph)
}

fn node_at(alloc: Global, definitions: &[Caller], place: Option<u32>) -> Result<Node, AllocError>
    ensures { IfOk result (λ node. node ≡ node_at definitions.now place) }
{
    match place {
        Some(place) => match definitions.get(place as usize) {
            Some(definition) => node(alloc, definition),
            None => Ok(missing(alloc)),
        },
        None => Ok(missing(alloc)),
    }
}

/// A node that isn't there.
fn missing(alloc: Global) -> Node
    ensures { result ≡ node_of None }
{
    Node {
        there: false,
        calls: Listed::new(alloc),
    }
}

/// For each node, whether it leads to itself by however many calls, if they are no fewer than the nodes.
pub fn looping(alloc: Global, graph: &Graph) -> Result<Listed<bool>, AllocError>
    ensures { IfOk result (λ row. (far : ℕ) → length graph.now ≤ far → row ≡ for_each graph.now (λ n. leads graph.now far n n)) }
{
    let long = endless(alloc, graph)?;
    let mut row = Listed::new(alloc);
    'nodes: for number in 0..graph.len() {
        let found = is_looping(alloc, graph, long.slice(), number)?;
        row.push(found)?;
    }
    Ok(row)
}

/// Whether a node leads to itself. Only nodes at which chains begin that have no bound may do so.
fn is_looping(
    alloc: Global,
    graph: &Graph,
    long: &[bool],
    number: usize,
) -> Result<bool, AllocError>
    requires { AreBounded graph.now long.now }
    ensures { IfOk result (λ found. (far : ℕ) → length graph.now ≤ far → found ≡ leads graph.now far number number) }
{
    if !is_in(long, number) {
        return Ok(false);
    }
    let found = leads_to_itself(alloc, graph, number)?;
    Ok(found)
}

/// Whether a row has `true` at a number.
pub fn is_in(row: &[bool], number: usize) -> bool
    ensures { result ≡ is_in row.now number }
{
    match row.get(number) {
        Some(value) => *value,
        None => false,
    }
}
