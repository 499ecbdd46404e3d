//! Which nodes may lead to themselves, found in a few walks over the nodes.

ghost use Rattle.std.specs.Prelude.{◌≡◌, IfOk};
ghost use Rattle.std.specs.List.{list_any};
ghost use Rattle.call_graph.specs.Calls.{calls_at, calls_of, is_in};
ghost use Rattle.asm_calls.specs.Graphs.{AreBounded};

use crate::graphs::{TOO_LONG, is_in};
use asm_list::Listed;
use call_graph::{Graph, Node, chains};
use std::alloc::{AllocError, Global};

/// How often all nodes are walked over, forwards and backwards.
const ROUNDS: u32 = 4;

/// For each node, `false` where it is found that the chains that begin at it have a bound. So a graph in whose order each
/// node stands behind those that it calls, or before them, takes one round.
pub fn endless(alloc: Global, graph: &Graph) -> Result<Listed<bool>, AllocError>
    ensures { IfOk result (λ row. AreBounded graph.now row) }
{
    let long = chains(alloc, graph, TOO_LONG)?;
    let mut row = long.into_vec();
    'rounds: for _ in 0..ROUNDS {
        forwards(graph, &mut row);
        backwards(graph, &mut row);
    }
    Ok(Listed::from_vec(row))
}

fn forwards(graph: &Graph, row: &mut Vec<bool>)
    requires { AreBounded graph.now row.old.items }
    ensures { AreBounded graph.now row.new.items }
{
    let count = row.len();
    'nodes: for number in 0..count {
        settle(graph, row, number);
    }
}

fn backwards(graph: &Graph, row: &mut Vec<bool>)
    requires { AreBounded graph.now row.old.items }
    ensures { AreBounded graph.now row.new.items }
{
    let count = row.len();
    'nodes: for behind in 0..count {
        settle(graph, row, count - 1 - behind);
    }
}

/// A node that calls none with `true` gets `false`.
fn settle(graph: &Graph, row: &mut Vec<bool>, number: usize)
    requires { AreBounded graph.now row.old.items }
    ensures { AreBounded graph.now row.new.items }
{
    if number >= row.len() {
        return;
    }
    if calls_one(graph, row, number) {
        return;
    }
    row[number] = false;
}

fn calls_one(graph: &Graph, row: &[bool], number: usize) -> bool
    ensures { result ≡ list_any (is_in row.now) (calls_at graph.now number) }
{
    calls_at(graph, number)
        .iter()
        .any(|call| is_in(row, *call as usize))
}

/// The numbers that a node calls.
fn calls_at(graph: &Graph, number: usize) -> &[u32]
    ensures { result.now ≡ calls_at graph.now number }
{
    match graph.item(number) {
        Some(node) => calls_of(node),
        None => &[],
    }
}

fn calls_of(node: &Node) -> &[u32]
    ensures { result.now ≡ calls_of node.now }
{
    if node.there { node.calls.slice() } else { &[] }
}
