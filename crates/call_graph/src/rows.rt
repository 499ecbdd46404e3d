//! What holds of each node, in rounds over all calls: a row of truth values is made from the row before.

ghost use Rattle.std.specs.Prelude.{◌≡◌, ◌||◌, true, IfOk};
ghost use Rattle.call_graph.specs.Calls.{has_chain, touches, is_in, is_there, calls_of};
ghost use Rattle.call_graph.specs.Rows.{for_each, calls_into, is_marked_or_calls};

use crate::graph::{Graph, Node, calls_of, is_in};
use asm_list::Listed;
use std::alloc::{AllocError, Global};

/// For each node, whether a chain of `length` nodes begins at it. It takes `length` rounds over all calls.
pub fn chains(alloc: Global, graph: &Graph, length: u32) -> Result<Listed<bool>, AllocError>
    ensures { IfOk result (λ row. row ≡ for_each graph.now (has_chain graph.now length)) }
{
    if length == 0 {
        return Ok(Listed::from_vec(all(alloc, graph)?));
    }
    let mut row = there(alloc, graph)?;
    for _ in 1..length {
        row = marked_or_calling(alloc, graph, &row, &[])?;
    }
    Ok(Listed::from_vec(row))
}

/// For each node, whether it is marked or leads to a marked one by at most `calls` calls. It takes `calls` rounds over
/// all calls. The marks are by number, and `false` past their end; a number past the end of the graph may be marked.
pub fn touching(
    alloc: Global,
    graph: &Graph,
    marked: &[bool],
    calls: u32,
) -> Result<Listed<bool>, AllocError>
    ensures { IfOk result (λ row. row ≡ for_each graph.now (touches graph.now marked.now calls)) }
{
    let mut row = marks(alloc, graph, marked)?;
    for _ in 0..calls {
        row = marked_or_calling(alloc, graph, &row, marked)?;
    }
    Ok(Listed::from_vec(row))
}

fn all(alloc: Global, graph: &Graph) -> Result<Vec<bool>, AllocError>
    ensures { IfOk result (λ row. row.items ≡ for_each graph.now (λ n. true)) }
{
    let mut row = Vec::new(alloc);
    for _ in 0..graph.len() {
        row.push(true)?;
    }
    Ok(row)
}

fn there(alloc: Global, graph: &Graph) -> Result<Vec<bool>, AllocError>
    ensures { IfOk result (λ row. row.items ≡ for_each graph.now (is_there graph.now)) }
{
    let mut row = Vec::new(alloc);
    for node in graph.slice() {
        row.push(node.there)?;
    }
    Ok(row)
}

fn marks(alloc: Global, graph: &Graph, marked: &[bool]) -> Result<Vec<bool>, AllocError>
    ensures { IfOk result (λ row. row.items ≡ for_each graph.now (is_in marked.now)) }
{
    let mut row = Vec::new(alloc);
    for number in 0..graph.len() {
        row.push(is_in(marked, number))?;
    }
    Ok(row)
}

/// For each node, whether it is marked, or calls one that is marked or in the row.
fn marked_or_calling(
    alloc: Global,
    graph: &Graph,
    row: &[bool],
    marked: &[bool],
) -> Result<Vec<bool>, AllocError>
    ensures { IfOk result (λ next. next.items ≡ for_each graph.now (is_marked_or_calls graph.now row.now marked.now)) }
{
    let mut next = Vec::new(alloc);
    for (number, node) in graph.slice().iter().enumerate() {
        next.push(is_marked_or_calls(node, number, row, marked))?;
    }
    Ok(next)
}

fn is_marked_or_calls(node: &Node, number: usize, row: &[bool], marked: &[bool]) -> bool
    ensures { result ≡ is_in marked.now number || calls_into row.now marked.now (calls_of node.now) }
{
    is_in(marked, number) || calls_into(node, row, marked)
}

fn calls_into(node: &Node, row: &[bool], marked: &[bool]) -> bool
    ensures { result ≡ calls_into row.now marked.now (calls_of node.now) }
{
    calls_of(node).iter().any(|call| is_in(row, *call as usize) || is_in(marked, *call as usize))
}
