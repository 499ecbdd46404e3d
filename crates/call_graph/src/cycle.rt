//! Whether a node leads to itself: a walk over what it leads to, in which each node's calls are read once.

ghost use Rattle.std.specs.Prelude.{◌≡◌, ℕ, false, true, length, replicate, IfOk, slice_index_or};
ghost use Rattle.call_graph.specs.Calls.{leads};

use crate::graph::{Graph, calls_at};
use std::alloc::{AllocError, Global};

/// Whether a node calls itself, by itself or through others. Its calls and those of what it leads to are read once.
pub fn leads_to_itself(alloc: Global, graph: &Graph, node: usize) -> Result<bool, AllocError>
    ensures value { IfOk result (λ found. found ≡ leads graph.now (length graph.now) node node) }
    ensures never { IfOk result (λ found. found ≡ false → (k : ℕ) → leads graph.now k node node ≡ false) }
{
    let mut visited = unvisited(alloc, graph)?;
    let mut ahead = Vec::from_slice(alloc, calls_at(graph, node))?;
    while let Some(next) = ahead.pop() {
        let next = next as usize;
        if next == node {
            return Ok(true);
        }
        if is_done(&visited, next) {
            continue;
        }
        visited[next] = true;
        ahead.extend_from_slice(calls_at(graph, next))?;
    }
    Ok(false)
}

fn unvisited(alloc: Global, graph: &Graph) -> Result<Vec<bool>, AllocError>
    ensures { IfOk result (λ visited. visited.items ≡ replicate (length graph.now) false) }
{
    vec![in alloc; false; graph.len()]
}

/// Whether nothing is left to do under a number: the node was visited, or there is none.
fn is_done(visited: &[bool], number: usize) -> bool
    ensures { result ≡ slice_index_or visited.now number true }
{
    match visited.get(number) {
        Some(was_visited) => *was_visited,
        None => true,
    }
}
