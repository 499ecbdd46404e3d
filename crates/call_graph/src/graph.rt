ghost use Rattle.std.specs.Prelude.{◌≡◌};
ghost use Rattle.call_graph.specs.Calls.{calls_at, calls_of, is_in};

use asm_list::Listed;

/// What is there under a number, and the numbers that it calls, in any order and as often as it calls them.
///
/// A number past the end of the graph may stand among them: nothing is there under it.
#[derive(Drop, Debug)]
pub struct Node {
    /// Whether anything is there: the calls of a node that isn't there don't count.
    pub there: bool,
    pub calls: Listed<u32>,
}

/// The nodes, numbered from 0 by their places.
pub type Graph = Listed<Node>;

/// The numbers that a node calls.
pub fn calls_at(graph: &Graph, number: usize) -> &[u32]
    ensures { result.now ≡ calls_at graph.now number }
{
    match graph.item(number) {
        Some(node) => calls_of(node),
        None => &[],
    }
}

/// The numbers that a node calls.
pub fn calls_of(node: &Node) -> &[u32]
    ensures { result.now ≡ calls_of node.now }
{
    if node.there { node.calls.slice() } else { &[] }
}

/// Whether a row has `true` at a number.
pub fn is_in(row: &[bool], number: usize) -> bool
    ensures { result ≡ is_in row.now number }
{
    match row.get(number) {
        Some(value) => *value,
        None => false,
    }
}
