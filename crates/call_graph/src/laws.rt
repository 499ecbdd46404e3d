ghost use Rattle.std.specs.Prelude.{◌≡◌, ℕ, ◌+◌, ◌≤◌, false};
ghost use Rattle.call_graph.specs.Calls.{HasNoChain, touches, leads};

use crate::graph::Graph;

/// Where no chain has more than `calls` nodes, further calls touch nothing more, and no node leads to itself.
pub fn calls_suffice(graph: &Graph, marked: &[bool], calls: u32)
    ensures same { HasNoChain graph.now (calls + 1) → (k n : ℕ) → calls ≤ k → touches graph.now marked.now k n ≡ touches graph.now marked.now calls n }
    ensures no_cycle { HasNoChain graph.now (calls + 1) → (k n : ℕ) → leads graph.now k n n ≡ false }
{}
