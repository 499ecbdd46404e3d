use asm_list::Listed;
use call_graph::{Graph, Node, calls_suffice, chains, leads_to_itself, touching};
use std::alloc::{AllocError, Global};
use std::test::Fail;

fn add(alloc: Global, graph: &mut Graph, there: bool, calls: &[u32]) -> Result<(), AllocError> {
    let calls = Listed::from_slice(alloc, calls)?;
    graph.push(Node { there, calls })
}

/// 0 and 1 call one another, 2 calls itself, 3 calls 0 and a number past the end, 4 isn't there, and 5 calls 4.
fn six(alloc: Global) -> Result<Graph, AllocError> {
    let mut graph = Graph::new(alloc);
    add(alloc, &mut graph, true, &[1])?;
    add(alloc, &mut graph, true, &[4, 0])?;
    add(alloc, &mut graph, true, &[2])?;
    add(alloc, &mut graph, true, &[0, 9])?;
    add(alloc, &mut graph, false, &[4, 5])?;
    add(alloc, &mut graph, true, &[4])?;
    Ok(graph)
}

/// Nodes that are there, each but the first of which calls the one before it twice.
fn doubled(alloc: Global, nodes: u32) -> Result<Graph, AllocError> {
    let mut graph = Graph::new(alloc);
    for number in 0..nodes {
        if number == 0 {
            add(alloc, &mut graph, true, &[])?;
        } else {
            add(alloc, &mut graph, true, &[number - 1, number - 1])?;
        }
    }
    Ok(graph)
}

fn chains_are(
    alloc: Global,
    graph: &Graph,
    length: u32,
    expected: &[bool],
) -> Result<bool, AllocError> {
    Ok(chains(alloc, graph, length)?.slice() == expected)
}

/// How many of so many doubled nodes begin a chain of this length.
fn count_chains(alloc: Global, nodes: u32, length: u32) -> Result<usize, AllocError> {
    let graph = doubled(alloc, nodes)?;
    let found = chains(alloc, &graph, length)?;
    Ok(found.slice().iter().filter(|begins| **begins).count())
}

/// Whether the marked nodes are touched by so many calls from the number.
fn is_touched(
    alloc: Global,
    graph: &Graph,
    marked: &[bool],
    calls: u32,
    number: usize,
) -> Result<bool, AllocError> {
    Ok(touching(alloc, graph, marked, calls)?.item(number).copied() == Some(true))
}

#[test]
fn cycles(rt: HostRuntime) -> Result<(), Fail> {
    let graph = six(rt.alloc())?;
    for (node, expected) in [true, true, true, false, false, false, false]
        .iter()
        .enumerate()
    {
        assert_eq!(rt; leads_to_itself(rt.alloc(), &graph, node)?, *expected);
    }
    Ok(())
}

#[test]
fn chains_in_cycles(rt: HostRuntime) -> Result<(), Fail> {
    let graph = six(rt.alloc())?;
    for (length, last) in [
        (0, [true, true]),
        (1, [false, true]),
        (2, [false, false]),
        (33, [false, false]),
    ] {
        let expected = [true, true, true, true, last[0], last[1]];
        assert!(rt; chains_are(rt.alloc(), &graph, length, &expected)?);
    }
    Ok(())
}

#[test]
fn marks_in_cycles(rt: HostRuntime) -> Result<(), Fail> {
    let graph = six(rt.alloc())?;
    let marked = [false, false, false, false, true];
    for (number, calls) in [(0, 2), (1, 1), (3, 3), (4, 0), (5, 1)] {
        assert!(rt; is_touched(rt.alloc(), &graph, &marked, calls, number)?);
        assert!(rt; calls == 0 || !is_touched(rt.alloc(), &graph, &marked, calls - 1, number)?);
    }
    assert!(rt; !is_touched(rt.alloc(), &graph, &marked, 32, 2)?);
    Ok(())
}

#[test]
fn long_chains(rt: HostRuntime) -> Result<(), Fail> {
    for (nodes, length, count) in [(33, 33, 1), (33, 34, 0), (34, 33, 2), (34, 34, 1)] {
        assert_eq!(rt; count_chains(rt.alloc(), nodes, length)?, count);
    }
    Ok(())
}

/// 2^30 ways lead from the last to the first.
#[test]
fn many_ways(rt: HostRuntime) -> Result<(), Fail> {
    let graph = doubled(rt.alloc(), 31)?;
    calls_suffice(&graph, &[true], 31);
    assert!(rt; !leads_to_itself(rt.alloc(), &graph, 30)?);
    assert!(rt; !is_touched(rt.alloc(), &graph, &[true], 29, 30)?);
    assert!(rt; is_touched(rt.alloc(), &graph, &[true], 30, 30)?);
    Ok(())
}
