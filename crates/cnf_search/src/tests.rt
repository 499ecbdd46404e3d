use crate::{Found, search};
use cnf_gate::{Builder, Circuit};
use std::alloc::Global;
use std::test::Fail;

/// A group of three, the conjunction of its first two literals, and maybe the demand that it holds.
fn two_of_three(alloc: Global, demand: bool) -> Result<Circuit, Fail> {
    let mut builder = Builder::new(alloc);
    let group = builder.group(3)?;
    let both = builder.and(&group.slice()[..2])?;
    if demand {
        builder.require(both)?;
    }
    Ok(builder.finish())
}

#[test]
fn refutes_two_of_one_group(rt: HostRuntime) -> Result<(), Fail> {
    let circuit = two_of_three(rt.alloc(), true)?;
    assert!(rt; matches!(search(rt.alloc(), &circuit, 3)?, Found::Refuted(_)));
    Ok(())
}

#[test]
fn solves_without_the_demand(rt: HostRuntime) -> Result<(), Fail> {
    let circuit = two_of_three(rt.alloc(), false)?;
    assert!(rt; matches!(search(rt.alloc(), &circuit, 3)?, Found::Solved(_)));
    Ok(())
}

#[test]
fn spends_a_budget_of_none(rt: HostRuntime) -> Result<(), Fail> {
    let circuit = two_of_three(rt.alloc(), true)?;
    assert!(rt; matches!(search(rt.alloc(), &circuit, 0)?, Found::Spent(_)));
    Ok(())
}

#[test]
fn solves_64000_groups(rt: HostRuntime) -> Result<(), Fail> {
    let mut builder = Builder::new(rt.alloc());
    for _ in 0..64000 {
        builder.group(2)?;
    }
    let circuit = builder.finish();
    assert!(rt; matches!(search(rt.alloc(), &circuit, 0)?, Found::Solved(_)));
    Ok(())
}
