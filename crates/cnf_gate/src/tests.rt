use crate::{Builder, GateError};
use cnf_base::{Assignment, satisfies, variables};
use std::test::Fail;

/// Of a group of three: not both of the first two, and the disjunction of the last two. Its literals are the variables
/// 0, 1 and 3, the conjunction is 5 and the disjunction 6.
#[test]
fn gates_mean_their_formulas(rt: HostRuntime) -> Result<(), Fail> {
    let mut builder = Builder::new(rt.alloc());
    let group = builder.group(3)?;
    let both = builder.and(&group.slice()[..2])?;
    let either = builder.or(&group.slice()[1..])?;
    builder.require(Builder::not(both))?;
    assert_eq!(rt; (both.var, either.var), (5, 6));
    let circuit = builder.finish();
    assert_eq!(rt; circuit.groups().len(), 1);
    assert_eq!(rt; circuit.formula().len(), 16);
    for (values, expected) in [
        ([true, false, true, false, true, false, false], true),
        ([false, true, true, false, true, false, true], true),
        ([false, false, false, true, true, false, true], true),
        ([false, false, false, true, true, false, false], false),
        ([true, true, true, false, true, true, true], false),
        ([false, false, false, false, false, false, false], false),
    ] {
        let assignment = Assignment::from_slice(rt.alloc(), &values)?;
        assert!(rt; variables(circuit.formula()) as usize <= assignment.len());
        assert_eq!(rt; satisfies(circuit.formula(), &assignment), expected);
    }
    Ok(())
}

#[test]
fn refuses_past_the_limits(rt: HostRuntime) -> Result<(), Fail> {
    let mut builder = Builder::new(rt.alloc());
    assert!(rt; matches!(builder.group(1_000_001), Err(GateError::TooLarge)));
    assert_eq!(rt; builder.finish().formula().len(), 0);
    Ok(())
}
