use crate::{Assignment, Clause, Formula, Lit, Trail, copied, makes_true, satisfies, variables};
use std::alloc::Global;
use std::test::Fail;

/// Three clauses over three variables: `a -c`, `-a b`, `c`.
fn three(alloc: Global) -> Result<Formula, Fail> {
    let a = Lit::new(0, true);
    let b = Lit::new(1, true);
    let c = Lit::new(2, true);
    let mut formula = Formula::new(alloc);
    formula.push(Clause::from_slice(alloc, &[a, c.negated()])?)?;
    formula.push(Clause::from_slice(alloc, &[a.negated(), b])?)?;
    formula.push(Clause::from_slice(alloc, &[c])?)?;
    Ok(formula)
}

#[test]
fn satisfies_by_all_clauses(rt: HostRuntime) -> Result<(), Fail> {
    let formula = copied(rt.alloc(), &three(rt.alloc())?)?;
    assert_eq!(rt; variables(&formula), 3);
    for (values, expected) in [
        ([true, true, true], true),
        ([false, true, true], false),
        ([true, false, true], false),
        ([true, true, false], false),
    ] {
        let assignment = Assignment::from_slice(rt.alloc(), &values)?;
        assert_eq!(rt; assignment.len(), 3);
        assert_eq!(rt; makes_true(&assignment, Lit::new(2, false)), !values[2]);
        assert_eq!(rt; satisfies(&formula, &assignment), expected);
    }
    Ok(())
}

#[test]
fn trail_takes_back(rt: HostRuntime) -> Result<(), Fail> {
    let mut trail = Trail::new(rt.alloc());
    trail.grow(2)?;
    let a = Lit::new(0, true);
    trail.set(a)?;
    assert!(rt; trail.is_true(a) && trail.is_false(a.negated()));
    trail.undo(0);
    assert!(rt; !trail.is_true(a) && trail.lits().is_empty());
    Ok(())
}
