use crate::{Bad, Checker};
use cnf_base::{Clause, Formula, Lit};
use std::alloc::{AllocError, Global};
use std::test::Fail;

/// All four clauses over two variables: `a b`, `a -b`, `-a b`, `-a -b`.
fn square(alloc: Global) -> Result<Formula, AllocError> {
    let a = Lit::new(0, true);
    let b = Lit::new(1, true);
    let mut formula = Formula::new(alloc);
    formula.push(Clause::from_slice(alloc, &[a, b])?)?;
    formula.push(Clause::from_slice(alloc, &[a, b.negated()])?)?;
    formula.push(Clause::from_slice(alloc, &[a.negated(), b])?)?;
    formula.push(Clause::from_slice(alloc, &[a.negated(), b.negated()])?)?;
    Ok(formula)
}

#[test]
fn refutes_the_square(rt: HostRuntime) -> Result<(), Fail> {
    let alloc = rt.alloc();
    let formula = square(alloc)?;
    let unit = Clause::from_slice(alloc, &[Lit::new(0, true)])?;
    let mut checker = Checker::new(alloc, &formula)?;
    assert!(rt; checker.add(&unit, &[0, 1]).is_ok());
    assert!(rt; !checker.finished());
    let Err(mut checker) = checker.refutation() else {
        return Err(Fail::from("a refutation that does not end"));
    };
    assert!(rt; checker.add(&Clause::new(alloc), &[4, 2, 3]).is_ok());
    assert!(rt; checker.finished());
    let Ok(refutation) = checker.refutation() else {
        return Err(Fail::from("no refutation"));
    };
    assert_eq!(rt; refutation.lines(), 2);
    assert_eq!(rt; refutation.derivation().len(), 2);
    Ok(())
}

#[test]
fn says_why_a_line_is_refused(rt: HostRuntime) -> Result<(), Fail> {
    let alloc = rt.alloc();
    let formula = square(alloc)?;
    let a = Lit::new(0, true);
    let unit = Clause::from_slice(alloc, &[a])?;
    let both = Clause::from_slice(alloc, &[a, a.negated()])?;
    let mut checker = Checker::new(alloc, &formula)?;
    assert!(rt; matches!(checker.add(&unit, &[2, 1]), Err(Bad::NotUnit(0))));
    assert!(rt; matches!(checker.add(&unit, &[0]), Err(Bad::NoConflict)));
    assert!(rt; matches!(checker.add(&unit, &[]), Err(Bad::NoConflict)));
    assert!(rt; matches!(checker.add(&unit, &[9]), Err(Bad::NoSuchHint(0))));
    assert!(rt; matches!(checker.add(&both, &[0]), Err(Bad::Tautology)));
    assert!(rt; checker.add(&unit, &[0, 1]).is_ok());
    let idle = Checker::new(alloc, &formula)?;
    assert_eq!(rt; idle.effort().lines(), 0);
    Ok(())
}
