use asm_domain::{Domain, DomainError, Interval, Names, RangeTooWide, Value};
use asm_list::Name;
use std::alloc::{AllocError, Global};
use std::test::Fail;

const LIMIT: i64 = 1 << 62;

fn element(domain: &Domain, rank: u32) -> Option<Value> {
    if rank < domain.size() {
        Some(domain.element(rank))
    } else {
        None
    }
}

fn numbered(alloc: Global, count: u32) -> Result<Names, AllocError> {
    let mut names = Names::new(alloc);
    for number in 0..count {
        let text = format!(in alloc; "n{number}")?;
        names.push(Name::of(alloc, &text)?)?;
    }
    Ok(names)
}

fn size_of_range(low: i64, high: i64) -> Result<u32, DomainError> {
    let domain = Domain::range(low, high)?;
    Ok(domain.size())
}

#[test]
fn ranges_have_sizes(rt: HostRuntime) {
    for (low, high, want) in [
        (0, 255, Ok(256)),
        (0, 256, Err(DomainError::TooLarge)),
        (5, 5, Ok(1)),
        (1, 0, Err(DomainError::Empty)),
        (i64::MIN, i64::MAX, Err(DomainError::TooLarge)),
        (i64::MAX, i64::MIN, Err(DomainError::Empty)),
        (i64::MAX, i64::MAX, Ok(1)),
    ] {
        assert_eq!(rt; size_of_range(low, high), want, "from {low} to {high}");
    }
}

#[test]
fn a_range_has_its_numbers(rt: HostRuntime) -> Result<(), Fail> {
    let range = Domain::range(-1, 2)?;
    assert_eq!(rt; element(&range, 3), Some(Value::Int(2)));
    assert_eq!(rt; range.rank(&Value::Int(-1)), Some(0));
    assert_eq!(rt; range.rank(&Value::Int(3)), None);
    assert_eq!(rt; range.rank(&Value::Bool(true)), None);
    assert!(rt; range.names().is_none());
    Ok(())
}

// The numbers from 0 down, so many of them.
fn numbers_down(alloc: Global, count: u32) -> Result<Vec<i64>, AllocError> {
    let mut numbers = Vec::new(alloc);
    for number in 0..count {
        numbers.push(-i64::from(number))?;
    }
    Ok(numbers)
}

fn domain_down(alloc: Global, count: u32) -> Result<Domain, DomainError> {
    let numbers = numbers_down(alloc, count)?;
    Domain::listed(alloc, &numbers)
}

#[test]
fn a_list_has_its_numbers(rt: HostRuntime) -> Result<(), Fail> {
    let listed = domain_down(rt.alloc(), 256)?;
    assert_eq!(rt; listed.size(), 256);
    assert_eq!(rt; element(&listed, 255), Some(Value::Int(-255)));
    assert_eq!(rt; listed.rank(&Value::Int(-7)), Some(7));
    Ok(())
}

#[test]
fn bad_lists_are_refused(rt: HostRuntime) {
    let refused = domain_down(rt.alloc(), 257).map(|domain| domain.size());
    assert_eq!(rt; refused, Err(DomainError::TooLarge));
    for (numbers, want) in [
        ([].as_slice(), DomainError::Empty),
        ([3, 1, 2, 1, 3].as_slice(), DomainError::Repeated(3)),
    ] {
        let refused = Domain::listed(rt.alloc(), numbers).map(|domain| domain.size());
        assert_eq!(rt; refused, Err(want));
    }
}

#[test]
fn truth_values_are_ranked(rt: HostRuntime) {
    let truths = Domain::boolean();
    assert_eq!(rt; truths.size(), 2);
    assert_eq!(rt; element(&truths, 1), Some(Value::Bool(true)));
    assert_eq!(rt; truths.rank(&Value::Bool(false)), Some(0));
    assert_eq!(rt; truths.rank(&Value::Undef), None);
}

fn named(alloc: Global, count: u32) -> Result<Domain, DomainError> {
    let names = numbered(alloc, count)?;
    Domain::named(4, names)
}

#[test]
fn names_are_ranked(rt: HostRuntime) -> Result<(), Fail> {
    let named = named(rt.alloc(), 256)?;
    assert_eq!(rt; named.size(), 256);
    assert_eq!(rt; element(&named, 9), Some(Value::Elem(4, 9)));
    assert_eq!(rt; named.rank(&Value::Elem(4, 255)), Some(255));
    assert_eq!(rt; named.rank(&Value::Elem(4, 256)), None);
    assert_eq!(rt; named.rank(&Value::Elem(5, 0)), None);
    let names = named.names().ok_or("names")?;
    assert_eq!(rt; names.item(2).ok_or("name")?.text(), "n2");
    Ok(())
}

// A domain of three names and the second of them.
fn repeated(alloc: Global) -> Result<Domain, DomainError> {
    let mut names = numbered(alloc, 3)?;
    names.push(Name::of(alloc, "n1")?)?;
    Domain::named(4, names)
}

#[test]
fn bad_names_are_refused(rt: HostRuntime) {
    for (count, want) in [(257, DomainError::TooLarge), (0, DomainError::Empty)] {
        let refused = named(rt.alloc(), count).map(|domain| domain.size());
        assert_eq!(rt; refused, Err(want));
    }
    let refused = repeated(rt.alloc()).map(|domain| domain.size());
    assert_eq!(rt; refused, Err(DomainError::Repeated(3)));
}

#[test]
fn intervals(rt: HostRuntime) {
    let a = Interval { low: -2, high: 3 };
    let b = Interval { low: -5, high: 4 };
    let one = Interval { low: 1, high: 1 };
    let most = Interval {
        low: 0,
        high: LIMIT,
    };
    let over = Interval {
        low: -LIMIT - 1,
        high: 0,
    };
    for (row, (interval, want)) in [
        (a.sum(b), Some((-7, 7))),
        (a.difference(b), Some((-6, 8))),
        (a.product(b), Some((-15, 12))),
        (a.quotient(b), Some((-3, 3))),
        (a.rest(b), Some((-3, 3))),
        (a.least(b), Some((-5, 3))),
        (a.greatest(b), Some((-2, 4))),
        (a.hull(b), Some((-5, 4))),
        (a.negated(), Some((-3, 2))),
        (a.absolute(), Some((0, 3))),
        (most.difference(most), Some((-LIMIT, LIMIT))),
        (most.product(one), Some((0, LIMIT))),
        (most.negated(), Some((-LIMIT, 0))),
        (over.sum(one), Some((-LIMIT, 1))),
        (over.greatest(one), Some((1, 1))),
        (most.sum(one), None),
        (one.difference(over), None),
        (over.product(one), None),
        (over.quotient(one), None),
        (over.rest(one), None),
        (over.least(one), None),
        (over.hull(one), None),
        (over.negated(), None),
        (over.absolute(), None),
    ]
    .into_iter()
    .enumerate()
    {
        let bounds = match interval {
            Ok(interval) => Some((interval.low, interval.high)),
            Err(RangeTooWide) => None,
        };
        assert_eq!(rt; bounds, want, "row {row}");
    }
}
