ghost use Rattle.std.specs.Prelude.{◌≡◌, [], IsSome};
ghost use Rattle.std.specs.FinMap as map;

use asm_domain::{Domain, Value};
use asm_list::{Listed, Name};
use asm_sign::{DeclaredDomain, Domains, FunKind, Function, Functions, Signature};
use asm_state::{MapStore, Store};
use asm_update::Updates;
use std::alloc::{AllocError, Global};
use std::test::Fail;

fn set_of(alloc: Global, pairs: &[(u32, Value)]) -> Result<Updates, AllocError> {
    let mut set = Updates::new(alloc);
    for pair in pairs {
        set.add(pair.0, pair.1)?;
    }
    Ok(set)
}

const YES: Value = Value::Bool(true);

const NO: Value = Value::Bool(false);

// Two sets, their union, and the first overridden by the second.
#[test]
fn unions_and_overrides(rt: HostRuntime) -> Result<(), Fail> {
    for (earlier, later, union, overridden) in [
        (
            [(1, YES), (0, YES)],
            [(1, YES), (1, YES)],
            &[(0, YES), (1, YES)][..],
            &[(0, YES), (1, YES)][..],
        ),
        (
            [(1, YES), (0, YES)],
            [(1, NO), (1, NO)],
            &[(0, YES), (1, NO), (1, YES)][..],
            &[(0, YES), (1, NO)][..],
        ),
        (
            [(0, YES), (0, NO)],
            [(2, Value::Undef), (0, NO)],
            &[(0, NO), (0, YES), (2, Value::Undef)][..],
            &[(0, NO), (2, Value::Undef)][..],
        ),
        (
            [(0, Value::Int(-1)), (0, Value::Int(3))],
            [(0, Value::Elem(4, 1)), (0, Value::Elem(4, 0))],
            &[
                (0, Value::Int(-1)),
                (0, Value::Int(3)),
                (0, Value::Elem(4, 0)),
                (0, Value::Elem(4, 1)),
            ][..],
            &[(0, Value::Elem(4, 0)), (0, Value::Elem(4, 1))][..],
        ),
    ] {
        let second = set_of(rt.alloc(), &later)?;
        let mut both = set_of(rt.alloc(), &earlier)?;
        both.union(&second)?;
        assert_eq!(rt; both.pairs(), union);
        let mut sequence = set_of(rt.alloc(), &earlier)?;
        sequence.override_by(&second)?;
        assert_eq!(rt; sequence.pairs(), overridden);
    }
    Ok(())
}

fn controlled(alloc: Global) -> Function
    ensures { (result.domains ≡ []) × (result.codomain ≡ 0) }
{
    Function {
        name: Name::new(alloc),
        kind: FunKind::Controlled,
        domains: Listed::new(alloc),
        codomain: 0,
    }
}

// Two controlled locations that have truth values.
fn truths(alloc: Global) -> Result<Signature, AllocError> {
    let domain = Domain::boolean();
    let domains = Domains::from_vec(vec![in alloc; DeclaredDomain { name: None, domain }]?);
    let functions = Functions::from_vec(vec![in alloc; controlled(alloc), controlled(alloc)]?);
    Signature::new(alloc, domains, functions)
}

#[test]
fn a_clash_has_the_two_least_values(rt: HostRuntime) -> Result<(), Fail> {
    let signature = truths(rt.alloc())?;
    for (updates, clash) in [
        ([(0, YES), (1, NO), (0, YES)], None),
        ([(1, YES), (1, NO), (0, YES)], Some((1, NO, YES))),
        (
            [(1, YES), (1, NO), (1, Value::Undef)],
            Some((1, Value::Undef, NO)),
        ),
        (
            [(0, YES), (1, NO), (0, Value::Undef)],
            Some((0, Value::Undef, YES)),
        ),
    ] {
        let set = set_of(rt.alloc(), &updates)?;
        assert_eq!(rt; set.clash(&signature), clash);
    }
    Ok(())
}

// Puts one update in a store, and gives what its slot and another then have.
fn after_update<S: Store>(
    alloc: Global,
    store: &mut S,
    slot: u32,
    value: Value,
    other: u32,
) -> Result<(Value, Value), AllocError>
    requires slot { IsSome (map.get (S.state store.old) slot) }
    requires other { IsSome (map.get (S.state store.old) other) }
{
    let mut set = Updates::new(alloc);
    set.add(slot, value)?;
    set.apply(store);
    Ok((store.get(slot), store.get(other)))
}

#[test]
fn an_update_changes_its_slot(rt: HostRuntime) -> Result<(), Fail> {
    let signature = truths(rt.alloc())?;
    let mut store = MapStore::new(rt.alloc(), &signature)?;
    assert!(rt; 1 < signature.slots());
    assert!(rt; signature.kept(0));
    assert!(rt; signature.kept(1));
    assert_eq!(rt;
        after_update(rt.alloc(), &mut store, 1, NO, 0)?,
        (NO, Value::Undef)
    );
    Ok(())
}
