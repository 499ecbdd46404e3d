ghost use Rattle.std.specs.Prelude.{◌≡◌, [], IfOk, IsSome, Some};
ghost use Rattle.std.specs.FinMap as map;

use asm_domain::{Domain, Value};
use asm_list::{Listed, Name};
use asm_sign::{DeclaredDomain, Domains, FunKind, Function, Functions, Signature};
use asm_state::{MapStore, Store};
use std::alloc::{AllocError, Global};
use std::test::Fail;

fn constant(alloc: Global, kind: FunKind) -> Function
    ensures { (result.kind ≡ kind) × (result.domains ≡ []) × (result.codomain ≡ 0) }
{
    Function {
        name: Name::new(alloc),
        kind,
        domains: Listed::new(alloc),
        codomain: 0,
    }
}

// Truth values alone, and a function without arguments of each of these kinds. The derived one has no slot, and the
// monitored one isn't kept.
fn truths(alloc: Global) -> Result<Signature, AllocError> {
    let domain = Domain::boolean();
    let domains = Domains::from_vec(vec![in alloc; DeclaredDomain { name: None, domain }]?);
    let shared = constant(alloc, FunKind::Shared);
    let derived = constant(alloc, FunKind::Derived);
    let monitored = constant(alloc, FunKind::Monitored);
    let controlled = constant(alloc, FunKind::Controlled);
    let functions = Functions::from_vec(vec![in alloc; shared, derived, monitored, controlled]?);
    Signature::new(alloc, domains, functions)
}

// Puts a value at a slot of a copy, and gives what the copy and the store then have at another slot.
fn after_put<S: Store>(
    store: &S,
    slot: u32,
    value: Value,
    other: u32,
) -> Result<(Value, Value), AllocError>
    requires slot { IsSome (map.get (S.state store.now) slot) }
    requires other { IsSome (map.get (S.state store.now) other) }
    ensures copy { IfOk result (λ values. map.get (map.insert (S.state store.now) slot value) other ≡ Some values.0) }
    ensures same { IfOk result (λ values. map.get (S.state store.now) other ≡ Some values.1) }
{
    let mut copy = store.copy()?;
    copy.put(slot, value);
    Ok((copy.get(other), store.get(other)))
}

#[test]
fn a_put_changes_one_slot(rt: HostRuntime) -> Result<(), Fail> {
    let signature = truths(rt.alloc())?;
    let store = MapStore::new(rt.alloc(), &signature)?;
    let yes = Value::Bool(true);
    for (slot, other, want) in [
        (0, 0, yes),
        (2, 2, yes),
        (0, 2, Value::Undef),
        (2, 0, Value::Undef),
    ] {
        assert!(rt; slot < signature.slots());
        assert!(rt; signature.kept(slot));
        assert!(rt; other < signature.slots());
        assert!(rt; signature.kept(other));
        assert_eq!(rt;
            after_put(&store, slot, yes, other)?,
            (want, Value::Undef),
            "{slot} {other}"
        );
    }
    Ok(())
}
