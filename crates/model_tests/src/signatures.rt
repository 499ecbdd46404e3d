ghost use Rattle.std.specs.Prelude.{◌≡◌, IfOk};

use asm_domain::{Domain, Value};
use asm_list::{Listed, Name};
use asm_sign::{DeclaredDomain, Domains, FunKind, Function, Functions, Signature};
use std::alloc::{AllocError, Global};
use std::test::Fail;

fn function(alloc: Global, kind: FunKind, domains: &[u32]) -> Result<Function, AllocError>
    ensures { IfOk result (λ f. (f.kind ≡ kind) × (f.domains ≡ domains.now) × (f.codomain ≡ 0)) }
{
    Ok(Function {
        name: Name::new(alloc),
        kind,
        domains: Listed::from_slice(alloc, domains)?,
        codomain: 0,
    })
}

/// Truth values alone: a controlled function of two arguments, a static one, and a monitored one of one argument.
fn truths(alloc: Global) -> Result<Signature, AllocError> {
    let domain = Domain::boolean();
    let domains = Domains::from_vec(vec![in alloc; DeclaredDomain { name: None, domain }]?);
    let two = function(alloc, FunKind::Controlled, &[0, 0])?;
    let none = function(alloc, FunKind::Static, &[0])?;
    let one = function(alloc, FunKind::Monitored, &[0])?;
    let functions = Functions::from_vec(vec![in alloc; two, none, one]?);
    Signature::new(alloc, domains, functions)
}

#[test]
fn slots_of_truths(rt: HostRuntime) -> Result<(), Fail> {
    let signature = truths(rt.alloc())?;
    let no = Value::Bool(false);
    let yes = Value::Bool(true);
    assert_eq!(rt; signature.slots(), 6);
    for (function, args, want) in [
        (0, [no, yes].as_slice(), Some(1)),
        (0, [yes, no].as_slice(), Some(2)),
        (2, [yes].as_slice(), Some(5)),
        (0, [no].as_slice(), None),
        (0, [no, Value::Undef].as_slice(), None),
        (1, [no].as_slice(), None),
        (3, [no].as_slice(), None),
    ] {
        assert_eq!(rt;
            signature.slot_of(function, args),
            want,
            "function {function}"
        );
    }
    for (slot, function, args, kept) in [
        (2, 0, [yes, no].as_slice(), true),
        (4, 2, [no].as_slice(), false),
    ] {
        assert!(rt; slot < signature.slots());
        let (number, found) = signature.location(slot);
        assert_eq!(rt; number, function);
        assert_eq!(rt; found.as_slice(), args);
        assert_eq!(rt; signature.kept(slot), kept);
        assert_eq!(rt; signature.codomain(slot).size(), 2);
    }
    assert_eq!(rt; signature.domains().len(), 1);
    assert_eq!(rt; signature.functions().len(), 3);
    Ok(())
}
