use asm_domain::Value;
use asm_node::{Choices, Env, Input, Inputs, Path, Pool, RuleKind, Step, TermKind, Values, close};
use asm_source::Place;
use std::test::Fail;

#[test]
fn calls_with_memory(rt: HostRuntime) -> Result<(), Fail> {
    let mut input = Input::new(rt.alloc());
    input.set(3, Value::Int(1))?;
    assert_eq!(rt; input.get(3).copied(), Some(Value::Int(1)));
    let mut pool = Pool::new(rt.alloc());
    let term = pool.term(TermKind::Const(Value::Int(1)))?;
    let rule = pool.rule(RuleKind::Skip(Place { file: 0, at: 70 }))?;
    assert_eq!(rt; (term.id, rule.id), (0, 0));
    let caller = Env::new(rt.alloc()).value(4, Value::Int(3))?;
    assert!(rt; caller.node(5, &term)?.actual(6, 0, &term, &caller).is_ok());
    let read = pool.term(TermKind::Var(4))?;
    assert!(rt;
        matches!(
            &close(&mut pool, &read, &caller)?.kind,
            TermKind::Const(Value::Int(3))
        )
    );
    let mut inputs = Inputs::new(rt.alloc());
    inputs.push(input)?;
    assert_eq!(rt; inputs.len(), 1);
    Ok(())
}

#[test]
fn choices_with_memory(rt: HostRuntime) -> Result<(), Fail> {
    let mut choices = Choices::new(rt.alloc());
    let tuple = Values::from_slice(rt.alloc(), &[Value::Int(1)])?;
    let mut path = Path::new(rt.alloc());
    path.push(Step::Part(2))?;
    choices.set(path, tuple)?;
    let mut again = Path::new(rt.alloc());
    again.push(Step::Part(2))?;
    assert_eq!(rt; choices.get(&again).map(|values| values.len()), Some(1));
    let other = Path::new(rt.alloc());
    assert!(rt; choices.get(&other).is_none());
    Ok(())
}
