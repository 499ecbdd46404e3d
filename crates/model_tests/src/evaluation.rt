ghost use Rattle.std.specs.Prelude.{◌≡◌, [], ◌∷◌, IfOk, None, Some, pos};
ghost use Rattle.asm_domain.specs.Universe.{Numbers, Truths, numbers_between};
ghost use Rattle.asm_node.specs.declared.rule.RuleKind as form;
ghost use Rattle.asm_node.specs.declared.term.TermKind as kind;
ghost use Rattle.asm_node.specs.Exact.{IsSmall};
ghost use Rattle.asm_node.specs.Model.{machine_of};
ghost use Rattle.asm_node.specs.Pool.{rules_of, terms_of};
ghost use Rattle.asm_node.specs.declared.term_type.TermType.TheVariants.{Integer};
ghost use Rattle.asm_node.specs.Types.{IsConstant};

use asm_domain::{Domain, Value};
use asm_eval::{EvalError, InitError, eval, initial};
use asm_list::{Listed, Name};
use asm_node::{
    Binder, Definition, Env, InitialTerms, Input, Model, Pool, Quantifier, Rule, RuleKind, Term,
    TermKind,
};
use asm_sign::{DeclaredDomain, Domains, FunKind, Function, Functions, Signature};
use asm_source::Place;
use asm_state::{MapStore, Store};
use std::alloc::{AllocError, Global};
use std::rc::Rc;
use std::test::Fail;

const PLACE: Place = Place { file: 0, at: 70 };

fn node(alloc: Global, kind: TermKind) -> Result<Rc<Term>, AllocError>
    ensures { IfOk result (λ t. t.value.kind ≡ kind) }
{
    Ok(Rc::new(alloc, Term { id: 0, kind })?)
}

// A variable for the numbers of the model.
fn binders(alloc: Global) -> Result<Listed<Binder>, AllocError> {
    let binder = Binder {
        variable: 0,
        domain: 1,
    };
    Ok(Listed::from_vec(vec![in alloc; binder]?))
}

// A number, or `undef`.
fn value_of(number: Option<i32>) -> Value
    ensures typed { IsConstant [] result Integer }
    ensures small { IsSmall result }
{
    match number {
        Some(number) => Value::Int(number.into()),
        None => Value::Undef,
    }
}

// The first term of a pool.
fn constant(pool: &mut Pool, value: Value) -> Result<Rc<Term>, AllocError>
    requires { terms_of pool.old ≡ [] }
    ensures node { IfOk result (λ t. t.value ≡ record { id = 0; kind = kind.Const value }) }
    ensures terms { IfOk result (λ t. terms_of pool.new ≡ t.value ∷ []) }
    ensures rules { rules_of pool.new ≡ rules_of pool.old }
{
    pool.term(TermKind::Const(value))
}

// The first rule of a pool.
fn skip(pool: &mut Pool) -> Result<Rc<Rule>, AllocError>
    requires { rules_of pool.old ≡ [] }
    ensures node { IfOk result (λ r. r.value ≡ record { id = 0; kind = form.Skip PLACE }) }
    ensures rules { IfOk result (λ r. rules_of pool.new ≡ r.value ∷ []) }
    ensures terms { terms_of pool.new ≡ terms_of pool.old }
{
    pool.rule(RuleKind::Skip(PLACE))
}

// The truth values and the numbers from 3 to 5, and a controlled function of them without arguments.
fn signature_of(alloc: Global) -> Result<Signature, AllocError>
    ensures { IfOk result (λ s. s ≡ record { domains = record { name = None; domain = Truths } ∷ record { name = Some []; domain = Numbers (numbers_between (pos 3) (pos 5)) } ∷ []; functions = record { name = []; kind = FunKind.Controlled; domains = []; codomain = 1 } ∷ [] }) }
{
    match Domain::range(3, 5) {
        Ok(domain) => one_function(alloc, domain),
        Err(_) => Err(AllocError),
    }
}

// The truth values and a domain, and a controlled function of the domain's elements without arguments.
fn one_function(alloc: Global, domain: Domain) -> Result<Signature, AllocError>
    requires { domain ≡ Numbers (numbers_between (pos 3) (pos 5)) }
    ensures { IfOk result (λ s. s ≡ record { domains = record { name = None; domain = Truths } ∷ record { name = Some []; domain = Numbers (numbers_between (pos 3) (pos 5)) } ∷ []; functions = record { name = []; kind = FunKind.Controlled; domains = []; codomain = 1 } ∷ [] }) }
{
    let truths = DeclaredDomain {
        name: None,
        domain: Domain::boolean(),
    };
    let numbers = DeclaredDomain {
        name: Some(Name::new(alloc)),
        domain,
    };
    let domains = Domains::from_vec(vec![in alloc; truths, numbers]?);
    let function = Function {
        name: Name::new(alloc),
        kind: FunKind::Controlled,
        domains: Listed::new(alloc),
        codomain: 1,
    };
    let functions = Functions::from_vec(vec![in alloc; function]?);
    Signature::new(alloc, domains, functions)
}

// An initial term of the function.
fn starting(alloc: Global, term: Rc<Term>) -> Result<InitialTerms, AllocError>
    ensures { IfOk result (λ ds. ds ≡ record { function = 0; variables = []; term = term } ∷ []) }
{
    let first = Definition {
        function: 0,
        variables: Listed::new(alloc),
        term,
    };
    Ok(InitialTerms::from_vec(vec![in alloc; first]?))
}

// A model of the function, whose initial value is a number or `undef`.
fn model_of(alloc: Global, value: Value) -> Result<Model, AllocError>
    requires typed { IsConstant [] value Integer }
    requires small { IsSmall value }
    ensures { IfOk result (λ m. (machine_of m).signature ≡ record { domains = record { name = None; domain = Truths } ∷ record { name = Some []; domain = Numbers (numbers_between (pos 3) (pos 5)) } ∷ []; functions = record { name = []; kind = FunKind.Controlled; domains = []; codomain = 1 } ∷ [] }) }
{
    let signature = signature_of(alloc)?;
    let mut pool = Pool::new(alloc);
    let term = constant(&mut pool, value)?;
    let main = skip(&mut pool)?;
    let initial_terms = starting(alloc, term)?;
    Ok(Model::new(
        signature,
        pool,
        main,
        Listed::new(alloc),
        initial_terms,
        Listed::new(alloc),
        Listed::new(alloc),
    ))
}

// The value of the one location in the initial state.
fn first_value(alloc: Global, number: Option<i32>) -> Result<Value, InitError> {
    let model = model_of(alloc, value_of(number))?;
    let store = initial(alloc, &model)?;
    Ok(store.get(0))
}

// The value of a quantifier over the numbers whose guard is a constant.
fn quantified(alloc: Global, quantifier: Quantifier, guard: Value) -> Result<Value, EvalError> {
    let model = model_of(alloc, Value::Undef)?;
    let store = MapStore::new(alloc, model.signature())?;
    let guard = node(alloc, TermKind::Const(guard))?;
    let term = node(alloc, TermKind::Quant(quantifier, binders(alloc)?, guard))?;
    let input = Input::new(alloc);
    eval(alloc, &model, &store, &input, &Env::new(alloc), &term)
}

#[test]
fn a_quantifier_joins_its_guards(rt: HostRuntime) -> Result<(), Fail> {
    let yes = Value::Bool(true);
    let no = Value::Bool(false);
    for (quantifier, guard, want) in [
        (Quantifier::Forall, yes, yes),
        (Quantifier::Forall, no, no),
        (Quantifier::Forall, Value::Undef, Value::Undef),
        (Quantifier::Exist, yes, yes),
        (Quantifier::Exist, no, no),
        (Quantifier::Exist, Value::Undef, Value::Undef),
        (Quantifier::ExistUnique, yes, no),
    ] {
        assert_eq!(rt; quantified(rt.alloc(), quantifier, guard), Ok(want));
    }
    Ok(())
}

#[test]
fn an_initial_value_is_of_the_codomain(rt: HostRuntime) -> Result<(), Fail> {
    let bad = InitError::BadInitial(0, Value::Int(7));
    for (number, want) in [
        (Some(3), Ok(Value::Int(3))),
        (None, Ok(Value::Undef)),
        (Some(7), Err(bad)),
    ] {
        assert_eq!(rt; first_value(rt.alloc(), number), want);
    }
    Ok(())
}
