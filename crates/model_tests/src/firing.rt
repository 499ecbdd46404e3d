ghost use Rattle.std.specs.Prelude.{◌≡◌, true, [], ◌∷◌, IfOk, None};
ghost use Rattle.asm_domain.specs.Universe.{Truths};
ghost use Rattle.asm_node.specs.declared.rule.RuleKind as form;
ghost use Rattle.asm_node.specs.Model.{machine_of};
ghost use Rattle.asm_node.specs.Pool.{rules_of, terms_of};
ghost use Rattle.asm_node.specs.RuleTree.{plain_rule};
ghost use Rattle.asm_node.specs.RuleTree as of_rule;
ghost use Rattle.asm_node.specs.Tree.{plain_kind};
ghost use Rattle.asm_node.specs.Tree as tree;

use asm_domain::{Domain, Value};
use asm_fire::{FireError, fire};
use asm_list::{Listed, Name};
use asm_node::{Binder, Input, Model, Pool, Rule, RuleKind, Stop, Term, TermKind, Words};
use asm_sign::{DeclaredDomain, Domains, FunKind, Function, Functions, Signature};
use asm_source::Place;
use asm_state::MapStore;
use asm_update::Updates;
use std::alloc::{AllocError, Global};
use std::rc::Rc;
use std::test::Fail;

const PLACE: Place = Place { file: 0, at: 70 };

const YES: Value = Value::Bool(true);

const NO: Value = Value::Bool(false);

fn term(alloc: Global, kind: TermKind) -> Result<Rc<Term>, AllocError>
    ensures { IfOk result (λ t. t.value.kind ≡ kind) }
{
    Ok(Rc::new(alloc, Term { id: 0, kind })?)
}

fn rule(alloc: Global, kind: RuleKind) -> Result<Rc<Rule>, AllocError>
    ensures { IfOk result (λ r. r.value.kind ≡ kind) }
{
    Ok(Rc::new(alloc, Rule { id: 0, kind })?)
}

// The update of the one function.
fn update(alloc: Global, value: TermKind) -> Result<Rc<Rule>, AllocError>
    ensures { IfOk result (λ r. plain_rule r.value ≡ of_rule.Update PLACE 0 tree.none (plain_kind value)) }
{
    let value = term(alloc, value)?;
    rule(alloc, RuleKind::Update(PLACE, 0, Listed::new(alloc), value))
}

// `choose $x in Boolean with true do f := $x`
fn choice(alloc: Global) -> Result<Rc<Rule>, AllocError>
    ensures { IfOk result (λ r. plain_rule r.value ≡ of_rule.Choose PLACE (record { variable = 0; domain = 0 } ∷ []) (tree.Const (Value.Bool true)) (of_rule.Update PLACE 0 tree.none (tree.Var 0)) (of_rule.Skip PLACE)) }
{
    let binder = Binder {
        variable: 0,
        domain: 0,
    };
    let binders = Listed::from_vec(vec![in alloc; binder]?);
    let guard = term(alloc, TermKind::Const(Value::Bool(true)))?;
    let body = update(alloc, TermKind::Var(0))?;
    let other = rule(alloc, RuleKind::Skip(PLACE))?;
    rule(alloc, RuleKind::Choose(PLACE, binders, guard, body, other))
}

fn pair(alloc: Global, first: Rc<Rule>, second: Rc<Rule>) -> Result<Listed<Rc<Rule>>, AllocError>
    ensures { IfOk result (λ rules. rules ≡ first ∷ second ∷ []) }
{
    Ok(Listed::from_vec(vec![in alloc; first, second]?))
}

// `seq par f := first f := second endpar choose $x in Boolean with true do f := $x endseq`
fn both_then_choice(alloc: Global, first: Value, second: Value) -> Result<Rc<Rule>, AllocError>
    ensures { IfOk result (λ r. plain_rule r.value ≡ of_rule.Seq PLACE (of_rule.Par PLACE (of_rule.more (of_rule.Update PLACE 0 tree.none (tree.Const first)) (of_rule.more (of_rule.Update PLACE 0 tree.none (tree.Const second)) of_rule.none))) (of_rule.Choose PLACE (record { variable = 0; domain = 0 } ∷ []) (tree.Const (Value.Bool true)) (of_rule.Update PLACE 0 tree.none (tree.Var 0)) (of_rule.Skip PLACE))) }
{
    let first = update(alloc, TermKind::Const(first))?;
    let second = update(alloc, TermKind::Const(second))?;
    let parts = pair(alloc, first, second)?;
    let both = rule(alloc, RuleKind::Par(PLACE, parts))?;
    let choice = choice(alloc)?;
    rule(alloc, RuleKind::Seq(PLACE, both, choice))
}

// The truth values, and a controlled function of them without arguments.
fn signature_of(alloc: Global) -> Result<Signature, AllocError>
    ensures { IfOk result (λ s. s ≡ record { domains = record { name = None; domain = Truths } ∷ []; functions = record { name = []; kind = FunKind.Controlled; domains = []; codomain = 0 } ∷ [] }) }
{
    let domain = Domain::boolean();
    let domains = Domains::from_vec(vec![in alloc; DeclaredDomain { name: None, domain }]?);
    let function = Function {
        name: Name::new(alloc),
        kind: FunKind::Controlled,
        domains: Listed::new(alloc),
        codomain: 0,
    };
    let functions = Functions::from_vec(vec![in alloc; function]?);
    Signature::new(alloc, domains, functions)
}

// The first rule of a pool.
fn skip(pool: &mut Pool) -> Result<Rc<Rule>, AllocError>
    requires { rules_of pool.old ≡ [] }
    ensures node { IfOk result (λ r. r.value ≡ record { id = 0; kind = form.Skip PLACE }) }
    ensures rules { IfOk result (λ r. rules_of pool.new ≡ r.value ∷ []) }
    ensures terms { terms_of pool.new ≡ terms_of pool.old }
{
    pool.rule(RuleKind::Skip(PLACE))
}

// A model of the function.
fn model_of(alloc: Global) -> Result<Model, AllocError>
    ensures { IfOk result (λ m. (machine_of m).signature ≡ record { domains = record { name = None; domain = Truths } ∷ []; functions = record { name = []; kind = FunKind.Controlled; domains = []; codomain = 0 } ∷ [] }) }
{
    let signature = signature_of(alloc)?;
    let mut pool = Pool::new(alloc);
    let main = skip(&mut pool)?;
    Ok(Model::new(
        signature,
        pool,
        main,
        Listed::new(alloc),
        Listed::new(alloc),
        Listed::new(alloc),
        Listed::new(alloc),
    ))
}

// What two updates give, and a choice after them.
fn fired(
    alloc: Global,
    first: Value,
    second: Value,
    words: &mut Words,
) -> Result<Updates, FireError> {
    let rule = both_then_choice(alloc, first, second)?;
    let model = model_of(alloc)?;
    let store = MapStore::new(alloc, model.signature())?;
    let input = Input::new(alloc);
    fire(alloc, &model, &store, &input, words, &rule)
}

#[test]
fn a_choice_stands_after_a_consistent_set(rt: HostRuntime) -> Result<(), Fail> {
    for (second, word, want, taken) in [
        (YES, 0, [(0, NO)].as_slice(), 1),
        (YES, 1, [(0, YES)].as_slice(), 1),
        (YES, 4, [(0, NO)].as_slice(), 1),
        (NO, 0, [(0, NO), (0, YES)].as_slice(), 0),
    ] {
        let mut words = Words::of(Listed::from_vec(vec![in rt.alloc(); word, 9]?));
        let updates = fired(rt.alloc(), YES, second, &mut words)?;
        assert_eq!(rt; updates.pairs(), want);
        assert_eq!(rt; words.taken(), taken);
    }
    let mut none = Words::new(rt.alloc());
    let missing = fired(rt.alloc(), YES, YES, &mut none).err();
    assert_eq!(rt; missing, Some(FireError::Stop(Stop::Choice(PLACE))));
    Ok(())
}
