//! Terms with closed terms in the places of their variables.
ghost use Rattle.std.specs.Prelude.{◌≡◌, ◌++◌, ◌∷◌, [], All, IfOk, OnOk, map, nat_eq};
ghost use Rattle.std.specs.List.{list_any, AllZip};
ghost use Rattle.asm_node.specs.Env.{places_of};
ghost use Rattle.asm_node.specs.Pool.{terms_of, HasTerm, HasTerms, HasGrown, IsNode};
ghost use Rattle.asm_node.specs.Stays.{stays};
ghost use Rattle.asm_node.specs.Term as meaning;
ghost use Rattle.asm_node.specs.Term.{World, value_of, calls_of, unbound, val, put, keep, close_all};
ghost use Rattle.asm_node.specs.Tree.{Var, plain, plain_kind, plain_all};

use crate::definition::Terms;
use crate::env::{Binding, Env};
use crate::pool::Pool;
use crate::term::{Binder, Term, TermKind};
use asm_domain::Value;
use asm_list::Listed;
use std::alloc::AllocError;
use std::rc::Rc;

/// The term with closed terms in the places of its variables. Its value is that of the term where its variables stand for
/// these.
pub fn close(pool: &mut Pool, term: &Rc<Term>, env: &Env) -> Result<Rc<Term>, AllocError>
    ensures node { IfOk result (λ t. HasTerm (terms_of pool.new) t.value) }
    ensures term { IfOk result (λ t. plain t.value ≡ meaning.close (places_of env.now) (plain term.now.value)) }
    ensures value { IfOk result (λ t. (w : World) → value_of w (calls_of w) unbound (plain t.value) ≡ val w (places_of env.now) (plain term.now.value)) }
    ensures pool { HasGrown pool.old pool.new }
{
    Ok(close_in(pool, &[], env, term)?)
}

/// The term with closed terms in the places of its variables but for those that are bound around it.
#[cycle(close)]
fn close_in(
    pool: &mut Pool,
    bound: &[u32],
    env: &Env,
    term: &Rc<Term>,
) -> Result<Rc<Term>, AllocError>
    ensures node { IfOk result (λ t. IsNode pool.new t.value (meaning.close (stays bound.now (places_of env.now)) (plain term.now.value))) }
    ensures pool { HasGrown pool.old pool.new }
{
    match &term.kind {
        TermKind::Const(value) => Ok(make(pool, TermKind::Const(*value))?),
        TermKind::Var(variable) => Ok(close_variable(pool, bound, env, *variable)?),
        TermKind::Within(domain, inner) => {
            let inner = close_in(pool, bound, env, inner)?;
            Ok(make(pool, TermKind::Within(*domain, inner))?)
        }
        TermKind::Get(function, arguments) => {
            let arguments = close_each(pool, bound, env, arguments.slice())?;
            Ok(make(pool, TermKind::Get(*function, arguments))?)
        }
        TermKind::Oper(op, arguments) => {
            let arguments = close_each(pool, bound, env, arguments.slice())?;
            Ok(make(pool, TermKind::Oper(*op, arguments))?)
        }
        TermKind::Cond(guard, then_part, else_part) => {
            let guard = close_in(pool, bound, env, guard)?;
            let then_part = close_in(pool, bound, env, then_part)?;
            let else_part = close_in(pool, bound, env, else_part)?;
            Ok(make(pool, TermKind::Cond(guard, then_part, else_part))?)
        }
        TermKind::Let(variable, term, body) => {
            let term = close_in(pool, bound, env, term)?;
            let body = close_under(pool, bound, env, *variable, body)?;
            Ok(make(pool, TermKind::Let(*variable, term, body))?)
        }
        TermKind::Quant(quantifier, binders, guard) => {
            let guard = close_below(pool, bound, env, binders.slice(), guard)?;
            let binders = Listed::from_slice(pool.alloc(), binders.slice())?;
            Ok(make(pool, TermKind::Quant(*quantifier, binders, guard))?)
        }
    }
}

/// The terms with closed terms in the places of their variables.
#[cycle(close)]
fn close_each(
    pool: &mut Pool,
    bound: &[u32],
    env: &Env,
    terms: &[Rc<Term>],
) -> Result<Terms, AllocError>
    ensures nodes { IfOk result (λ ts. All (λ t. HasTerm (terms_of pool.new) t.value) ts) }
    ensures terms { IfOk result (λ ts. plain_all ts ≡ close_all (stays bound.now (places_of env.now)) (plain_all terms.now)) }
    ensures pool { HasGrown pool.old pool.new }
{
    let mut closed = Terms::new(pool.alloc());
    for term in terms {
        let one = close_in(pool, bound, env, term)?;
        closed.push(one)?;
    }
    Ok(closed)
}

/// A term in which one more variable is bound.
#[cycle(close)]
fn close_under(
    pool: &mut Pool,
    bound: &[u32],
    env: &Env,
    variable: u32,
    term: &Rc<Term>,
) -> Result<Rc<Term>, AllocError>
    ensures node { IfOk result (λ t. IsNode pool.new t.value (meaning.close (put variable (Var variable) (stays bound.now (places_of env.now))) (plain term.now.value))) }
    ensures pool { HasGrown pool.old pool.new }
{
    let mut inner = Listed::from_slice(pool.alloc(), bound)?;
    inner.push(variable)?;
    Ok(close_in(pool, inner.slice(), env, term)?)
}

/// A term in which the variables of binders are bound too.
#[cycle(close)]
fn close_below(
    pool: &mut Pool,
    bound: &[u32],
    env: &Env,
    binders: &[Binder],
    term: &Rc<Term>,
) -> Result<Rc<Term>, AllocError>
    ensures node { IfOk result (λ t. IsNode pool.new t.value (meaning.close (keep binders.now (stays bound.now (places_of env.now))) (plain term.now.value))) }
    ensures pool { HasGrown pool.old pool.new }
{
    let mut inner = Listed::from_slice(pool.alloc(), bound)?;
    bind(&mut inner, binders)?;
    Ok(close_in(pool, inner.slice(), env, term)?)
}

fn bind(bound: &mut Listed<u32>, binders: &[Binder]) -> Result<(), AllocError>
    ensures { OnOk result (bound.new ≡ bound.old ++ map (λ b. b.variable) binders.now) }
{
    for binder in binders {
        bound.push(binder.variable)?;
    }
    Ok(())
}

/// The closed term that a variable stands for, or the variable where it is bound.
#[cycle(close)]
fn close_variable(
    pool: &mut Pool,
    bound: &[u32],
    env: &Env,
    variable: u32,
) -> Result<Rc<Term>, AllocError>
    ensures node { IfOk result (λ t. IsNode pool.new t.value (stays bound.now (places_of env.now) variable)) }
    ensures pool { HasGrown pool.old pool.new }
{
    if is_bound(bound, variable) {
        return Ok(make(pool, TermKind::Var(variable))?);
    }
    match env.find(variable)? {
        Binding::Free => Ok(make(pool, TermKind::Const(Value::Undef))?),
        Binding::Value(value) => Ok(make(pool, TermKind::Const(value))?),
        Binding::Node(term) => {
            let empty = Env::new(pool.alloc());
            Ok(close_in(pool, &[], &empty, &term)?)
        }
        Binding::Actual(domain, term, caller) => {
            let inner = close_in(pool, &[], &caller, &term)?;
            Ok(make(pool, TermKind::Within(domain, inner))?)
        }
    }
}

fn is_bound(bound: &[u32], variable: u32) -> bool
    ensures { result ≡ list_any (λ x. nat_eq x variable) bound.now }
{
    bound.iter().any(|other| *other == variable)
}

fn make(pool: &mut Pool, kind: TermKind) -> Result<Rc<Term>, AllocError>
    requires { HasTerms (terms_of pool.old) kind }
    ensures node { IfOk result (λ t. IsNode pool.new t.value (plain_kind kind)) }
    ensures pool { HasGrown pool.old pool.new }
{
    pool.term(kind)
}
