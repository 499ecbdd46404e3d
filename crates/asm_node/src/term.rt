use crate::operator::{Op, Quantifier};
use asm_domain::Value;
use asm_list::Listed;
use std::rc::Rc;

/// A variable that stands for the elements of a domain. 4,294,967,295 is the domain of all whole numbers.
#[derive(Clone, Copy, Debug, PartialEq, Eq)]
pub struct Binder {
    pub variable: u32,
    pub domain: u32,
}

/// A term with the number that its pool gave it.
#[cycle(term)]
#[derive(Drop)]
pub struct Term {
    pub id: u64,
    pub kind: TermKind,
}

/// Domains, functions and variables are told by their numbers.
#[cycle(term)]
#[derive(Drop)]
pub enum TermKind {
    Const(Value),
    Var(u32),
    /// The term's value where it is an element of the domain, and else `undef`.
    Within(u32, Rc<Term>),
    /// The value of a function at arguments.
    Get(u32, Listed<Rc<Term>>),
    Oper(Op, Listed<Rc<Term>>),
    /// A guard, the term where it is true, and the term where it is false.
    Cond(Rc<Term>, Rc<Term>, Rc<Term>),
    /// A variable, the term whose value it has, and the term in which it has it.
    Let(u32, Rc<Term>, Rc<Term>),
    /// A quantifier over tuples, with its guard.
    Quant(Quantifier, Listed<Binder>, Rc<Term>),
}
