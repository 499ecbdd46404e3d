use crate::term::{Binder, Term};
use asm_list::Listed;
use asm_source::Place;
use std::rc::Rc;

/// A rule with the number that its pool gave it.
#[cycle(rule)]
#[derive(Drop)]
pub struct Rule {
    pub id: u64,
    pub kind: RuleKind,
}

/// Each rule has the place of its first token. Functions, variables and rules are told by their numbers.
#[cycle(rule)]
#[derive(Drop)]
pub enum RuleKind {
    Skip(Place),
    /// A function, its arguments, and the new value.
    Update(Place, u32, Listed<Rc<Term>>, Rc<Term>),
    Par(Place, Listed<Rc<Rule>>),
    Seq(Place, Rc<Rule>, Rc<Rule>),
    /// A guard, the rule where it is true, and the rule where it is false.
    If(Place, Rc<Term>, Rc<Rule>, Rc<Rule>),
    Let(Place, u32, Rc<Term>, Rc<Rule>),
    /// The guard and the body for tuples.
    Forall(Place, Listed<Binder>, Rc<Term>, Rc<Rule>),
    /// The guard and the body for tuples, and the rule where no tuple has a true guard.
    Choose(Place, Listed<Binder>, Rc<Term>, Rc<Rule>, Rc<Rule>),
    /// A macro rule and the actual terms of its parameters.
    Call(Place, u32, Listed<Rc<Term>>),
}
