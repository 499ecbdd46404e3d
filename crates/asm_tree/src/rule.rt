//! Rules as they were read.

use crate::term::{RawBind, RawBinder, RawTerm};
use asm_list::{Boxed, Listed, Name};

/// A rule at the byte of its first token.
#[cycle(rule)]
#[derive(Debug, Drop)]
pub struct RawRule {
    pub at: u32,
    pub kind: RawRuleKind,
}

#[cycle(rule)]
#[derive(Debug, Drop)]
pub enum RawRuleKind {
    Skip,
    /// A function, its arguments, and the new value.
    Update(Name, Listed<RawTerm>, RawTerm),
    Par(Listed<RawRule>),
    Seq(Listed<RawRule>),
    /// A guard, the rule where it is true, and the rule where it is false.
    If(RawTerm, Boxed<RawRule>, Boxed<RawRule>),
    /// A term, the cases in order, and the rule where none is the same.
    Switch(RawTerm, Listed<RawRuleCase>, Boxed<RawRule>),
    Let(Listed<RawBind>, Boxed<RawRule>),
    /// The guard and the body for tuples.
    Forall(Listed<RawBinder>, RawTerm, Boxed<RawRule>),
    /// The guard and the body for tuples, and the rule where no tuple has a true guard.
    Choose(Listed<RawBinder>, RawTerm, Boxed<RawRule>, Boxed<RawRule>),
    /// A macro rule and the actual terms of its parameters.
    Call(Name, Listed<RawTerm>),
}

/// A case of a `switch` rule.
#[cycle(rule)]
#[derive(Debug, Drop)]
pub struct RawRuleCase {
    pub label: RawTerm,
    pub rule: RawRule,
}
