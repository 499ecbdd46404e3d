//! Terms as they were read. Each place is that of a byte of the text, counted from 0.

use crate::operator::{Op, Quantifier, UnaryOp};
use asm_list::{Boxed, Listed, Name};

/// A word or a variable of the text, at its first byte. The text of a variable begins with `$`.
#[derive(Debug, Drop)]
pub struct RawName {
    pub at: u32,
    pub text: Name,
}

/// A variable and the domain that it ranges over.
#[derive(Debug, Drop)]
pub struct RawBinder {
    pub variable: RawName,
    pub domain: RawName,
}

/// A term at the byte of its first token, with that token's text. Parentheses that only group it aren't its tokens.
#[cycle(term)]
#[derive(Debug, Drop)]
pub struct RawTerm {
    pub at: u32,
    pub first: Name,
    pub kind: RawTermKind,
}

#[cycle(term)]
#[derive(Debug, Drop)]
pub enum RawTermKind {
    /// At most 2,147,483,648.
    Number(u32),
    Truth(bool),
    Undef,
    Variable(Name),
    /// The name of an element of an enumeration.
    Element(Name),
    /// The value of a function at arguments, of which there may be none.
    Call(Name, Listed<RawTerm>),
    Unary(UnaryOp, Boxed<RawTerm>),
    Binary(Op, Boxed<RawTerm>, Boxed<RawTerm>),
    /// A guard, the term where it is true, and the term where it is false.
    Cond(Boxed<RawTerm>, Boxed<RawTerm>, Boxed<RawTerm>),
    /// A term, the cases in order, and the term where none is the same.
    Switch(Boxed<RawTerm>, Listed<RawCase>, Boxed<RawTerm>),
    Let(Listed<RawBind>, Boxed<RawTerm>),
    Quant(Quantifier, Listed<RawBinder>, Boxed<RawTerm>),
}

/// A case of a `switch` term: what the term is compared with, and the value.
#[cycle(term)]
#[derive(Debug, Drop)]
pub struct RawCase {
    pub label: RawTerm,
    pub value: RawTerm,
}

/// A variable of a `let`, and the term whose value it has.
#[cycle(term)]
#[derive(Debug, Drop)]
pub struct RawBind {
    pub variable: RawName,
    pub term: RawTerm,
}
