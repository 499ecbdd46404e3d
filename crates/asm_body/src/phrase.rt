//! Terms with the token that each begins at.

ghost use Rattle.std.specs.Prelude.{◌≡◌, IfOk};
ghost use Rattle.asm_tree.specs.Terms as terms;
ghost use Rattle.asm_tree.specs.declared.term.RawTermKind.TheVariants as term_kind;
ghost use Rattle.asm_body.specs.Phrases.{seen_grouping, seen_phrase};
ghost use Rattle.asm_body.specs.Seen.{seen};

use crate::lexeme::Lexeme;
use crate::operator::op_of;
use asm_list::{Boxed, Listed, Name};
use asm_tree::term::{RawBinder, RawTerm, RawTermKind};
use asm_tree::{Op, Quantifier, UnaryOp};
use std::alloc::{AllocError, Global};

/// A term with the token that it begins at, which is a parenthesis where one groups its front.
#[derive(Drop)]
pub struct Phrase<'t> {
    pub begins: &'t Lexeme,
    pub term: Boxed<RawTerm>,
}

/// A term at its first token.
pub fn term_at(
    alloc: Global,
    token: &Lexeme,
    kind: RawTermKind,
) -> Result<Boxed<RawTerm>, AllocError>
    ensures { IfOk result (λ t. t ≡ terms.term_at (seen token.now) kind) }
{
    let term = RawTerm {
        at: token.at,
        first: Name::of(alloc, token.text.text())?,
        kind,
    };
    Boxed::new(alloc, term)
}

/// The guard, which is `true` at the first token where none is written.
pub fn guard_or(
    alloc: Global,
    first: &Lexeme,
    guard: Option<Boxed<RawTerm>>,
) -> Result<Boxed<RawTerm>, AllocError>
    ensures { IfOk result (λ t. t ≡ terms.guard_or (seen first.now) guard) }
{
    match guard {
        Some(guard) => Ok(guard),
        None => term_at(alloc, first, RawTermKind::Truth(true)),
    }
}

/// The other branch, which is `undef` at the first token where none is written.
pub fn other_or(
    alloc: Global,
    first: &Lexeme,
    other: Option<Boxed<RawTerm>>,
) -> Result<Boxed<RawTerm>, AllocError>
    ensures { IfOk result (λ t. t ≡ terms.other_or (seen first.now) other) }
{
    match other {
        Some(other) => Ok(other),
        None => term_at(alloc, first, RawTermKind::Undef),
    }
}

pub fn phrase_at(alloc: Global, token: &Lexeme, kind: RawTermKind) -> Result<Phrase<'_>, AllocError>
    ensures { IfOk result (λ p. seen_phrase p ≡ terms.phrase_at (seen token.now) kind) }
{
    Ok(Phrase {
        begins: token,
        term: term_at(alloc, token, kind)?,
    })
}

/// An operator of two operands, at a token.
pub fn binary_at<'t>(
    alloc: Global,
    token: &'t Lexeme,
    op: Op,
    left: Boxed<RawTerm>,
    right: Boxed<RawTerm>,
) -> Result<Phrase<'t>, AllocError>
    ensures { IfOk result (λ p. seen_phrase p ≡ terms.phrase_at (seen token.now) (term_kind.Binary op left right)) }
{
    phrase_at(alloc, token, RawTermKind::Binary(op, left, right))
}

/// An operator of one operand, at a token.
pub fn unary_at<'t>(
    alloc: Global,
    token: &'t Lexeme,
    op: UnaryOp,
    operand: Boxed<RawTerm>,
) -> Result<Phrase<'t>, AllocError>
    ensures { IfOk result (λ p. seen_phrase p ≡ terms.phrase_at (seen token.now) (term_kind.Unary op operand)) }
{
    phrase_at(alloc, token, RawTermKind::Unary(op, operand))
}

/// The operands, joined by the operator.
pub fn joined<'t>(
    alloc: Global,
    left: Phrase<'t>,
    operator: &Lexeme,
    right: Phrase<'_>,
) -> Result<Phrase<'t>, AllocError>
    ensures { IfOk result (λ p. seen_phrase p ≡ terms.joined (seen_phrase left.entry) (seen operator.now) (seen_phrase right.entry)) }
{
    binary_at(alloc, left.begins, op_of(operator), left.term, right.term)
}

/// What parentheses group: the kind of a quantifier, which they belong to, or a term.
#[derive(Drop)]
pub enum Grouping {
    Quantified(Boxed<RawTermKind>),
    Plain(Boxed<RawTerm>),
}

/// What the parenthesis groups.
pub fn grouped(alloc: Global, token: &Lexeme, grouping: Grouping) -> Result<Phrase<'_>, AllocError>
    ensures { IfOk result (λ p. seen_phrase p ≡ terms.grouped (seen token.now, seen_grouping grouping)) }
{
    match grouping {
        Grouping::Quantified(kind) => phrase_at(alloc, token, kind.into_inner()),
        Grouping::Plain(term) => Ok(Phrase {
            begins: token,
            term,
        }),
    }
}

/// `minus` of one operand or two.
pub fn minus_at<'t>(
    alloc: Global,
    token: &'t Lexeme,
    left: Boxed<RawTerm>,
    right: Option<Boxed<RawTerm>>,
) -> Result<Phrase<'t>, AllocError>
    ensures { IfOk result (λ p. seen_phrase p ≡ terms.named_minus (seen token.now, (left, right))) }
{
    match right {
        Some(right) => binary_at(alloc, token, Op::Minus, left, right),
        None => unary_at(alloc, token, UnaryOp::Negate, left),
    }
}

pub fn quantifier_at(
    alloc: Global,
    quantifier: Quantifier,
    binders: Listed<RawBinder>,
    guard: Boxed<RawTerm>,
) -> Result<Boxed<RawTermKind>, AllocError>
    ensures { IfOk result (λ k. k ≡ term_kind.Quant quantifier binders guard) }
{
    Boxed::new(alloc, RawTermKind::Quant(quantifier, binders, guard))
}
