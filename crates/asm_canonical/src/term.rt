//! Terms, each on one line.

ghost use Rattle.std.specs.Prelude.{◌≡◌, ◌++◌, OnOk, codes, map};
ghost use Rattle.asm_canonical.specs.Pieces.{before_one, behind_one, operand_level};
ghost use Rattle.asm_canonical.specs.Document.{text_in, arguments, behind_gaps, commas};
ghost use Rattle.asm_canonical.specs.Terms.{term_doc, kind_doc, case_doc, bind_doc, binders_doc, quantifier_words, whole_term};

use crate::layout::separator;
use crate::operands::{before_both, before_one, behind_both, behind_one, middle, operand_level};
use crate::operator::{left_level, quantifier, right_level, truth};
use asm_source::{Text, append_number, append_str};
use asm_tree::term::{RawBind, RawBinder, RawCase, RawTerm, RawTermKind};
use asm_tree::{Quantifier, UnaryOp};
use std::alloc::AllocError;

/// Appends a term where operators of this level and tighter ones need no parentheses.
#[cycle(term)]
#[tactic(auto, using(crate::proofs::Texts::doc_term))]
pub fn term(text: &mut Text, term: &RawTerm, at: u8) -> Result<(), AllocError>
    ensures { OnOk result (text.new ≡ text.old ++ text_in (term_doc term.now at)) }
{
    kind(text, &term.kind, at)
}

#[cycle(term)]
#[tactic(auto, using(crate::proofs::Texts::texts))]
fn kind(text: &mut Text, kind: &RawTermKind, at: u8) -> Result<(), AllocError>
    ensures { OnOk result (text.new ≡ text.old ++ text_in (kind_doc kind.now at)) }
{
    match kind {
        RawTermKind::Number(number) => append_number(text, u64::from(*number)),
        RawTermKind::Truth(value) => append_str(text, truth(*value)),
        RawTermKind::Undef => append_str(text, "undef"),
        RawTermKind::Variable(name) => append_str(text, name.text()),
        RawTermKind::Element(name) => append_str(text, name.text()),
        RawTermKind::Call(name, items) => call(text, name.text(), items.slice()),
        RawTermKind::Unary(op, operand) => unary(text, *op, operand.get(), at),
        RawTermKind::Binary(op, left, right) => {
            before_both(text, *op, at)?;
            term(text, left.get(), left_level(*op))?;
            middle(text, *op)?;
            term(text, right.get(), right_level(*op))?;
            behind_both(text, *op, at)
        }
        RawTermKind::Cond(guard, yes, no) => {
            phrase(text, "if ", guard.get())?;
            phrase(text, " then ", yes.get())?;
            phrase(text, " else ", no.get())?;
            append_str(text, " endif")
        }
        RawTermKind::Switch(subject, items, other) => {
            phrase(text, "switch ", subject.get())?;
            cases(text, items.slice())?;
            phrase(text, " otherwise ", other.get())?;
            append_str(text, " endswitch")
        }
        RawTermKind::Let(items, value) => {
            append_str(text, "let (")?;
            binds(text, items.slice())?;
            phrase(text, ") in ", value.get())?;
            append_str(text, " endlet")
        }
        RawTermKind::Quant(kind, items, guard) => {
            quantified(text, *kind, items.slice())?;
            phrase(text, " with ", guard.get())?;
            append_str(text, ")")
        }
    }
}

/// Appends a parenthesis, a quantifier and its variables.
fn quantified(text: &mut Text, kind: Quantifier, items: &[RawBinder]) -> Result<(), AllocError>
    ensures { OnOk result (text.new ≡ (((text.old ++ codes "(") ++ quantifier_words kind) ++ codes " ") ++ text_in (binders_doc items.now)) }
{
    append_str(text, "(")?;
    append_str(text, quantifier(kind))?;
    append_str(text, " ")?;
    binders(text, items)
}

/// Appends these words and a term.
#[cycle(term)]
pub fn phrase(text: &mut Text, words: &str, item: &RawTerm) -> Result<(), AllocError>
    ensures { OnOk result (text.new ≡ (text.old ++ words.now) ++ text_in (whole_term item.now)) }
{
    append_str(text, words)?;
    term(text, item, 1)
}

/// Appends a name and arguments, if there are any.
#[cycle(term)]
#[tactic(auto, using(crate::proofs::Texts::term_lists))]
pub fn call(text: &mut Text, name: &str, items: &[RawTerm]) -> Result<(), AllocError>
    ensures { OnOk result (text.new ≡ (text.old ++ name.now) ++ text_in (arguments (map whole_term items.now))) }
{
    append_str(text, name)?;
    if items.is_empty() {
        return Ok(());
    }
    append_str(text, "(")?;
    terms(text, items)?;
    append_str(text, ")")?;
    Ok(())
}

/// Appends an operator with its one operand, at this level.
#[cycle(term)]
fn unary(text: &mut Text, op: UnaryOp, operand: &RawTerm, at: u8) -> Result<(), AllocError>
    ensures { OnOk result (text.new ≡ ((text.old ++ before_one op at) ++ text_in (term_doc operand.now (operand_level op))) ++ behind_one op at) }
{
    before_one(text, op, at)?;
    term(text, operand, operand_level(op))?;
    behind_one(text, op, at)
}

/// Appends terms with commas between them.
#[cycle(term)]
#[tactic(auto, using(crate::proofs::Texts::term_lists))]
pub fn terms(text: &mut Text, items: &[RawTerm]) -> Result<(), AllocError>
    ensures { OnOk result (text.new ≡ text.old ++ text_in (commas (map whole_term items.now))) }
{
    'items: for (index, item) in items.iter().enumerate() {
        append_str(text, separator(index))?;
        term(text, item, 1)?;
    }
    Ok(())
}

/// Appends cases, each behind a space.
#[cycle(term)]
#[tactic(auto, using(crate::proofs::Texts::term_lists))]
fn cases(text: &mut Text, items: &[RawCase]) -> Result<(), AllocError>
    ensures { OnOk result (text.new ≡ text.old ++ text_in (behind_gaps (map case_doc items.now))) }
{
    'items: for item in items {
        phrase(text, " case ", &item.label)?;
        phrase(text, " : ", &item.value)?;
    }
    Ok(())
}

/// Appends variables with their terms, with commas between them.
#[cycle(term)]
#[tactic(auto, using(crate::proofs::Texts::term_lists))]
pub fn binds(text: &mut Text, items: &[RawBind]) -> Result<(), AllocError>
    ensures { OnOk result (text.new ≡ text.old ++ text_in (commas (map bind_doc items.now))) }
{
    'items: for (index, item) in items.iter().enumerate() {
        append_str(text, separator(index))?;
        append_str(text, item.variable.text.text())?;
        phrase(text, " = ", &item.term)?;
    }
    Ok(())
}

/// Appends variables with their domains, with commas between them.
#[tactic(auto, using(crate::proofs::Texts::binder_lists))]
pub fn binders(text: &mut Text, items: &[RawBinder]) -> Result<(), AllocError>
    ensures { OnOk result (text.new ≡ text.old ++ text_in (binders_doc items.now)) }
{
    'items: for (index, item) in items.iter().enumerate() {
        append_str(text, separator(index))?;
        append_str(text, item.variable.text.text())?;
        append_str(text, " in ")?;
        append_str(text, item.domain.text.text())?;
    }
    Ok(())
}
