//! What stands before, between and behind the operands of an operator.

ghost use Rattle.std.specs.Prelude.{◌≡◌, ◌++◌, OnOk};
ghost use Rattle.asm_canonical.specs.Terms as terms;
ghost use Rattle.asm_canonical.specs.Pieces as pieces;

use crate::layout::mark;
use crate::operator::{level, sign};
use asm_source::{Text, append_str};
use asm_tree::{Op, UnaryOp};
use std::alloc::AllocError;

/// Whether it stands between its operands.
fn is_infix(op: Op) -> bool
    ensures { result ≡ terms.is_infix op }
{
    level(op) < 10
}

/// Before the operands, at this level.
pub fn before_both(text: &mut Text, op: Op, at: u8) -> Result<(), AllocError>
    ensures { OnOk result (text.new ≡ text.old ++ pieces.before_both op at) }
{
    if is_infix(op) {
        return mark(text, level(op) < at, "(");
    }
    append_str(text, sign(op))?;
    append_str(text, "(")?;
    Ok(())
}

/// Between the operands.
pub fn middle(text: &mut Text, op: Op) -> Result<(), AllocError>
    ensures { OnOk result (text.new ≡ text.old ++ pieces.middle op) }
{
    if !is_infix(op) {
        return append_str(text, ", ");
    }
    append_str(text, " ")?;
    append_str(text, sign(op))?;
    append_str(text, " ")?;
    Ok(())
}

/// Behind the operands, at this level.
pub fn behind_both(text: &mut Text, op: Op, at: u8) -> Result<(), AllocError>
    ensures { OnOk result (text.new ≡ text.old ++ pieces.behind_both op at) }
{
    mark(text, !is_infix(op) || level(op) < at, ")")
}

/// Before the one operand, at this level.
pub fn before_one(text: &mut Text, op: UnaryOp, at: u8) -> Result<(), AllocError>
    ensures { OnOk result (text.new ≡ text.old ++ pieces.before_one op at) }
{
    match op {
        UnaryOp::Not => {
            mark(text, 5 < at, "(")?;
            append_str(text, "not ")?;
        }
        UnaryOp::Negate => {
            mark(text, 9 < at, "(")?;
            append_str(text, "-")?;
        }
        UnaryOp::Abs => append_str(text, "abs(")?,
        UnaryOp::IsDefined => append_str(text, "isDef(")?,
        UnaryOp::IsUndefined => append_str(text, "isUndef(")?,
    }
    Ok(())
}

/// The loosest level that the one operand may have without parentheses.
pub fn operand_level(op: UnaryOp) -> u8
    ensures { result ≡ pieces.operand_level op }
{
    match op {
        UnaryOp::Not => 5,
        UnaryOp::Negate => 9,
        UnaryOp::Abs | UnaryOp::IsDefined | UnaryOp::IsUndefined => 1,
    }
}

/// Behind the one operand, at this level.
pub fn behind_one(text: &mut Text, op: UnaryOp, at: u8) -> Result<(), AllocError>
    ensures { OnOk result (text.new ≡ text.old ++ pieces.behind_one op at) }
{
    match op {
        UnaryOp::Not => mark(text, 5 < at, ")"),
        UnaryOp::Negate => mark(text, 9 < at, ")"),
        UnaryOp::Abs | UnaryOp::IsDefined | UnaryOp::IsUndefined => append_str(text, ")"),
    }
}
