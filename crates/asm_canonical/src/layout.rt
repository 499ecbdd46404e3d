//! Pieces of a text.

ghost use Rattle.std.specs.Prelude.{◌≡◌, ◌+◌, ◌++◌, OnOk, IfOk};
ghost use Rattle.asm_canonical.specs.Pieces as pieces;

use asm_source::{Text, append_str};
use std::alloc::AllocError;

/// Appends the mark where it is needed.
pub fn mark(text: &mut Text, needed: bool, mark: &str) -> Result<(), AllocError>
    ensures { OnOk result (text.new ≡ text.old ++ pieces.mark_text needed mark.now) }
{
    if needed {
        append_str(text, mark)
    } else {
        Ok(())
    }
}

/// What stands before an item of this number: nothing before the first, else a comma and a space.
pub fn separator(index: usize) -> &'static str
    ensures { result.now ≡ pieces.separator_text index }
{
    if index == 0 { "" } else { ", " }
}

/// The mark that stands before an item of this number, if it isn't the first.
pub fn joint(index: usize, mark: &str) -> &str
    ensures { result.now ≡ pieces.joint index mark.now }
{
    if index == 0 { "" } else { mark }
}

/// Ends the line, and indents the next one.
#[tactic(auto, using(crate::proofs::Texts::two_more))]
pub fn line(text: &mut Text, level: usize) -> Result<(), AllocError>
    ensures { OnOk result (text.new ≡ text.old ++ pieces.line_text level) }
{
    append_str(text, "\n")?;
    'levels: for _level in 0..level {
        append_str(text, "  ")?;
    }
    Ok(())
}

/// One level deeper.
pub fn deeper(level: usize) -> Result<usize, AllocError>
    ensures { IfOk result (λ n. n ≡ level + 1) }
{
    level.checked_add(1).ok_or(AllocError)
}
