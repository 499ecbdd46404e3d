//! The lines of a play's own.
ghost use Rattle.std.specs.Prelude.{◌≡◌, ◌++◌, IfOk, codes};
ghost use Rattle.std.specs.Fmt.{decimal};
ghost use Rattle.asm_text.specs.Texts.{line};
ghost use Rattle.avalla_play.specs.Moves.{check_line, spent_line};

use asm_source::{Text, append_number, append_str};
use std::alloc::{AllocError, Global};

/// The line of a check that has passed.
pub fn passed_line(alloc: Global, number: u32) -> Result<Text, AllocError>
    ensures { IfOk result (λ text. text ≡ check_line number (codes " passed")) }
{
    let mut text = Text::new(alloc);
    append_str(&mut text, "check ")?;
    append_number(&mut text, u64::from(number))?;
    append_str(&mut text, " passed")?;
    append_str(&mut text, "\n")?;
    Ok(text)
}

/// The lines of a check that has failed.
pub fn failed_lines(alloc: Global, number: u32) -> Result<Text, AllocError>
    ensures { IfOk result (λ text. text ≡ check_line number (codes " failed") ++ line (codes "failed")) }
{
    let mut text = Text::new(alloc);
    append_str(&mut text, "check ")?;
    append_number(&mut text, u64::from(number))?;
    append_str(&mut text, " failed")?;
    append_str(&mut text, "\n")?;
    append_str(&mut text, "failed\n")?;
    Ok(text)
}

/// The line of a `step until` that took all its steps.
pub fn budget_line(alloc: Global, budget: u64) -> Result<Text, AllocError>
    ensures { IfOk result (λ text. text ≡ spent_line budget) }
{
    let mut text = Text::new(alloc);
    append_str(&mut text, "stop: budget ")?;
    append_number(&mut text, budget)?;
    append_str(&mut text, " used up")?;
    append_str(&mut text, "\n")?;
    Ok(text)
}
