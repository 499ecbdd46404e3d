//! Names of files.
ghost use Rattle.std.specs.Prelude.{◌≡◌, ◌==◌, ◌++◌, ◌∷◌, [], map, IfOk, OnOk};
ghost use Rattle.std.specs.String.{string_bytes};
ghost use Rattle.asm_unit.specs.Path as path;
ghost use Rattle.asm_unit.specs.Path.{texts};

use asm_list::Name;
use std::alloc::{AllocError, Global};

/// The name without empty parts but a leading one, without `.`, and with each `..` taken back where a part stands before it.
pub fn normalised(alloc: Global, name: &str) -> Result<Name, AllocError>
    ensures { IfOk result (λ n. n ≡ path.normalised name.now) }
{
    let parts = parts_of(alloc, name)?;
    let kept = kept_parts(alloc, &parts)?;
    let text = joined(alloc, &kept)?;
    Name::of(alloc, &text)
}

/// The parts between `/`.
pub fn parts_of(alloc: Global, name: &str) -> Result<Vec<&str>, AllocError>
    ensures { IfOk result (λ v. texts v.items ≡ path.name_parts name.now) }
{
    name.split('/').collect(alloc)
}

/// The parts that stay.
pub fn kept_parts<'a>(alloc: Global, parts: &[&'a str]) -> Result<Vec<&'a str>, AllocError>
    ensures { IfOk result (λ v. texts v.items ≡ path.kept_parts (texts parts.now)) }
{
    let mut stack = Vec::new(alloc);
    let Some((first, more)) = parts.split_first() else {
        return Ok(stack);
    };
    if first.is_empty() {
        push(&mut stack, first)?;
    } else {
        keep(&mut stack, first)?;
    }
    'parts: for part in more {
        keep(&mut stack, part)?;
    }
    Ok(stack)
}

pub fn push<'a>(stack: &mut Vec<&'a str>, part: &'a str) -> Result<(), AllocError>
    ensures { OnOk result (texts stack.new.items ≡ texts stack.old.items ++ part.now ∷ []) }
{
    stack.push(part)?;
    Ok(())
}

/// Keeps a part, or takes the last one back.
fn keep<'a>(stack: &mut Vec<&'a str>, part: &'a str) -> Result<(), AllocError>
    ensures { OnOk result (texts stack.new.items ≡ path.keep (texts stack.old.items) part.now) }
{
    if part.is_empty() || part == "." {
        return Ok(());
    }
    if part == ".." && ends_below(stack) {
        stack.pop();
        return Ok(());
    }
    push(stack, part)
}

/// Whether the last part is there and isn't `..`.
fn ends_below(stack: &[&str]) -> bool
    ensures { result ≡ path.ends_below (texts stack.now) }
{
    match stack.last() {
        Some(last) => *last != "..",
        None => false,
    }
}

/// The parts with `/` between each two.
pub fn joined(alloc: Global, parts: &[&str]) -> Result<String, AllocError>
    ensures { IfOk result (λ text. string_bytes text ≡ path.joined (texts parts.now)) }
{
    let mut text = String::new(alloc);
    let Some((first, more)) = parts.split_first() else {
        return Ok(text);
    };
    text.push_str(first)?;
    'parts: for part in more {
        text.push_str("/")?;
        text.push_str(part)?;
    }
    Ok(text)
}
