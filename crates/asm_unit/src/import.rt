//! Which file an import names.
ghost use Rattle.std.specs.Prelude.{◌≡◌, ◌==◌, ◌++◌, ◌∷◌, [], map, IfOk, OnOk};
ghost use Rattle.std.specs.List.{list_any};
ghost use Rattle.std.specs.String.{string_bytes};
ghost use Rattle.asm_unit.specs.Import as import;
ghost use Rattle.asm_unit.specs.Path.{texts};

use crate::path::{joined, kept_parts, parts_of, push};
use asm_list::{Listed, Name};
use asm_tree::unit::{RawPart, RawPath};
use std::alloc::{AllocError, Global};

/// The name of the file that a path names, in a file of the name `from`.
pub fn import_name(alloc: Global, from: &str, path: &RawPath) -> Result<Name, AllocError>
    ensures { IfOk result (λ name. name ≡ import.import_name from.now path.now) }
{
    let names = part_texts(alloc, path.parts.slice())?;
    let mut parts = parts_of(alloc, from)?;
    parts.pop();
    append(&mut parts, names.slice())?;
    let kept = kept_parts(alloc, &parts)?;
    let mut text = joined(alloc, &kept)?;
    text.push_str(ending(&kept))?;
    Name::of(alloc, &text)
}

/// Whether the path names a standard library, which is no file.
pub fn reads_no_file(path: &RawPath) -> bool
    ensures { result ≡ import.reads_no_file path.now }
{
    match path.parts.slice().last() {
        Some(last) => is_standard(last),
        None => false,
    }
}

fn is_standard(part: &RawPart) -> bool
    ensures { result ≡ import.is_standard part.now }
{
    match part {
        RawPart::Here => false,
        RawPart::Above => false,
        RawPart::Word(word) => is_library(word.text()),
        RawPart::Dotted(word, ending) => is_library(word.text()) && ending.text() == "asm",
    }
}

fn is_library(word: &str) -> bool
    ensures { result ≡ import.is_library word.now }
{
    word == "StandardLibrary" || word == "CTLLibrary"
}

/// The parts as they are written.
fn part_texts(alloc: Global, parts: &[RawPart]) -> Result<Listed<Name>, AllocError>
    ensures { IfOk result (λ names. names ≡ map import.part_text parts.now) }
{
    let mut names = Listed::new(alloc);
    'parts: for part in parts {
        names.push(part_text(alloc, part)?)?;
    }
    Ok(names)
}

fn part_text(alloc: Global, part: &RawPart) -> Result<Name, AllocError>
    ensures { IfOk result (λ name. name ≡ import.part_text part.now) }
{
    match part {
        RawPart::Here => Name::of(alloc, "."),
        RawPart::Above => Name::of(alloc, ".."),
        RawPart::Word(word) => Name::of(alloc, word.text()),
        RawPart::Dotted(word, ending) => dotted(alloc, word.text(), ending.text()),
    }
}

/// Two words with `.` between them.
fn dotted(alloc: Global, word: &str, ending: &str) -> Result<Name, AllocError>
    ensures { IfOk result (λ name. name ≡ word.now ++ 46 ∷ ending.now) }
{
    let mut text = String::from_str(alloc, word)?;
    text.push_str(".")?;
    text.push_str(ending)?;
    Name::of(alloc, &text)
}

/// Adds parts at the end.
fn append<'a>(parts: &mut Vec<&'a str>, names: &'a [Name]) -> Result<(), AllocError>
    ensures { OnOk result (texts parts.new.items ≡ texts parts.old.items ++ names.now) }
{
    'names: for name in names {
        push(parts, name.text())?;
    }
    Ok(())
}

/// `.asm`, where the last part has no `.`.
fn ending(parts: &[&str]) -> &'static str
    ensures { result.now ≡ import.ending (texts parts.now) }
{
    match parts.last() {
        Some(last) if has_dot(last) => "",
        _ => ".asm",
    }
}

fn has_dot(part: &str) -> bool
    ensures { result ≡ list_any (λ b. b == 46) part.now }
{
    part.as_bytes().iter().any(|byte| *byte == b'.')
}
