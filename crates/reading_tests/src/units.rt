ghost use Rattle.std.specs.Prelude.{◌≤◌, length};

use asm_io::{NoFaultShelf, Place, Sources};
use asm_lex::{LexError, lex};
use asm_list::{Listed, Name};
use asm_tree::unit::{RawPart, RawPath};
use asm_unit::{
    LoadError, import_name, load_all, load_one, load_unit, normalised, reads_no_file, unit,
};
use std::alloc::Global;
use std::test::Fail;

#[test]
fn names_have_a_normal_form(rt: HostRuntime) -> Result<(), Fail> {
    for (name, wanted) in [
        ("a.asm", "a.asm"),
        ("./a//b/../c.asm", "a/c.asm"),
        ("/a/./b", "/a/b"),
        ("a/../../b", "../b"),
        ("/../a", "a"),
    ] {
        assert_eq!(rt; normalised(rt.alloc(), name)?.text(), wanted);
    }
    Ok(())
}

// A path of these words, of which `.` and `..` stand for themselves, and with an ending where one is given.
fn path(alloc: Global, words: &[&str], ending: &str) -> Result<RawPath, Fail> {
    let mut parts = Listed::new(alloc);
    for word in words {
        let part = match *word {
            "." => RawPart::Here,
            ".." => RawPart::Above,
            word => RawPart::Word(Name::of(alloc, word)?),
        };
        parts.push(part)?;
    }
    if !ending.is_empty() {
        parts.push(RawPart::Dotted(Name::of(alloc, "z")?, Name::of(alloc, ending)?))?;
    }
    Ok(RawPath { at: 0, parts })
}

#[test]
fn imports_are_found_from_their_file(rt: HostRuntime) -> Result<(), Fail> {
    let alloc = rt.alloc();
    for (from, words, ending, wanted) in [
        ("a.asm", ["b", "c"].as_slice(), "", "b/c.asm"),
        ("x/a.asm", ["..", "c"].as_slice(), "", "c.asm"),
        ("x/a.asm", [".", "c"].as_slice(), "model", "x/c/z.model"),
        ("/a", [".."].as_slice(), "", ".asm"),
        ("a", [".."].as_slice(), "", ".."),
    ] {
        let name = import_name(alloc, from, &path(alloc, words, ending)?)?;
        assert_eq!(rt; name.text(), wanted);
    }
    assert!(rt; reads_no_file(&path(alloc, &["..", "StandardLibrary"], "")?));
    assert!(rt; !reads_no_file(&path(alloc, &["StandardLibrary", "a"], "")?));
    Ok(())
}

fn refusal(alloc: Global, shelf: &mut NoFaultShelf, name: &str) -> Option<LoadError> {
    let mut sources = Sources::new(alloc);
    match load_one(alloc, shelf, name, 8, &mut sources) {
        Ok(_tokens) => None,
        Err(error) => Some(error),
    }
}

#[test]
fn one_file_is_read(rt: HostRuntime) -> Result<(), Fail> {
    let alloc = rt.alloc();
    let mut shelf = NoFaultShelf::new(alloc);
    shelf.add(alloc, "a/b", b"x := 1")?;
    shelf.add(alloc, "long", b"xxxxxxxxx")?;
    shelf.add(alloc, "bad", b"x #")?;
    let mut sources = Sources::new(alloc);
    let read = load_one(alloc, &mut shelf, "a/./b", 8, &mut sources);
    assert!(rt; matches!(&read, Ok(tokens) if tokens.len() == 3));
    assert_eq!(rt; sources.len(), 1);
    let long = refusal(alloc, &mut shelf, "long");
    assert!(rt; matches!(&long, Some(LoadError::TooLong(_name))));
    let absent = refusal(alloc, &mut shelf, "b/../c");
    assert!(rt; matches!(&absent, Some(LoadError::Absent(_name))));
    let bad = refusal(alloc, &mut shelf, "bad");
    let place = Place { file: 0, at: 2 };
    assert!(rt; matches!(&bad, Some(LoadError::Lex(at, LexError::BadByte(2))) if *at == place));
    Ok(())
}

/// How many imports the unit of this text has, if it is one.
fn imports_in(alloc: Global, text: &[u8]) -> Option<usize>
    requires { length text.now ≤ 1048576 }
{
    match lex(alloc, text) {
        Ok(tokens) => match unit(alloc, text, tokens.slice()) {
            Ok(unit) => Some(unit.imports.len()),
            Err(_error) => None,
        },
        Err(_error) => None,
    }
}

/// How many imports the unit of this file has, if it is one.
fn imports_of(alloc: Global, shelf: &mut NoFaultShelf, name: &str) -> Option<usize> {
    let mut sources = Sources::new(alloc);
    match load_unit(alloc, shelf, name, &mut sources) {
        Ok(unit) => Some(unit.get().imports.len()),
        Err(_error) => None,
    }
}

/// How many units the model of this file has, if all its files are units.
fn units_of(alloc: Global, shelf: &mut NoFaultShelf, name: &str) -> Option<usize> {
    let mut sources = Sources::new(alloc);
    match load_all(alloc, shelf, name, &mut sources) {
        Ok(units) => Some(units.len()),
        Err(_error) => None,
    }
}

#[test]
fn texts_and_files_are_units(rt: HostRuntime) -> Result<(), Fail> {
    let alloc = rt.alloc();
    let one = b"asm t import u import v signature: definitions:".as_slice();
    assert_eq!(rt; imports_in(alloc, one), Some(2));
    assert_eq!(rt; imports_in(alloc, b"asm t import"), None);
    let mut shelf = NoFaultShelf::new(alloc);
    shelf.add(alloc, "t.asm", one)?;
    shelf.add(alloc, "u.asm", b"module u import v signature: definitions:")?;
    assert_eq!(rt; imports_of(alloc, &mut shelf, "./t.asm"), Some(2));
    assert_eq!(rt; units_of(alloc, &mut shelf, "t.asm"), None);
    shelf.add(alloc, "v.asm", b"module v signature: definitions:")?;
    assert_eq!(rt; units_of(alloc, &mut shelf, "t.asm"), Some(3));
    Ok(())
}
