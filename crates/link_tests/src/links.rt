ghost use Rattle.std.specs.Prelude.{◌≤◌, length};

use asm_io::{NoFaultShelf, Sources};
use asm_lex::lex;
use asm_node::Model;
use asm_resolve::resolve;
use asm_tree::ParseError;
use asm_unit::load_all;
use ref_link::{Link, LinkError, Links, default_links, links};
use std::alloc::{AllocError, Global};
use std::test::Fail;

// Its functions have the numbers colour 0, go 1, top 2, low 3, hot 4, at 5, sum 6.
pub const ABSTRACT: &str = "asm m
signature:
  enum domain Colour = {RED | GREEN}
  enum domain Spot = {HERE | THERE}
  domain Small subsetof Integer
  controlled colour : Colour
  monitored go : Boolean
  static top : Boolean
  derived low : Boolean
  derived hot : Boolean
  controlled at : Spot -> Boolean
  controlled sum : Small
definitions:
  domain Small = {0:3}
  function top = true
  function low = at(HERE)
  function hot = go
main rule r_Main = skip
default init s0:";

// Its functions have the numbers colour 0, shade 1, go 2, left 3, at 4, by 5, low 6.
pub const CONCRETE: &str = "asm m
signature:
  enum domain Colour = {RED | GREEN}
  enum domain Shade = {DARK | PALE}
  enum domain Spot = {HERE | THERE}
  domain Large subsetof Integer
  controlled colour : Colour
  controlled shade : Shade
  monitored go : Boolean
  controlled left : Large
  controlled at : Spot -> Boolean
  controlled by : Colour -> Boolean
  derived low : Boolean
definitions:
  domain Large = {0:9}
  function low = at(THERE)
main rule r_Main = skip
default init s0:";

// As the first, with the elements of the domain in the other order.
const TURNED: &str = "asm m
signature:
  enum domain Colour = {GREEN | RED}
  controlled colour : Colour
definitions:
main rule r_Main = skip
default init s0:";

// The model of a file of this text, if it is one.
pub fn model_of(alloc: Global, text: &str) -> Option<Model> {
    let mut shelf = NoFaultShelf::new(alloc);
    if shelf.add(alloc, "m.asm", text.as_bytes()).is_err() {
        return None;
    }
    let mut sources = Sources::new(alloc);
    match load_all(alloc, &mut shelf, "m.asm", &mut sources) {
        Ok(units) => match resolve(alloc, &units) {
            Ok(model) => Some(model),
            Err(_error) => None,
        },
        Err(_error) => None,
    }
}

fn error_words(alloc: Global, error: &LinkError) -> Result<String, AllocError> {
    match error {
        LinkError::Parse(ParseError::Syntax(token)) => format!(in alloc; "syntax {token}"),
        LinkError::Parse(_error) => String::from_str(alloc, "another error of reading"),
        LinkError::Unknown(name, at) => format!(in alloc; "unknown {} {at}", name.text()),
        LinkError::WrongKind(name, at) => format!(in alloc; "kind {} {at}", name.text()),
        LinkError::DomainsDiffer(name, at) => format!(in alloc; "domains {} {at}", name.text()),
        LinkError::Memory => String::from_str(alloc, "memory"),
    }
}

fn link_words(alloc: Global, links: &[Link]) -> Result<String, AllocError> {
    let mut words = String::from_str(alloc, "links")?;
    for link in links {
        let (first, second) = (link.abstract_function, link.concrete_function);
        words.push_str(&format!(in alloc; " {first}-{second}")?)?;
    }
    Ok(words)
}

// The links of a link file of this text, or what is wrong with it.
fn read(alloc: Global, text: &str, a: &Model, c: &Model) -> Result<Links, LinkError>
    requires { length text.now ≤ 1048576 }
{
    match lex(alloc, text.as_bytes()) {
        Ok(tokens) => links(alloc, text.as_bytes(), tokens.slice(), a, c),
        Err(_error) => Err(LinkError::Memory),
    }
}

// The same in words.
fn words_of(alloc: Global, text: &str, a: &Model, c: &Model) -> Result<String, AllocError>
    requires { length text.now ≤ 1048576 }
{
    match read(alloc, text, a, c) {
        Ok(links) => link_words(alloc, links.slice()),
        Err(error) => error_words(alloc, &error),
    }
}

// Whether each link file of the two models reads as is wanted.
fn reads_as(
    alloc: Global,
    cases: &[(&str, &str)],
    a: &Model,
    c: &Model,
) -> Result<bool, AllocError> {
    for (text, wanted) in cases {
        if text.len() > 1048576 || words_of(alloc, text, a, c)?.as_str() != *wanted {
            return Ok(false);
        }
    }
    Ok(true)
}

#[test]
fn link_files_are_read(rt: HostRuntime) -> Result<(), Fail> {
    let (Some(a), Some(c)) = (
        model_of(rt.alloc(), ABSTRACT),
        model_of(rt.alloc(), CONCRETE),
    ) else {
        assert!(rt; false);
        return Ok(());
    };
    let cases = [
        ("", "links"),
        ("colour = colour;", "links 0-0"),
        ("go = go; at = at; low = low;", "links 1-2 5-4 3-6"),
        ("sum = left;", "links 6-3"),
        ("colour colour;", "syntax 1"),
        ("colour = colour", "syntax 3"),
        ("tone = colour;", "unknown tone 0"),
        ("colour = tone;", "unknown tone 9"),
        ("top = left;", "kind top 0"),
        ("hot = low;", "kind hot 0"),
        ("go = low;", "kind low 5"),
        ("colour = go;", "kind go 9"),
        ("colour = shade;", "domains colour 0"),
        ("low = low; at = by;", "domains at 11"),
    ];
    assert!(rt; reads_as(rt.alloc(), &cases, &a, &c)?);
    Ok(())
}

#[test]
fn elements_have_an_order(rt: HostRuntime) -> Result<(), Fail> {
    let (Some(a), Some(c)) = (model_of(rt.alloc(), ABSTRACT), model_of(rt.alloc(), TURNED)) else {
        assert!(rt; false);
        return Ok(());
    };
    let cases = [("colour = colour;", "domains colour 0")];
    assert!(rt; reads_as(rt.alloc(), &cases, &a, &c)?);
    Ok(())
}

// The links of two models without a link file, in words.
fn default_words(alloc: Global, a: &Model, c: &Model) -> Result<String, AllocError> {
    link_words(alloc, default_links(alloc, a, c)?.slice())
}

#[test]
fn equal_names_are_linked(rt: HostRuntime) -> Result<(), Fail> {
    let (Some(a), Some(c)) = (
        model_of(rt.alloc(), ABSTRACT),
        model_of(rt.alloc(), CONCRETE),
    ) else {
        assert!(rt; false);
        return Ok(());
    };
    let words = default_words(rt.alloc(), &a, &c)?;
    assert_eq!(rt; words.as_str(), "links 0-0 1-2 3-6 5-4");
    Ok(())
}
