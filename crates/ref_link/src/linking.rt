//! The links of a link file, and those of two models without one.
ghost use Rattle.std.specs.Prelude.{◌≡◌, ◌<◌, ◌^◌, ◌++◌, length, Some, Ok, IfOk, OnOk};
ghost use Rattle.asm_lex.specs.Cut.{cut};
ghost use Rattle.asm_node.specs.Model.{machine_of};
ghost use Rattle.ref_link.specs.Linkable as linkable;
ghost use Rattle.ref_link.specs.Linked as spec;
ghost use Rattle.ref_link.specs.Linked.{Gives, GivesLink, Tells};
ghost use Rattle.ref_link.specs.declared.error.LinkError.TheVariants as linked_error;

use crate::domains::agree_on_domains;
use crate::error::LinkError;
use crate::link::{Link, Links};
use crate::side::Side;
use asm_lex::Token;
use asm_list::{Listed, Name};
use asm_node::Model;
use asm_tree::ParseError;
use asm_tree::term::RawName;
use link_parse::{RawLink, link_file};
use std::alloc::{AllocError, Global};

/// The links of a link file, or what is wrong with it first: a token with which no link file goes on; then link by link an
/// unknown name, a function of the wrong kind, and domains that differ.
pub fn links(
    alloc: Global,
    text: &[u8],
    tokens: &[Token],
    a: &Model,
    c: &Model,
) -> Result<Links, LinkError>
    requires together { cut text.now ≡ Ok tokens.now }
    requires small { length text.now < 2 ^ 31 }
    ensures gives { Gives result (spec.links_in (machine_of a.now) (machine_of c.now) text.now tokens.now) }
{
    match link_file(alloc, text, tokens) {
        Ok(raw) => linked(alloc, raw.links.slice(), a, c),
        Err(ParseError::Memory) => Err(LinkError::Memory),
        Err(error) => Err(LinkError::Parse(error)),
    }
}

/// The links of functions of one name that may be linked, in the order of the abstract model.
pub fn default_links(alloc: Global, a: &Model, c: &Model) -> Result<Links, AllocError>
    ensures links { IfOk result (λ links. links ≡ spec.links_without_file (machine_of a.now) (machine_of c.now)) }
{
    let abstract_side = Side::new(alloc, a)?;
    let concrete_side = Side::new(alloc, c)?;
    links_by_name(alloc, &abstract_side, &concrete_side)
}

/// The links that those of a file are.
fn linked(alloc: Global, raws: &[RawLink], a: &Model, c: &Model) -> Result<Links, LinkError>
    ensures { Gives result (spec.links_of (machine_of a.now) (machine_of c.now) raws.now) }
{
    let abstract_side = Side::new(alloc, a)?;
    let concrete_side = Side::new(alloc, c)?;
    all_links(alloc, raws, &abstract_side, &concrete_side)
}

/// The links that those of a file are, where none is wrong.
fn all_links(
    alloc: Global,
    raws: &[RawLink],
    a: &Side<'_>,
    c: &Side<'_>,
) -> Result<Links, LinkError>
    ensures { Gives result (spec.links_of a.now c.now raws.now) }
{
    let mut links = Listed::new(alloc);
    for raw in raws {
        let link = one_link(alloc, raw, a, c)?;
        links.push(link)?;
    }
    Ok(links)
}

/// The link that one of a file is.
fn one_link(alloc: Global, raw: &RawLink, a: &Side<'_>, c: &Side<'_>) -> Result<Link, LinkError>
    ensures { GivesLink result (spec.link_of a.now c.now raw.now) }
{
    match a.function_of_name(&raw.abstract_function.text) {
        Some(first) => link_with(alloc, raw, a, c, first),
        None => Err(unknown(alloc, &raw.abstract_function)),
    }
}

/// The same where the function of the abstract model is known.
fn link_with(
    alloc: Global,
    raw: &RawLink,
    a: &Side<'_>,
    c: &Side<'_>,
    first: u32,
) -> Result<Link, LinkError>
    ensures { GivesLink result (spec.joined_with a.now c.now raw.now first (spec.function_of_name c.now raw.now.concrete_function.text)) }
{
    match c.function_of_name(&raw.concrete_function.text) {
        Some(second) => joined(alloc, raw, a, c, first, second),
        None => Err(unknown(alloc, &raw.concrete_function)),
    }
}

/// The same where both functions are known.
fn joined(
    alloc: Global,
    raw: &RawLink,
    a: &Side<'_>,
    c: &Side<'_>,
    first: u32,
    second: u32,
) -> Result<Link, LinkError>
    ensures { GivesLink result (spec.joined a.now c.now raw.now first second) }
{
    if !may_be_linked(a, first) {
        return Err(wrong_kind(alloc, &raw.abstract_function));
    }
    if !fits(a, c, first, second) {
        return Err(wrong_kind(alloc, &raw.concrete_function));
    }
    if !agree_on_domains(a, c, first, second) {
        return Err(domains_differ(alloc, &raw.abstract_function));
    }
    Ok(Link {
        abstract_function: first,
        concrete_function: second,
    })
}

fn may_be_linked(a: &Side<'_>, first: u32) -> bool
    ensures { result ≡ linkable.may_be_linked a.now first }
{
    a.is_input(first) || a.is_of_state(first)
}

fn fits(a: &Side<'_>, c: &Side<'_>, first: u32, second: u32) -> bool
    ensures { result ≡ linkable.fits a.now c.now first second }
{
    if a.is_input(first) {
        c.is_input(second)
    } else {
        c.is_of_state(second)
    }
}

fn unknown(alloc: Global, name: &RawName) -> LinkError
    ensures { Tells (λ text at. linked_error.Unknown text at) result name.now }
{
    match Name::of(alloc, name.text.text()) {
        Ok(text) => LinkError::Unknown(text, name.at),
        Err(_) => LinkError::Memory,
    }
}

fn wrong_kind(alloc: Global, name: &RawName) -> LinkError
    ensures { Tells (λ text at. linked_error.WrongKind text at) result name.now }
{
    match Name::of(alloc, name.text.text()) {
        Ok(text) => LinkError::WrongKind(text, name.at),
        Err(_) => LinkError::Memory,
    }
}

fn domains_differ(alloc: Global, name: &RawName) -> LinkError
    ensures { Tells (λ text at. linked_error.DomainsDiffer text at) result name.now }
{
    match Name::of(alloc, name.text.text()) {
        Ok(text) => LinkError::DomainsDiffer(text, name.at),
        Err(_) => LinkError::Memory,
    }
}

/// The links of functions of one name that may be linked.
fn links_by_name(alloc: Global, a: &Side<'_>, c: &Side<'_>) -> Result<Links, AllocError>
    ensures { IfOk result (λ links. links ≡ spec.links_without_file a.now c.now) }
{
    let mut links = Listed::new(alloc);
    for (number, function) in a.functions().iter().enumerate() {
        add_default(&mut links, a, c, number as u32, &function.name)?;
    }
    Ok(links)
}

fn add_default(
    links: &mut Links,
    a: &Side<'_>,
    c: &Side<'_>,
    first: u32,
    name: &Name,
) -> Result<(), AllocError>
    ensures { OnOk result (links.new ≡ links.old ++ spec.default_with a.now c.now first (spec.function_of_name c.now name.now)) }
{
    match c.function_of_name(name) {
        Some(second) => add_linkable(links, a, c, first, second),
        None => Ok(()),
    }
}

fn add_linkable(
    links: &mut Links,
    a: &Side<'_>,
    c: &Side<'_>,
    first: u32,
    second: u32,
) -> Result<(), AllocError>
    ensures { OnOk result (links.new ≡ links.old ++ spec.default_with a.now c.now first (Some second)) }
{
    if !is_linkable(a, c, first, second) {
        return Ok(());
    }
    links.push(Link {
        abstract_function: first,
        concrete_function: second,
    })
}

fn is_linkable(a: &Side<'_>, c: &Side<'_>, first: u32, second: u32) -> bool
    ensures { result ≡ linkable.is_linkable a.now c.now first second }
{
    may_be_linked(a, first) && (fits(a, c, first, second) && agree_on_domains(a, c, first, second))
}
