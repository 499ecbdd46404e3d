//! The lines of links.
ghost use Rattle.std.specs.Prelude.{◌≡◌, ◌++◌, OnOk, flat_map};
ghost use Rattle.asm_source.specs.Appends.{Appends};
ghost use Rattle.ref_report.specs.Texts as spec;

use crate::linked::LinkedModels;
use asm_sign::Signature;
use asm_source::{Text, append_str};
use asm_text::function_name;
use ref_link::Link;
use std::alloc::{AllocError, Global};

/// Appends a line for each link in order, or that there is none.
#[tactic(auto, using(asm_source::proofs::Appending::appends_whole))]
pub fn print_links(
    alloc: Global,
    linked: &LinkedModels<'_>,
    out: &mut Text,
) -> Result<(), AllocError>
    ensures { Appends out.old out.new (spec.links_text (spec.linking linked.now)) result }
{
    let mut text = Text::new(alloc);
    append_links(linked, &mut text)?;
    out.extend(text.slice())
}

/// Appends the same to a text of the caller's own.
pub fn append_links(linked: &LinkedModels<'_>, text: &mut Text) -> Result<(), AllocError>
    ensures { OnOk result (text.new ≡ text.old ++ spec.links_text (spec.linking linked.now)) }
{
    let a = linked.abstract_model.signature();
    let c = linked.concrete_model.signature();
    if linked.links.is_empty() {
        return append_str(text, "no links\n");
    }
    append_all(a, c, linked.links, text)
}

/// Appends a line for each link in order.
fn append_all(
    a: &Signature,
    c: &Signature,
    links: &[Link],
    text: &mut Text,
) -> Result<(), AllocError>
    ensures { OnOk result (text.new ≡ text.old ++ flat_map (spec.link_line a.now c.now) links.now) }
{
    'links: for link in links {
        append_link(a, c, *link, text)?;
    }
    Ok(())
}

/// Appends the line of a link.
fn append_link(a: &Signature, c: &Signature, link: Link, text: &mut Text) -> Result<(), AllocError>
    ensures { OnOk result (text.new ≡ text.old ++ spec.link_line a.now c.now link) }
{
    append_str(text, "link ")?;
    append_str(text, function_name(a, link.abstract_function))?;
    append_str(text, " = ")?;
    append_str(text, function_name(c, link.concrete_function))?;
    append_str(text, "\n")
}
