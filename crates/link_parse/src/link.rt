//! Links, and a whole link file.

ghost use Rattle.std.specs.Prelude.{◌≡◌, true};
ghost use Rattle.asm_grammar.specs.Grammar.{Gives, many, has, ahead, firsts};
ghost use Rattle.asm_grammar.specs.Whole.{GivesWhole, whole_at};
ghost use Rattle.asm_tree.specs.Language.{models};
ghost use Rattle.asm_tree.specs.Rules.{body};
ghost use Rattle.asm_tree.specs.Spelling.{limit};
ghost use Rattle.asm_body.specs.Reading.{read_flat, read_in};
ghost use Rattle.asm_body.specs.Seen.{all_seen};
ghost use Rattle.link_parse.specs.Links as language;

use crate::tree::{RawLink, RawLinks};
use asm_body::{Lexeme, begins_among, expect, functions, name};
use asm_grammar::Stop;
use asm_list::Listed;
use asm_tree::class::Class;
use std::alloc::Global;

/// The greatest nesting.
const LIMIT: usize = 64;

/// One link.
#[tactic(auto, unfolding(crate::specs::Links::link))]
fn link(alloc: Global, tokens: &[Lexeme]) -> Result<(RawLink, &[Lexeme]), Stop>
    ensures { Gives models (λ x. (x.0, all_seen x.1.now)) result (read_flat language.link (all_seen tokens.now)) }
{
    let (abstract_function, rest) = name(alloc, tokens, functions(false))?;
    let (_, rest) = expect(rest, Class::Equal)?;
    let (concrete_function, rest) = name(alloc, rest, functions(false))?;
    let (_, rest) = expect(rest, Class::Semicolon)?;
    Ok((
        RawLink {
            abstract_function,
            concrete_function,
        },
        rest,
    ))
}

#[tactic(auto, using(crate::proofs::Firsts::begins_link_is))]
fn begins_link(tokens: &[Lexeme]) -> bool
    ensures { result ≡ has (ahead models (all_seen tokens.now) 0) (firsts models language.link) }
{
    begins_among(tokens, functions(false))
}

/// The links in the order of the text.
fn links(alloc: Global, tokens: &[Lexeme]) -> Result<(Listed<RawLink>, &[Lexeme]), Stop>
    ensures { Gives models (λ x. (x.0, all_seen x.1.now)) result (read_flat (many language.link) (all_seen tokens.now)) }
{
    let mut items = Listed::new(alloc);
    let mut rest = tokens;
    'items: for _turn in 0..tokens.len() {
        if !begins_link(rest) {
            return Ok((items, rest));
        }
        let (item, after) = link(alloc, rest)?;
        items.push(item)?;
        rest = after;
    }
    Ok((items, rest))
}

/// The links of a link file at the front, whatever number of levels of nesting is left: a link opens none.
#[tactic(auto, using(crate::proofs::Firsts::links_are))]
fn links_from(
    alloc: Global,
    tokens: &[Lexeme],
    levels: usize,
) -> Result<(RawLinks, &[Lexeme]), Stop>
    ensures { Gives models (λ x. (x.0, all_seen x.1.now)) result (read_in levels true language.links (all_seen tokens.now)) }
{
    let (links, rest) = links(alloc, tokens)?;
    Ok((RawLinks { links }, rest))
}

/// The links that the tokens are.
#[tactic(auto, using(whole_file::proofs::Ending::endings), unfolding(asm_grammar::specs::Whole::whole_at))]
pub fn whole_links(alloc: Global, tokens: &[Lexeme]) -> Result<RawLinks, Stop>
    ensures { GivesWhole result (whole_at models (body true) language.links limit (all_seen tokens.now)) }
{
    let (links, rest) = links_from(alloc, tokens, LIMIT)?;
    if rest.is_empty() {
        Ok(links)
    } else {
        Err(Stop::Syntax(rest.len()))
    }
}
