//! Settings of locations.

ghost use Rattle.std.specs.Prelude.{◌≡◌, true};
ghost use Rattle.asm_grammar.specs.Grammar.{Gives, has, ahead, firsts};
ghost use Rattle.asm_tree.specs.Language.{models, after, before};
ghost use Rattle.asm_tree.specs.Rules as rules;
ghost use Rattle.asm_tree.specs.Scripts as scripts;
ghost use Rattle.asm_tree.specs.declared.class.Class.TheVariants as class_is;
ghost use Rattle.asm_body.specs.Reading.{read_flat, read_in};
ghost use Rattle.asm_body.specs.Seen.{all_seen};

use crate::constant::{constant, constants};
use asm_body::{Lexeme, begins, expect, functions, name};
use asm_grammar::Stop;
use asm_list::Listed;
use asm_tree::class::Class;
use asm_tree::script::{RawConstant, RawSet};
use std::alloc::Global;

/// What a location is set to, up to the `;` behind it.
fn value(alloc: Global, tokens: &[Lexeme]) -> Result<(RawConstant, &[Lexeme]), Stop>
    ensures { Gives models (λ x. (x.0, all_seen x.1.now)) result (read_flat (after class_is.Assign (before (rules.constant true) class_is.Semicolon)) (all_seen tokens.now)) }
{
    let (_, rest) = expect(tokens, Class::Assign)?;
    let (value, rest) = constant(alloc, rest)?;
    let (_, rest) = expect(rest, Class::Semicolon)?;
    Ok((value, rest))
}

#[tactic(auto, using(crate::proofs::Opened::setting_is))]
pub fn setting(alloc: Global, tokens: &[Lexeme], levels: usize) -> Result<(RawSet, &[Lexeme]), Stop>
    ensures { Gives models (λ x. (x.0, all_seen x.1.now)) result (read_in levels true scripts.setting (all_seen tokens.now)) }
{
    let (_, rest) = expect(tokens, Class::Set)?;
    let (name, rest) = name(alloc, rest, functions(true))?;
    let (arguments, rest) = constants(alloc, rest, levels)?;
    let (value, rest) = value(alloc, rest)?;
    Ok((
        RawSet {
            name,
            arguments,
            value,
        },
        rest,
    ))
}

#[tactic(auto, using(crate::proofs::Firsts::begins_setting_is))]
fn begins_setting(tokens: &[Lexeme]) -> bool
    ensures { result ≡ has (ahead models (all_seen tokens.now) 0) (firsts models scripts.setting) }
{
    begins(tokens, Class::Set)
}

/// The settings in the order of the text.
pub fn settings(
    alloc: Global,
    tokens: &[Lexeme],
    levels: usize,
) -> Result<(Listed<RawSet>, &[Lexeme]), Stop>
    ensures { Gives models (λ x. (x.0, all_seen x.1.now)) result (read_in levels true scripts.settings (all_seen tokens.now)) }
{
    let mut items = Listed::new(alloc);
    let mut rest = tokens;
    'items: for _turn in 0..tokens.len() {
        if !begins_setting(rest) {
            return Ok((items, rest));
        }
        let (item, after) = setting(alloc, rest, levels)?;
        items.push(item)?;
        rest = after;
    }
    Ok((items, rest))
}
