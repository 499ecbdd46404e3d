//! A whole file of a model.

ghost use Rattle.std.specs.Prelude.{false};
ghost use Rattle.asm_grammar.specs.Grammar.{Gives, both, either, shown};
ghost use Rattle.asm_tree.specs.Language.{models, after, name};
ghost use Rattle.asm_tree.specs.Language as language;
ghost use Rattle.asm_tree.specs.Units as units;
ghost use Rattle.asm_tree.specs.declared.class.Class.TheVariants as class_is;
ghost use Rattle.asm_body.specs.Reading.{read_in};
ghost use Rattle.asm_body.specs.Seen.{all_seen};

use crate::declaration::declarations;
use crate::definition::{definitions, function_body};
use crate::header::{export, imports};
use asm_body::{Lexeme, any_word, begins, expect, name, read_rule};
use asm_grammar::Stop;
use asm_list::{Boxed, Listed};
use asm_tree::class::Class;
use asm_tree::unit::{
    RawDeclaration, RawDefinition, RawFunction, RawInit, RawMain, RawPath, RawUnit, RawUnitKind,
};
use std::alloc::Global;

#[tactic(auto, unfolding(asm_tree::specs::Units::main_rule))]
fn main_rule(alloc: Global, tokens: &[Lexeme], levels: usize) -> Result<(RawMain, &[Lexeme]), Stop>
    ensures { Gives models (λ x. (x.0, all_seen x.1.now)) result (read_in levels false units.main_rule (all_seen tokens.now)) }
{
    let (_, rest) = expect(tokens, Class::Rule)?;
    let (name, rest) = name(alloc, rest, &[Class::RuleName])?;
    let (_, rest) = expect(rest, Class::Equal)?;
    let (rule, rest) = read_rule(alloc, rest, levels, false)?;
    Ok((RawMain { name, rule }, rest))
}

fn after_main(alloc: Global, tokens: &[Lexeme], levels: usize) -> Result<(RawMain, &[Lexeme]), Stop>
    ensures { Gives models (λ x. (x.0, all_seen x.1.now)) result (read_in levels false (either (after class_is.Macro units.main_rule) units.main_rule) (all_seen tokens.now)) }
{
    if begins(tokens, Class::Macro) {
        let (_, rest) = expect(tokens, Class::Macro)?;
        return main_rule(alloc, rest, levels);
    }
    main_rule(alloc, tokens, levels)
}

#[tactic(auto, unfolding(asm_tree::specs::Units::main))]
fn main(alloc: Global, tokens: &[Lexeme], levels: usize) -> Result<(RawMain, &[Lexeme]), Stop>
    ensures { Gives models (λ x. (x.0, all_seen x.1.now)) result (read_in levels false units.main (all_seen tokens.now)) }
{
    let (_, rest) = expect(tokens, Class::Main)?;
    after_main(alloc, rest, levels)
}

/// The initial values in the order of the text.
fn function_bodies(
    alloc: Global,
    tokens: &[Lexeme],
    levels: usize,
) -> Result<(Listed<RawFunction>, &[Lexeme]), Stop>
    ensures { Gives models (λ x. (x.0, all_seen x.1.now)) result (read_in levels false units.function_bodies (all_seen tokens.now)) }
{
    let mut items = Listed::new(alloc);
    let mut rest = tokens;
    'items: for _turn in 0..tokens.len() {
        if !begins(rest, Class::Function) {
            return Ok((items, rest));
        }
        let (item, after) = function_body(alloc, rest, levels)?;
        items.push(item)?;
        rest = after;
    }
    Ok((items, rest))
}

/// What follows the word `default`.
fn initial_values(
    alloc: Global,
    tokens: &[Lexeme],
    levels: usize,
) -> Result<(RawInit, &[Lexeme]), Stop>
    ensures { Gives models (λ x. (x.0, all_seen x.1.now)) result (read_in levels false (after class_is.Default (after class_is.Init (shown units.init_of (both (name language.words) (after class_is.Colon units.function_bodies))))) (all_seen tokens.now)) }
{
    let (_, rest) = expect(tokens, Class::Default)?;
    let (_, rest) = expect(rest, Class::Init)?;
    let (name, rest) = any_word(alloc, rest)?;
    let (_, rest) = expect(rest, Class::Colon)?;
    let (functions, rest) = function_bodies(alloc, rest, levels)?;
    Ok((RawInit { name, functions }, rest))
}

#[tactic(auto, unfolding(asm_tree::specs::Units::init))]
fn init(
    alloc: Global,
    tokens: &[Lexeme],
    levels: usize,
) -> Result<(Option<RawInit>, &[Lexeme]), Stop>
    ensures { Gives models (λ x. (x.0, all_seen x.1.now)) result (read_in levels false units.init (all_seen tokens.now)) }
{
    if !begins(tokens, Class::Default) {
        return Ok((None, tokens));
    }
    let (init, rest) = initial_values(alloc, tokens, levels)?;
    Ok((Some(init), rest))
}

/// The main rule and the initial values, where they are there.
#[tactic(auto, using(crate::proofs::Opened::closing_is))]
fn closing(
    alloc: Global,
    tokens: &[Lexeme],
    levels: usize,
) -> Result<(Option<RawMain>, Option<RawInit>, &[Lexeme]), Stop>
    ensures { Gives models (λ x. ((x.0, x.1), all_seen x.2.now)) result (read_in levels false units.closing (all_seen tokens.now)) }
{
    if begins(tokens, Class::Main) {
        let (main, rest) = main(alloc, tokens, levels)?;
        let main = Boxed::new(alloc, main)?;
        let (init, rest) = init(alloc, rest, levels)?;
        return Ok((Some(main.into_inner()), init, rest));
    }
    let (init, rest) = init(alloc, tokens, levels)?;
    Ok((None, init, rest))
}

/// What stands behind the name of a file.
#[derive(Drop)]
struct Parts {
    imports: Listed<RawPath>,
    declarations: Listed<RawDeclaration>,
    definitions: Listed<RawDefinition>,
}

/// The imports, declarations and definitions. What is exported is read and let go.
#[tactic(auto, using(crate::proofs::Opened::content_parts), unfolding(asm_tree::specs::Units::content))]
fn content(alloc: Global, tokens: &[Lexeme], levels: usize) -> Result<(Parts, &[Lexeme]), Stop>
    ensures { Gives models (λ x. ((x.0.imports, (x.0.declarations, x.0.definitions)), all_seen x.1.now)) result (read_in levels false units.content (all_seen tokens.now)) }
{
    let (imports, rest) = imports(alloc, tokens)?;
    let (_exported, rest) = export(alloc, rest)?;
    let (_, rest) = expect(rest, Class::Signature)?;
    let (_, rest) = expect(rest, Class::Colon)?;
    let (declarations, rest) = declarations(alloc, rest, levels)?;
    let (_, rest) = expect(rest, Class::Definitions)?;
    let (_, rest) = expect(rest, Class::Colon)?;
    let (definitions, rest) = definitions(alloc, rest, levels)?;
    Ok((
        Parts {
            imports,
            declarations,
            definitions,
        },
        rest,
    ))
}

fn asm(alloc: Global, tokens: &[Lexeme], levels: usize) -> Result<(RawUnit, &[Lexeme]), Stop>
    ensures { Gives models (λ x. (x.0, all_seen x.1.now)) result (read_in levels false (after class_is.Asm (shown units.asm_of (both (name language.words) (both units.content units.closing)))) (all_seen tokens.now)) }
{
    let (_, rest) = expect(tokens, Class::Asm)?;
    let (name, rest) = any_word(alloc, rest)?;
    let (parts, rest) = content(alloc, rest, levels)?;
    let (main, init, rest) = closing(alloc, rest, levels)?;
    Ok((
        RawUnit {
            kind: RawUnitKind::Asm,
            name,
            imports: parts.imports,
            declarations: parts.declarations,
            definitions: parts.definitions,
            main,
            init,
        },
        rest,
    ))
}

fn module(alloc: Global, tokens: &[Lexeme], levels: usize) -> Result<(RawUnit, &[Lexeme]), Stop>
    ensures { Gives models (λ x. (x.0, all_seen x.1.now)) result (read_in levels false (after class_is.Module (shown units.module_of (both (name language.words) units.content))) (all_seen tokens.now)) }
{
    let (_, rest) = expect(tokens, Class::Module)?;
    let (name, rest) = any_word(alloc, rest)?;
    let (parts, rest) = content(alloc, rest, levels)?;
    Ok((
        RawUnit {
            kind: RawUnitKind::Module,
            name,
            imports: parts.imports,
            declarations: parts.declarations,
            definitions: parts.definitions,
            main: None,
            init: None,
        },
        rest,
    ))
}

/// The unit at the front, where so many levels of nesting are left.
#[tactic(auto, unfolding(asm_tree::specs::Units::unit))]
pub fn unit_from(
    alloc: Global,
    tokens: &[Lexeme],
    levels: usize,
) -> Result<(RawUnit, &[Lexeme]), Stop>
    ensures { Gives models (λ x. (x.0, all_seen x.1.now)) result (read_in levels false units.unit (all_seen tokens.now)) }
{
    if begins(tokens, Class::Asm) {
        return asm(alloc, tokens, levels);
    }
    module(alloc, tokens, levels)
}
