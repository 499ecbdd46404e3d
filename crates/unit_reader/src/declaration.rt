//! Declarations of domains and functions.

ghost use Rattle.std.specs.Prelude.{◌≡◌, [], ◌∷◌, false};
ghost use Rattle.asm_grammar.specs.Grammar.{Gives, both, opening, shown, word, has, ahead, firsts};
ghost use Rattle.asm_grammar.proofs.Loops.{with_front};
ghost use Rattle.asm_tree.specs.Language.{models, after, name, Product};
ghost use Rattle.asm_tree.specs.Language as language;
ghost use Rattle.asm_tree.specs.Words.{kind_of};
ghost use Rattle.asm_tree.specs.Units as units;
ghost use Rattle.asm_tree.specs.Rules as rules;
ghost use Rattle.asm_tree.specs.declared.class.Class.TheVariants as class_is;
ghost use Rattle.asm_body.specs.Reading.{read_flat, read_in};
ghost use Rattle.asm_body.specs.Seen.{all_seen};

use asm_body::{
    Lexeme, begins, begins_among, domains, enter, expect, expect_among, functions, name,
};
use asm_grammar::Stop;
use asm_list::Listed;
use asm_tree::class::Class;
use asm_tree::term::RawName;
use asm_tree::unit::{RawDeclaration, RawFunctionKind};
use std::alloc::Global;

fn further_element(alloc: Global, tokens: &[Lexeme]) -> Result<(RawName, &[Lexeme]), Stop>
    ensures { Gives models (λ x. (x.0, all_seen x.1.now)) result (read_flat (shown (λ p. p.1) (both (word (kind_of class_is.Bar ∷ kind_of class_is.Comma ∷ [])) (name language.elements))) (all_seen tokens.now)) }
{
    let (_, rest) = expect_among(tokens, &[Class::Bar, Class::Comma])?;
    name(alloc, rest, &[Class::ElementName])
}

fn begins_further(tokens: &[Lexeme]) -> bool
    ensures { result ≡ has (ahead models (all_seen tokens.now) 0) (kind_of class_is.Bar ∷ kind_of class_is.Comma ∷ []) }
{
    begins_among(tokens, &[Class::Bar, Class::Comma])
}

/// The first element and those that follow.
fn more_elements(
    alloc: Global,
    first: RawName,
    tokens: &[Lexeme],
) -> Result<(Listed<RawName>, &[Lexeme]), Stop>
    ensures { Gives models (λ x. (x.0, all_seen x.1.now)) result (with_front models (first ∷ []) (read_flat units.more_elements (all_seen tokens.now))) }
{
    let mut items = Listed::new(alloc);
    items.push(first)?;
    let mut rest = tokens;
    'items: for _turn in 0..tokens.len() {
        if !begins_further(rest) {
            return Ok((items, rest));
        }
        let (item, after) = further_element(alloc, rest)?;
        items.push(item)?;
        rest = after;
    }
    Ok((items, rest))
}

#[tactic(auto, unfolding(asm_tree::specs::Units::enumeration))]
fn enumeration(alloc: Global, tokens: &[Lexeme]) -> Result<(RawDeclaration, &[Lexeme]), Stop>
    ensures { Gives models (λ x. (x.0, all_seen x.1.now)) result (read_flat units.enumeration (all_seen tokens.now)) }
{
    let (_, rest) = expect(tokens, Class::Enum)?;
    let (_, rest) = expect(rest, Class::Domain)?;
    let (domain, rest) = name(alloc, rest, domains())?;
    let (_, rest) = expect(rest, Class::Equal)?;
    let (_, rest) = expect(rest, Class::OpenBrace)?;
    let (first, rest) = name(alloc, rest, &[Class::ElementName])?;
    let (elements, rest) = more_elements(alloc, first, rest)?;
    let (_, rest) = expect(rest, Class::CloseBrace)?;
    Ok((RawDeclaration::Enumeration(domain, elements), rest))
}

#[tactic(auto, unfolding(asm_tree::specs::Units::subset))]
fn subset(alloc: Global, tokens: &[Lexeme]) -> Result<(RawDeclaration, &[Lexeme]), Stop>
    ensures { Gives models (λ x. (x.0, all_seen x.1.now)) result (read_flat units.subset (all_seen tokens.now)) }
{
    let (_, rest) = expect(tokens, Class::Domain)?;
    let (domain, rest) = name(alloc, rest, domains())?;
    let (_, rest) = expect(rest, Class::SubsetOf)?;
    let (whole, rest) = name(alloc, rest, domains())?;
    Ok((RawDeclaration::Subset(domain, whole), rest))
}

#[tactic(auto, unfolding(asm_tree::specs::Units::abstract_domain))]
fn abstract_domain(alloc: Global, tokens: &[Lexeme]) -> Result<(RawDeclaration, &[Lexeme]), Stop>
    ensures { Gives models (λ x. (x.0, all_seen x.1.now)) result (read_flat units.abstract_domain (all_seen tokens.now)) }
{
    let (_, rest) = expect(tokens, Class::Abstract)?;
    let (_, rest) = expect(rest, Class::Domain)?;
    let (domain, rest) = name(alloc, rest, domains())?;
    Ok((RawDeclaration::Abstract(domain), rest))
}

#[tactic(auto, unfolding(asm_tree::specs::Units::dynamic_kind))]
fn dynamic_kind(tokens: &[Lexeme]) -> Result<(RawFunctionKind, &[Lexeme]), Stop>
    ensures { Gives models (λ x. (x.0, all_seen x.1.now)) result (read_flat units.dynamic_kind (all_seen tokens.now)) }
{
    if begins(tokens, Class::Controlled) {
        let (_, rest) = expect(tokens, Class::Controlled)?;
        return Ok((RawFunctionKind::Controlled, rest));
    }
    if begins(tokens, Class::Monitored) {
        let (_, rest) = expect(tokens, Class::Monitored)?;
        return Ok((RawFunctionKind::Monitored, rest));
    }
    if begins(tokens, Class::Shared) {
        let (_, rest) = expect(tokens, Class::Shared)?;
        return Ok((RawFunctionKind::Shared, rest));
    }
    let (_, rest) = expect(tokens, Class::Out)?;
    Ok((RawFunctionKind::Out, rest))
}

#[tactic(auto, using(crate::proofs::Firsts::begins_dynamic_is))]
fn begins_dynamic(tokens: &[Lexeme]) -> bool
    ensures { result ≡ has (ahead models (all_seen tokens.now) 0) (firsts models units.dynamic_kind) }
{
    begins_among(
        tokens,
        &[
            Class::Controlled,
            Class::Monitored,
            Class::Shared,
            Class::Out,
        ],
    )
}

#[tactic(auto, unfolding(asm_tree::specs::Units::function_kinds))]
fn function_kind(tokens: &[Lexeme]) -> Result<(RawFunctionKind, &[Lexeme]), Stop>
    ensures { Gives models (λ x. (x.0, all_seen x.1.now)) result (read_flat units.function_kinds (all_seen tokens.now)) }
{
    if begins(tokens, Class::Dynamic) {
        let (_, rest) = expect(tokens, Class::Dynamic)?;
        return dynamic_kind(rest);
    }
    if begins_dynamic(tokens) {
        return dynamic_kind(tokens);
    }
    if begins(tokens, Class::Static) {
        let (_, rest) = expect(tokens, Class::Static)?;
        return Ok((RawFunctionKind::Static, rest));
    }
    let (_, rest) = expect(tokens, Class::Derived)?;
    Ok((RawFunctionKind::Derived, rest))
}

fn further_domain(alloc: Global, tokens: &[Lexeme]) -> Result<(RawName, &[Lexeme]), Stop>
    ensures { Gives models (λ x. (x.0, all_seen x.1.now)) result (read_flat (after class_is.Comma (name language.domains)) (all_seen tokens.now)) }
{
    let (_, rest) = expect(tokens, Class::Comma)?;
    name(alloc, rest, domains())
}

/// The first domain and those that follow.
fn more_domains(
    alloc: Global,
    first: RawName,
    tokens: &[Lexeme],
) -> Result<(Listed<RawName>, &[Lexeme]), Stop>
    ensures { Gives models (λ x. (x.0, all_seen x.1.now)) result (with_front models (first ∷ []) (read_flat (rules.more_domains false) (all_seen tokens.now))) }
{
    let mut items = Listed::new(alloc);
    items.push(first)?;
    let mut rest = tokens;
    'items: for _turn in 0..tokens.len() {
        if !begins(rest, Class::Comma) {
            return Ok((items, rest));
        }
        let (item, after) = further_domain(alloc, rest)?;
        items.push(item)?;
        rest = after;
    }
    Ok((items, rest))
}

/// The domains of a product in parentheses.
#[tactic(auto, using(crate::proofs::Opened::product_opens, crate::proofs::Opened::domains_flat), unfolding(asm_tree::specs::Rules::body))]
fn product(
    alloc: Global,
    tokens: &[Lexeme],
    levels: usize,
) -> Result<(Listed<RawName>, &[Lexeme]), Stop>
    ensures { Gives models (λ x. (x.0, all_seen x.1.now)) result (read_in levels false (shown (λ p. p.1) (opening (kind_of class_is.Open ∷ []) Product)) (all_seen tokens.now)) }
{
    let (_, _levels, rest) = enter(tokens, Class::Open, levels)?;
    let (first, rest) = name(alloc, rest, domains())?;
    let (domains, rest) = more_domains(alloc, first, rest)?;
    let (_, rest) = expect(rest, Class::Close)?;
    Ok((domains, rest))
}

fn product_type(
    alloc: Global,
    tokens: &[Lexeme],
    levels: usize,
) -> Result<(Listed<RawName>, RawName, &[Lexeme]), Stop>
    ensures { Gives models (λ x. ((x.0, x.1), all_seen x.2.now)) result (read_in levels false (after class_is.Prod (both (shown (λ p. p.1) (opening (kind_of class_is.Open ∷ []) Product)) (after class_is.Arrow (name language.domains)))) (all_seen tokens.now)) }
{
    let (_, rest) = expect(tokens, Class::Prod)?;
    let (domains, rest) = product(alloc, rest, levels)?;
    let (_, rest) = expect(rest, Class::Arrow)?;
    let (codomain, rest) = codomain_of(alloc, rest)?;
    Ok((domains, codomain, rest))
}

fn codomain_of(alloc: Global, tokens: &[Lexeme]) -> Result<(RawName, &[Lexeme]), Stop>
    ensures { Gives models (λ x. (x.0, all_seen x.1.now)) result (read_flat (name language.domains) (all_seen tokens.now)) }
{
    name(alloc, tokens, domains())
}

#[tactic(auto, unfolding(asm_tree::specs::Units::arrow))]
fn arrow(alloc: Global, tokens: &[Lexeme]) -> Result<(Option<RawName>, &[Lexeme]), Stop>
    ensures { Gives models (λ x. (x.0, all_seen x.1.now)) result (read_flat units.arrow (all_seen tokens.now)) }
{
    if !begins(tokens, Class::Arrow) {
        return Ok((None, tokens));
    }
    let (_, rest) = expect(tokens, Class::Arrow)?;
    let (codomain, rest) = codomain_of(alloc, rest)?;
    Ok((Some(codomain), rest))
}

fn plain_type(
    alloc: Global,
    tokens: &[Lexeme],
) -> Result<(Listed<RawName>, RawName, &[Lexeme]), Stop>
    ensures { Gives models (λ x. ((x.0, x.1), all_seen x.2.now)) result (read_flat (shown units.plain_type (both (name language.domains) units.arrow)) (all_seen tokens.now)) }
{
    let (domain, rest) = codomain_of(alloc, tokens)?;
    let (codomain, rest) = arrow(alloc, rest)?;
    let mut domains = Listed::new(alloc);
    match codomain {
        Some(codomain) => {
            domains.push(domain)?;
            Ok((domains, codomain, rest))
        }
        None => Ok((domains, domain, rest)),
    }
}

#[tactic(auto, using(crate::proofs::Opened::plain_type_flat), unfolding(asm_tree::specs::Units::function_type))]
fn function_type(
    alloc: Global,
    tokens: &[Lexeme],
    levels: usize,
) -> Result<(Listed<RawName>, RawName, &[Lexeme]), Stop>
    ensures { Gives models (λ x. ((x.0, x.1), all_seen x.2.now)) result (read_in levels false units.function_type (all_seen tokens.now)) }
{
    if begins(tokens, Class::Prod) {
        return product_type(alloc, tokens, levels);
    }
    plain_type(alloc, tokens)
}

#[tactic(auto, using(crate::proofs::Opened::kinds_flat), unfolding(asm_tree::specs::Units::function))]
fn function(
    alloc: Global,
    tokens: &[Lexeme],
    levels: usize,
) -> Result<(RawDeclaration, &[Lexeme]), Stop>
    ensures { Gives models (λ x. (x.0, all_seen x.1.now)) result (read_in levels false units.function (all_seen tokens.now)) }
{
    let (kind, rest) = function_kind(tokens)?;
    let (function, rest) = name(alloc, rest, functions(false))?;
    let (_, rest) = expect(rest, Class::Colon)?;
    let (domains, codomain, rest) = function_type(alloc, rest, levels)?;
    Ok((
        RawDeclaration::Function(kind, function, domains, codomain),
        rest,
    ))
}

#[tactic(auto, using(crate::proofs::Opened::declaration_is))]
fn declaration(
    alloc: Global,
    tokens: &[Lexeme],
    levels: usize,
) -> Result<(RawDeclaration, &[Lexeme]), Stop>
    ensures { Gives models (λ x. (x.0, all_seen x.1.now)) result (read_in levels false units.declaration (all_seen tokens.now)) }
{
    if begins(tokens, Class::Enum) {
        return enumeration(alloc, tokens);
    }
    if begins(tokens, Class::Domain) {
        return subset(alloc, tokens);
    }
    if begins(tokens, Class::Abstract) {
        return abstract_domain(alloc, tokens);
    }
    function(alloc, tokens, levels)
}

#[tactic(auto, using(crate::proofs::Firsts::begins_declaration_is))]
fn begins_declaration(tokens: &[Lexeme]) -> bool
    ensures { result ≡ has (ahead models (all_seen tokens.now) 0) (firsts models units.declaration) }
{
    begins_among(
        tokens,
        &[
            Class::Enum,
            Class::Domain,
            Class::Abstract,
            Class::Dynamic,
            Class::Controlled,
            Class::Monitored,
            Class::Shared,
            Class::Out,
            Class::Static,
            Class::Derived,
        ],
    )
}

/// The declarations in the order of the text.
pub fn declarations(
    alloc: Global,
    tokens: &[Lexeme],
    levels: usize,
) -> Result<(Listed<RawDeclaration>, &[Lexeme]), Stop>
    ensures { Gives models (λ x. (x.0, all_seen x.1.now)) result (read_in levels false units.declarations (all_seen tokens.now)) }
{
    let mut items = Listed::new(alloc);
    let mut rest = tokens;
    'items: for _turn in 0..tokens.len() {
        if !begins_declaration(rest) {
            return Ok((items, rest));
        }
        let (item, after) = declaration(alloc, rest, levels)?;
        items.push(item)?;
        rest = after;
    }
    Ok((items, rest))
}
