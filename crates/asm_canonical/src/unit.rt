//! Whole files.

ghost use Rattle.std.specs.Prelude.{◌≡◌, ◌++◌, OnOk, map};
ghost use Rattle.asm_canonical.specs.Document.{text_in, commas, lines, arguments};
ghost use Rattle.asm_canonical.specs.Terms.{binder_doc};
ghost use Rattle.asm_canonical.specs.Pieces as pieces;
ghost use Rattle.asm_canonical.specs.Units as units;

use crate::layout::{joint, line, separator};
use crate::rule::rule;
use crate::term::{binders, phrase};
use asm_source::{Text, append_integer, append_str};
use asm_tree::rule::RawRule;
use asm_tree::term::{RawBinder, RawName};
use asm_tree::unit::{
    RawDeclaration, RawDefinition, RawFunction, RawFunctionKind, RawInit, RawInt, RawInvariant,
    RawMain, RawPart, RawPath, RawUnit, RawUnitKind,
};
use std::alloc::AllocError;

/// Appends a part of a path.
fn part(text: &mut Text, part: &RawPart) -> Result<(), AllocError>
    ensures { OnOk result (text.new ≡ text.old ++ pieces.part_text part.now) }
{
    match part {
        RawPart::Here => append_str(text, "."),
        RawPart::Above => append_str(text, ".."),
        RawPart::Word(word) => append_str(text, word.text()),
        RawPart::Dotted(word, ending) => {
            append_str(text, word.text())?;
            append_str(text, ".")?;
            append_str(text, ending.text())
        }
    }
}

/// Appends the parts of a path.
#[tactic(auto, using(crate::proofs::UnitTexts::strung_lists))]
fn parts(text: &mut Text, items: &[RawPart]) -> Result<(), AllocError>
    ensures { OnOk result (text.new ≡ text.old ++ pieces.parts_text items.now) }
{
    'items: for (index, item) in items.iter().enumerate() {
        append_str(text, joint(index, "/"))?;
        part(text, item)?;
    }
    Ok(())
}

#[tactic(auto, using(crate::proofs::UnitTexts::import_text))]
fn import(text: &mut Text, path: &RawPath) -> Result<(), AllocError>
    ensures { OnOk result (text.new ≡ text.old ++ text_in (units.import_doc path.now)) }
{
    append_str(text, "import ")?;
    parts(text, path.parts.slice())?;
    Ok(())
}

/// Appends names with this mark between them.
#[tactic(auto, using(crate::proofs::UnitTexts::strung_lists))]
fn names(text: &mut Text, items: &[RawName], mark: &str) -> Result<(), AllocError>
    ensures { OnOk result (text.new ≡ text.old ++ pieces.names_text mark.now items.now) }
{
    'items: for (index, item) in items.iter().enumerate() {
        append_str(text, joint(index, mark))?;
        append_str(text, item.text.text())?;
    }
    Ok(())
}

fn kind_word(kind: RawFunctionKind) -> &'static str
    ensures { result.now ≡ units.kind_word kind }
{
    match kind {
        RawFunctionKind::Static => "static",
        RawFunctionKind::Derived => "derived",
        RawFunctionKind::Controlled => "controlled",
        RawFunctionKind::Monitored => "monitored",
        RawFunctionKind::Shared => "shared",
        RawFunctionKind::Out => "out",
    }
}

/// Appends the domains of arguments and the codomain.
#[tactic(auto, using(crate::proofs::UnitTexts::type_texts))]
fn function_type(text: &mut Text, domains: &[RawName], codomain: &RawName) -> Result<(), AllocError>
    ensures { OnOk result (text.new ≡ text.old ++ text_in (units.type_doc domains.now codomain.now)) }
{
    match domains {
        [] => {}
        [domain] => {
            append_str(text, domain.text.text())?;
            append_str(text, " -> ")?;
        }
        _ => {
            append_str(text, "Prod(")?;
            names(text, domains, ", ")?;
            append_str(text, ") -> ")?;
        }
    }
    append_str(text, codomain.text.text())
}

#[tactic(auto, using(crate::proofs::UnitTexts::declaration_texts))]
fn declaration(text: &mut Text, declaration: &RawDeclaration) -> Result<(), AllocError>
    ensures { OnOk result (text.new ≡ text.old ++ text_in (units.declaration_doc declaration.now)) }
{
    match declaration {
        RawDeclaration::Enumeration(domain, elements) => {
            append_str(text, "enum domain ")?;
            append_str(text, domain.text.text())?;
            append_str(text, " = {")?;
            names(text, elements.slice(), " | ")?;
            append_str(text, "}")?;
            Ok(())
        }
        RawDeclaration::Subset(domain, whole) => {
            append_str(text, "domain ")?;
            append_str(text, domain.text.text())?;
            append_str(text, " subsetof ")?;
            append_str(text, whole.text.text())
        }
        RawDeclaration::Abstract(domain) => {
            append_str(text, "abstract domain ")?;
            append_str(text, domain.text.text())
        }
        RawDeclaration::Function(kind, name, domains, codomain) => {
            append_str(text, kind_word(*kind))?;
            append_str(text, " ")?;
            append_str(text, name.text.text())?;
            append_str(text, " : ")?;
            function_type(text, domains.slice(), codomain)
        }
    }
}

#[tactic(auto, using(crate::proofs::UnitTexts::int_text))]
fn int(text: &mut Text, int: &RawInt) -> Result<(), AllocError>
    ensures { OnOk result (text.new ≡ text.old ++ text_in (units.int_doc int.now)) }
{
    append_integer(text, int.value)
}

/// Appends numbers with commas between them.
#[tactic(auto, using(crate::proofs::UnitTexts::int_lists))]
fn ints(text: &mut Text, items: &[RawInt]) -> Result<(), AllocError>
    ensures { OnOk result (text.new ≡ text.old ++ text_in (commas (map units.int_doc items.now))) }
{
    'items: for (index, item) in items.iter().enumerate() {
        append_str(text, separator(index))?;
        int(text, item)?;
    }
    Ok(())
}

/// Appends parameters in parentheses, if there are any.
#[tactic(auto, using(crate::proofs::UnitTexts::parameter_texts))]
fn parameters(text: &mut Text, items: &[RawBinder]) -> Result<(), AllocError>
    ensures { OnOk result (text.new ≡ text.old ++ text_in (units.parameters_doc items.now)) }
{
    if items.is_empty() {
        return Ok(());
    }
    append_str(text, "(")?;
    binders(text, items)?;
    append_str(text, ")")?;
    Ok(())
}

#[tactic(auto, using(crate::proofs::UnitTexts::definition_texts))]
fn function(text: &mut Text, function: &RawFunction) -> Result<(), AllocError>
    ensures { OnOk result (text.new ≡ text.old ++ text_in (units.function_doc function.now)) }
{
    append_str(text, "function ")?;
    append_str(text, function.name.text.text())?;
    parameters(text, function.parameters.slice())?;
    phrase(text, " = ", &function.term)
}

#[tactic(auto, using(crate::proofs::UnitTexts::definition_texts))]
fn macro_rule(
    text: &mut Text,
    name: &RawName,
    items: &[RawBinder],
    body: &RawRule,
) -> Result<(), AllocError>
    ensures { OnOk result (text.new ≡ text.old ++ text_in (units.macro_doc name.now items.now body.now)) }
{
    append_str(text, "rule ")?;
    append_str(text, name.text.text())?;
    parameters(text, items)?;
    append_str(text, " =")?;
    line(text, 2)?;
    rule(text, body, 2)
}

/// Appends the name of an invariant and a space, if it has one.
fn invariant_name(text: &mut Text, name: &Option<RawName>) -> Result<(), AllocError>
    ensures { OnOk result (text.new ≡ text.old ++ pieces.invariant_name_text name.now) }
{
    match name {
        None => Ok(()),
        Some(name) => {
            append_str(text, name.text.text())?;
            append_str(text, " ")
        }
    }
}

#[tactic(auto, using(crate::proofs::UnitTexts::definition_texts))]
fn invariant(text: &mut Text, invariant: &RawInvariant) -> Result<(), AllocError>
    ensures { OnOk result (text.new ≡ text.old ++ text_in (units.invariant_doc invariant.now)) }
{
    append_str(text, "invariant ")?;
    invariant_name(text, &invariant.name)?;
    append_str(text, "over ")?;
    names(text, invariant.over.slice(), ", ")?;
    phrase(text, " : ", &invariant.term)
}

#[tactic(auto, using(crate::proofs::UnitTexts::definition_texts))]
fn definition(text: &mut Text, definition: &RawDefinition) -> Result<(), AllocError>
    ensures { OnOk result (text.new ≡ text.old ++ text_in (units.definition_doc definition.now)) }
{
    match definition {
        RawDefinition::Range(domain, low, high) => {
            append_str(text, "domain ")?;
            append_str(text, domain.text.text())?;
            append_str(text, " = {")?;
            int(text, low)?;
            append_str(text, "..")?;
            int(text, high)?;
            append_str(text, "}")
        }
        RawDefinition::List(domain, items) => {
            append_str(text, "domain ")?;
            append_str(text, domain.text.text())?;
            append_str(text, " = {")?;
            ints(text, items.slice())?;
            append_str(text, "}")
        }
        RawDefinition::Function(item) => function(text, item),
        RawDefinition::Rule(name, items, body) => macro_rule(text, name, items.slice(), body),
        RawDefinition::Invariant(item) => invariant(text, item),
    }
}

#[tactic(auto, using(crate::proofs::UnitTexts::line_lists))]
fn imports(text: &mut Text, items: &[RawPath]) -> Result<(), AllocError>
    ensures { OnOk result (text.new ≡ text.old ++ text_in (lines 0 (map units.import_doc items.now))) }
{
    'items: for item in items {
        line(text, 0)?;
        import(text, item)?;
    }
    Ok(())
}

#[tactic(auto, using(crate::proofs::UnitTexts::line_lists))]
fn declarations(text: &mut Text, items: &[RawDeclaration]) -> Result<(), AllocError>
    ensures { OnOk result (text.new ≡ text.old ++ text_in (lines 1 (map units.declaration_doc items.now))) }
{
    'items: for item in items {
        line(text, 1)?;
        declaration(text, item)?;
    }
    Ok(())
}

#[tactic(auto, using(crate::proofs::UnitTexts::line_lists))]
fn definitions(text: &mut Text, items: &[RawDefinition]) -> Result<(), AllocError>
    ensures { OnOk result (text.new ≡ text.old ++ text_in (lines 1 (map units.definition_doc items.now))) }
{
    'items: for item in items {
        line(text, 1)?;
        definition(text, item)?;
    }
    Ok(())
}

#[tactic(auto, using(crate::proofs::UnitTexts::line_lists))]
fn functions(text: &mut Text, items: &[RawFunction]) -> Result<(), AllocError>
    ensures { OnOk result (text.new ≡ text.old ++ text_in (lines 1 (map units.function_doc items.now))) }
{
    'items: for item in items {
        line(text, 1)?;
        function(text, item)?;
    }
    Ok(())
}

#[tactic(auto, using(crate::proofs::UnitTexts::unit_texts))]
fn main_rule(text: &mut Text, main: &Option<RawMain>) -> Result<(), AllocError>
    ensures { OnOk result (text.new ≡ text.old ++ text_in (units.main_doc main.now)) }
{
    let Some(main) = main else {
        return Ok(());
    };
    append_str(text, "\nmain rule ")?;
    append_str(text, main.name.text.text())?;
    append_str(text, " =")?;
    line(text, 1)?;
    rule(text, &main.rule, 1)?;
    Ok(())
}

#[tactic(auto, using(crate::proofs::UnitTexts::unit_texts))]
fn initial(text: &mut Text, init: &Option<RawInit>) -> Result<(), AllocError>
    ensures { OnOk result (text.new ≡ text.old ++ text_in (units.init_doc init.now)) }
{
    let Some(init) = init else {
        return Ok(());
    };
    append_str(text, "\ndefault init ")?;
    append_str(text, init.name.text.text())?;
    append_str(text, ":")?;
    functions(text, init.functions.slice())
}

fn unit_word(kind: RawUnitKind) -> &'static str
    ensures { result.now ≡ units.unit_word kind }
{
    match kind {
        RawUnitKind::Asm => "asm",
        RawUnitKind::Module => "module",
    }
}

/// Appends the imports, the declarations and the definitions.
#[tactic(auto, using(crate::proofs::UnitTexts::unit_texts))]
fn content(text: &mut Text, unit: &RawUnit) -> Result<(), AllocError>
    ensures { OnOk result (text.new ≡ text.old ++ text_in (units.content_doc unit.now)) }
{
    imports(text, unit.imports.slice())?;
    append_str(text, "\nsignature:")?;
    declarations(text, unit.declarations.slice())?;
    append_str(text, "\ndefinitions:")?;
    definitions(text, unit.definitions.slice())?;
    Ok(())
}

/// Appends the canonical text.
#[tactic(auto, using(crate::proofs::UnitTexts::unit_texts))]
pub fn unit(text: &mut Text, unit: &RawUnit) -> Result<(), AllocError>
    ensures { OnOk result (text.new ≡ text.old ++ units.canonical unit.now) }
{
    append_str(text, unit_word(unit.kind))?;
    append_str(text, " ")?;
    append_str(text, unit.name.text.text())?;
    content(text, unit)?;
    main_rule(text, &unit.main)?;
    initial(text, &unit.init)?;
    append_str(text, "\n")
}
