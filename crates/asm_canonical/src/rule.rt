//! Rules, on lines of their own.

ghost use Rattle.std.specs.Prelude.{◌≡◌, ◌++◌, ◌+◌, OnOk, codes, map};
ghost use Rattle.asm_canonical.specs.Document.{text_in, arguments, commas};
ghost use Rattle.asm_canonical.specs.Terms.{whole_term};
ghost use Rattle.asm_canonical.specs.Pieces.{line_text, quantified_text, rules_doc, cases_doc};
ghost use Rattle.asm_canonical.specs.Rules.{rule_doc, kind_doc, inner};

use crate::layout::{deeper, line};
use crate::term::{binders, binds, call, phrase, terms};
use asm_source::{Text, append_str};
use asm_tree::rule::{RawRule, RawRuleCase, RawRuleKind};
use asm_tree::term::{RawBinder, RawTerm};
use std::alloc::AllocError;

/// Appends a rule whose further lines stand at this level.
#[cycle(rule)]
#[tactic(auto, using(crate::proofs::RuleTexts::doc_rule))]
pub fn rule(text: &mut Text, rule: &RawRule, level: usize) -> Result<(), AllocError>
    ensures { OnOk result (text.new ≡ text.old ++ text_in (rule_doc rule.now level)) }
{
    kind(text, &rule.kind, level)
}

#[cycle(rule)]
#[tactic(auto, using(crate::proofs::RuleTexts::texts))]
fn kind(text: &mut Text, kind: &RawRuleKind, level: usize) -> Result<(), AllocError>
    ensures { OnOk result (text.new ≡ text.old ++ text_in (kind_doc kind.now level)) }
{
    match kind {
        RawRuleKind::Skip => append_str(text, "skip"),
        RawRuleKind::Update(name, items, value) => update(text, name.text(), items.slice(), value),
        RawRuleKind::Par(items) => block(text, "par", items.slice(), "endpar", level),
        RawRuleKind::Seq(items) => block(text, "seq", items.slice(), "endseq", level),
        RawRuleKind::If(guard, yes, no) => {
            phrase(text, "if ", guard)?;
            inner_under(text, " then", yes.get(), level)?;
            inner_under(text, "else", no.get(), level)?;
            append_str(text, "endif")
        }
        RawRuleKind::Switch(subject, items, other) => {
            phrase(text, "switch ", subject)?;
            cases(text, items.slice(), level)?;
            line(text, level)?;
            inner_under(text, "otherwise", other.get(), level)?;
            append_str(text, "endswitch")
        }
        RawRuleKind::Let(items, body) => {
            append_str(text, "let (")?;
            binds(text, items.slice())?;
            inner_under(text, ") in", body.get(), level)?;
            append_str(text, "endlet")
        }
        RawRuleKind::Forall(items, guard, body) => {
            quantified(text, "forall ", items.slice(), guard)?;
            inner(text, body.get(), level)
        }
        RawRuleKind::Choose(items, guard, chosen, none) => {
            quantified(text, "choose ", items.slice(), guard)?;
            inner_under(text, "", chosen.get(), level)?;
            append_str(text, "ifnone")?;
            inner(text, none.get(), level)
        }
        RawRuleKind::Call(name, items) => macro_call(text, name.text(), items.slice()),
    }
}

fn update(
    text: &mut Text,
    function: &str,
    items: &[RawTerm],
    value: &RawTerm,
) -> Result<(), AllocError>
    ensures { OnOk result (text.new ≡ (((text.old ++ function.now) ++ text_in (arguments (map whole_term items.now))) ++ codes " := ") ++ text_in (whole_term value.now)) }
{
    call(text, function, items)?;
    phrase(text, " := ", value)
}

fn macro_call(text: &mut Text, rule: &str, items: &[RawTerm]) -> Result<(), AllocError>
    ensures { OnOk result (text.new ≡ (((text.old ++ rule.now) ++ codes "[") ++ text_in (commas (map whole_term items.now))) ++ codes "]") }
{
    append_str(text, rule)?;
    append_str(text, "[")?;
    terms(text, items)?;
    append_str(text, "]")
}

/// Appends a rule on a line of its own, one level deeper.
#[cycle(rule)]
fn inner(text: &mut Text, body: &RawRule, level: usize) -> Result<(), AllocError>
    ensures { OnOk result (text.new ≡ text.old ++ text_in (inner level (rule_doc body.now))) }
{
    let deeper = deeper(level)?;
    line(text, deeper)?;
    rule(text, body, deeper)
}

/// Appends these words, a rule one level deeper, and the beginning of the next line.
#[cycle(rule)]
fn inner_under(text: &mut Text, words: &str, body: &RawRule, level: usize) -> Result<(), AllocError>
    ensures { OnOk result (text.new ≡ ((text.old ++ words.now) ++ text_in (inner level (rule_doc body.now))) ++ line_text level) }
{
    append_str(text, words)?;
    inner(text, body, level)?;
    line(text, level)
}

/// Appends rules one level deeper, with these words before and behind them.
#[cycle(rule)]
fn block(
    text: &mut Text,
    first: &str,
    items: &[RawRule],
    last: &str,
    level: usize,
) -> Result<(), AllocError>
    ensures { OnOk result (text.new ≡ (((text.old ++ first.now) ++ text_in (rules_doc (level + 1) items.now)) ++ line_text level) ++ last.now) }
{
    append_str(text, first)?;
    let deeper = deeper(level)?;
    rules(text, items, deeper)?;
    line(text, level)?;
    append_str(text, last)
}

/// Appends rules, each on a line of its own at this level.
#[cycle(rule)]
#[tactic(auto, using(crate::proofs::RuleTexts::rule_lists))]
fn rules(text: &mut Text, items: &[RawRule], level: usize) -> Result<(), AllocError>
    ensures { OnOk result (text.new ≡ text.old ++ text_in (rules_doc level items.now)) }
{
    'items: for item in items {
        line(text, level)?;
        rule(text, item, level)?;
    }
    Ok(())
}

/// Appends cases, each on a line of its own at this level.
#[cycle(rule)]
#[tactic(auto, using(crate::proofs::RuleTexts::rule_lists))]
fn cases(text: &mut Text, items: &[RawRuleCase], level: usize) -> Result<(), AllocError>
    ensures { OnOk result (text.new ≡ text.old ++ text_in (cases_doc level items.now)) }
{
    'items: for item in items {
        line(text, level)?;
        phrase(text, "case ", &item.label)?;
        append_str(text, " :")?;
        inner(text, &item.rule, level)?;
    }
    Ok(())
}

/// Appends what stands before the body of a `forall` or a `choose`.
fn quantified(
    text: &mut Text,
    words: &str,
    items: &[RawBinder],
    guard: &RawTerm,
) -> Result<(), AllocError>
    ensures { OnOk result (text.new ≡ text.old ++ quantified_text words.now items.now guard.now) }
{
    append_str(text, words)?;
    binders(text, items)?;
    phrase(text, " with ", guard)?;
    append_str(text, " do")
}
