//! The functions that a term reads, and of the rules that a rule calls.

ghost use Rattle.std.specs.Prelude.{◌≡◌, ◌++◌, OnOk};
ghost use Rattle.std.specs.List.{flat_map};
ghost use Rattle.asm_faults.specs.Files.{to_list};
ghost use Rattle.asm_calls.specs.Called.{functions_in, functions_of_kind, functions_in_case, functions_in_bind, read_of, rules_in, rules_of_kind, rules_in_case};

use crate::read::Read;
use asm_faults::Known;
use asm_list::{Listed, Name};
use asm_tree::rule::{RawRule, RawRuleCase, RawRuleKind};
use asm_tree::term::{RawBind, RawCase, RawTerm, RawTermKind};
use name_table::Table;
use std::alloc::AllocError;

/// Appends the functions that a term reads, as often as it names them.
#[cycle(term)]
#[tactic(auto, using(crate::proofs::TermForms::of_term))]
pub fn called(known: &Known, term: &RawTerm, reads: &mut Listed<Read>) -> Result<(), AllocError>
    ensures { OnOk result (reads.new ≡ reads.old ++ functions_in known.now term.now) }
{
    kind(known, &term.kind, reads)
}

#[cycle(term)]
#[tactic(auto, using(crate::proofs::TermForms::forms))]
fn kind(known: &Known, kind: &RawTermKind, reads: &mut Listed<Read>) -> Result<(), AllocError>
    ensures { OnOk result (reads.new ≡ reads.old ++ functions_of_kind known.now kind.now) }
{
    match kind {
        RawTermKind::Number(_) => Ok(()),
        RawTermKind::Truth(_) => Ok(()),
        RawTermKind::Undef => Ok(()),
        RawTermKind::Variable(_) => Ok(()),
        RawTermKind::Element(_) => Ok(()),
        RawTermKind::Call(name, items) => {
            add_read(known, name, reads)?;
            terms(known, items.slice(), reads)
        }
        RawTermKind::Unary(_, operand) => called(known, operand.get(), reads),
        RawTermKind::Binary(_, left, right) => {
            called(known, left.get(), reads)?;
            called(known, right.get(), reads)
        }
        RawTermKind::Cond(guard, yes, no) => {
            called(known, guard.get(), reads)?;
            called(known, yes.get(), reads)?;
            called(known, no.get(), reads)
        }
        RawTermKind::Switch(subject, items, other) => {
            called(known, subject.get(), reads)?;
            cases(known, items.slice(), reads)?;
            called(known, other.get(), reads)
        }
        RawTermKind::Let(items, value) => {
            binds(known, items.slice(), reads)?;
            called(known, value.get(), reads)
        }
        RawTermKind::Quant(_, _, guard) => called(known, guard.get(), reads),
    }
}

/// Appends the function of a name, where there is one.
fn add_read(known: &Known, name: &Name, reads: &mut Listed<Read>) -> Result<(), AllocError>
    ensures { OnOk result (reads.new ≡ reads.old ++ to_list (read_of known.now name.now)) }
{
    match read_of(known, name) {
        Some(read) => reads.push(read),
        None => Ok(()),
    }
}

fn read_of(known: &Known, name: &Name) -> Option<Read>
    ensures { result ≡ read_of known.now name.now }
{
    match known.function_number(name) {
        Some(number) => match known.function(name) {
            Some(function) => Some(Read {
                number,
                kind: function.kind,
            }),
            None => None,
        },
        None => None,
    }
}

#[cycle(term)]
#[tactic(auto, using(crate::proofs::TermForms::steps))]
fn terms(known: &Known, items: &[RawTerm], reads: &mut Listed<Read>) -> Result<(), AllocError>
    ensures { OnOk result (reads.new ≡ reads.old ++ flat_map (functions_in known.now) items.now) }
{
    'items: for item in items {
        called(known, item, reads)?;
    }
    Ok(())
}

#[cycle(term)]
#[tactic(auto, using(crate::proofs::TermForms::steps))]
fn cases(known: &Known, items: &[RawCase], reads: &mut Listed<Read>) -> Result<(), AllocError>
    ensures { OnOk result (reads.new ≡ reads.old ++ flat_map (functions_in_case known.now) items.now) }
{
    'items: for item in items {
        called(known, &item.label, reads)?;
        called(known, &item.value, reads)?;
    }
    Ok(())
}

#[cycle(term)]
#[tactic(auto, using(crate::proofs::TermForms::steps))]
fn binds(known: &Known, items: &[RawBind], reads: &mut Listed<Read>) -> Result<(), AllocError>
    ensures { OnOk result (reads.new ≡ reads.old ++ flat_map (functions_in_bind known.now) items.now) }
{
    'items: for item in items {
        called(known, &item.term, reads)?;
    }
    Ok(())
}

/// Appends a number, where there is one.
fn add_number(calls: &mut Listed<u32>, number: Option<u32>) -> Result<(), AllocError>
    ensures { OnOk result (calls.new ≡ calls.old ++ to_list number) }
{
    match number {
        Some(number) => calls.push(number),
        None => Ok(()),
    }
}

/// Appends the numbers of the rules that a rule calls, where they have one.
#[cycle(rule)]
#[tactic(auto, using(crate::proofs::RuleForms::of_rule))]
pub fn called_rules(
    rules: &Table,
    rule: &RawRule,
    calls: &mut Listed<u32>,
) -> Result<(), AllocError>
    ensures { OnOk result (calls.new ≡ calls.old ++ rules_in rules.now rule.now) }
{
    rule_kind(rules, &rule.kind, calls)
}

#[cycle(rule)]
#[tactic(auto, using(crate::proofs::RuleForms::forms))]
fn rule_kind(rules: &Table, kind: &RawRuleKind, calls: &mut Listed<u32>) -> Result<(), AllocError>
    ensures { OnOk result (calls.new ≡ calls.old ++ rules_of_kind rules.now kind.now) }
{
    match kind {
        RawRuleKind::Skip => Ok(()),
        RawRuleKind::Update(_, _, _) => Ok(()),
        RawRuleKind::Par(items) => each_rule(rules, items.slice(), calls),
        RawRuleKind::Seq(items) => each_rule(rules, items.slice(), calls),
        RawRuleKind::If(_, yes, no) => {
            called_rules(rules, yes.get(), calls)?;
            called_rules(rules, no.get(), calls)
        }
        RawRuleKind::Switch(_, items, other) => {
            rule_cases(rules, items.slice(), calls)?;
            called_rules(rules, other.get(), calls)
        }
        RawRuleKind::Let(_, body) => called_rules(rules, body.get(), calls),
        RawRuleKind::Forall(_, _, body) => called_rules(rules, body.get(), calls),
        RawRuleKind::Choose(_, _, chosen, none) => {
            called_rules(rules, chosen.get(), calls)?;
            called_rules(rules, none.get(), calls)
        }
        RawRuleKind::Call(name, _) => add_number(calls, rules.find(name)),
    }
}

#[cycle(rule)]
#[tactic(auto, using(crate::proofs::RuleForms::steps))]
fn each_rule(rules: &Table, items: &[RawRule], calls: &mut Listed<u32>) -> Result<(), AllocError>
    ensures { OnOk result (calls.new ≡ calls.old ++ flat_map (rules_in rules.now) items.now) }
{
    'items: for item in items {
        called_rules(rules, item, calls)?;
    }
    Ok(())
}

#[cycle(rule)]
#[tactic(auto, using(crate::proofs::RuleForms::steps))]
fn rule_cases(
    rules: &Table,
    items: &[RawRuleCase],
    calls: &mut Listed<u32>,
) -> Result<(), AllocError>
    ensures { OnOk result (calls.new ≡ calls.old ++ flat_map (rules_in_case rules.now) items.now) }
{
    'items: for item in items {
        called_rules(rules, &item.rule, calls)?;
    }
    Ok(())
}
