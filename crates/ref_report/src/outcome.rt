//! The text of a report.
ghost use Rattle.std.specs.Prelude.{◌≡◌, ◌++◌, OnOk, codes, decimal, slice_get};
ghost use Rattle.asm_source.specs.Appends.{Appends};
ghost use Rattle.asm_text.specs.Texts.{line, value_text};
ghost use Rattle.ref_report.specs.Reported as spec;
ghost use Rattle.ref_report.specs.Texts.{linking, step_text};

use crate::linked::LinkedModels;
use crate::links::append_links;
use crate::report::{Difference, Possible, Report, Step};
use crate::step::append_step;
use asm_sign::Signature;
use asm_source::{Text, append_number, append_str};
use asm_text::{print_call, print_value};
use ref_link::Link;
use std::alloc::{AllocError, Global};

/// Appends the lines of the links, and then those of the report. `budget` is that of each search.
#[tactic(auto, using(asm_source::proofs::Appending::appends_whole))]
pub fn print_report(
    alloc: Global,
    linked: &LinkedModels<'_>,
    report: &Report,
    budget: u64,
    out: &mut Text,
) -> Result<(), AllocError>
    requires { spec.IsOf (linking linked.now) report.now }
    ensures { Appends out.old out.new (spec.report_text (linking linked.now) budget report.now) result }
{
    let mut text = Text::new(alloc);
    append_links(linked, &mut text)?;
    append_outcome(linked, report, budget, &mut text)?;
    out.extend(text.slice())
}

/// Appends the lines of a report behind those of the links.
fn append_outcome(
    linked: &LinkedModels<'_>,
    report: &Report,
    budget: u64,
    text: &mut Text,
) -> Result<(), AllocError>
    requires { spec.IsOf (linking linked.now) report.now }
    ensures { OnOk result (text.new ≡ text.old ++ spec.outcome_text (linking linked.now) budget report.now) }
{
    let a = linked.abstract_model.signature();
    let c = linked.concrete_model.signature();
    match report {
        Report::Proved(refutation, possible) => append_proved(refutation.lines(), possible, text),
        Report::InitialDiffers(difference) => {
            append_differs(a, c, linked.links, difference, text)
        }
        Report::InitialInvariant(number) => append_invariant(*number, text),
        Report::StepFails(step, _) => append_failing(a, c, step, text),
        Report::Spent(_) => append_spent(budget, text),
    }
}

/// Appends that the refinement is proved, by a derivation of so many lines.
fn append_proved(lines: u64, possible: &Possible, text: &mut Text) -> Result<(), AllocError>
    ensures { OnOk result (text.new ≡ text.old ++ line (codes "proved") ++ line (codes "derivation " ++ decimal lines) ++ spec.possible_line possible.now) }
{
    append_str(text, "proved\n")?;
    append_derivation(lines, text)?;
    append_str(text, possible_line(possible))
}

/// Appends the number of lines of a derivation.
fn append_derivation(lines: u64, text: &mut Text) -> Result<(), AllocError>
    ensures { OnOk result (text.new ≡ text.old ++ line (codes "derivation " ++ decimal lines)) }
{
    append_str(text, "derivation ")?;
    append_number(text, lines)?;
    append_str(text, "\n")
}

/// The line that tells whether there is a step.
fn possible_line(possible: &Possible) -> &'static str
    ensures { result.now ≡ spec.possible_line possible.now }
{
    match possible {
        Possible::Able(_) => "a concrete step is possible\n",
        Possible::Unable(_) => "no concrete step is possible\n",
    }
}

/// Appends that a link has different values initially.
fn append_differs(
    a: &Signature,
    c: &Signature,
    links: &[Link],
    difference: &Difference,
    text: &mut Text,
) -> Result<(), AllocError>
    ensures { OnOk result (text.new ≡ text.old ++ spec.differs_line a.now c.now links.now difference.now) }
{
    append_str(text, "not proved: initial states differ at ")?;
    append_place(a, links, difference, text)?;
    append_values(a, c, difference, text)
}

/// Appends the abstract function of a link at its arguments.
fn append_place(
    a: &Signature,
    links: &[Link],
    difference: &Difference,
    text: &mut Text,
) -> Result<(), AllocError>
    ensures { OnOk result (text.new ≡ text.old ++ spec.linked_text a.now difference.now.arguments (slice_get links.now difference.now.link)) }
{
    match links.get(difference.link as usize) {
        Some(link) => print_call(
            a,
            link.abstract_function,
            difference.arguments.slice(),
            text,
        ),
        None => Ok(()),
    }
}

/// Appends the abstract value and the concrete one.
fn append_values(
    a: &Signature,
    c: &Signature,
    difference: &Difference,
    text: &mut Text,
) -> Result<(), AllocError>
    ensures { OnOk result (text.new ≡ text.old ++ (codes ": " ++ value_text a.now difference.now.abstract_value ++ codes " and " ++ line (value_text c.now difference.now.concrete_value))) }
{
    append_str(text, ": ")?;
    print_value(a, &difference.abstract_value, text)?;
    append_str(text, " and ")?;
    print_value(c, &difference.concrete_value, text)?;
    append_str(text, "\n")
}

/// Appends that an abstract invariant is false initially.
fn append_invariant(number: u32, text: &mut Text) -> Result<(), AllocError>
    ensures { OnOk result (text.new ≡ text.old ++ spec.invariant_line number) }
{
    append_str(text, "not proved: abstract invariant ")?;
    append_number(text, number as u64)?;
    append_str(text, " is false initially\n")
}

/// Appends a step that nothing answers.
fn append_failing(
    a: &Signature,
    c: &Signature,
    step: &Step,
    text: &mut Text,
) -> Result<(), AllocError>
    requires { spec.IsStepOf a.now c.now step.now }
    ensures { OnOk result (text.new ≡ text.old ++ line (codes "not proved: nothing answers this step") ++ step_text a.now c.now step.now) }
{
    append_str(text, "not proved: nothing answers this step\n")?;
    append_step(a, c, step, text)
}

/// Appends that the budget was used up.
fn append_spent(budget: u64, text: &mut Text) -> Result<(), AllocError>
    ensures { OnOk result (text.new ≡ text.old ++ line (codes "budget of " ++ decimal budget ++ codes " conflicts used up")) }
{
    append_str(text, "budget of ")?;
    append_number(text, budget)?;
    append_str(text, " conflicts used up\n")
}
