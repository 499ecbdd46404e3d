//! The lines of a step.
ghost use Rattle.std.specs.Prelude.{◌≡◌, ◌++◌, OnOk, codes};
ghost use Rattle.asm_text.specs.Texts.{line, state_text};
ghost use Rattle.ref_report.specs.Reported.{HasKept, IsStepOf};
ghost use Rattle.ref_report.specs.Texts as spec;

use crate::input::{append_choices, append_input};
use crate::report::Step;
use asm_sign::Signature;
use asm_source::{Text, append_str};
use asm_state::MapStore;
use asm_text::print_state;
use std::alloc::AllocError;

/// Appends a step beside an abstract state: both states, the input, the choice words, and the next concrete state.
pub fn append_step(
    a: &Signature,
    c: &Signature,
    step: &Step,
    text: &mut Text,
) -> Result<(), AllocError>
    requires { IsStepOf a.now c.now step.now }
    ensures { OnOk result (text.new ≡ text.old ++ spec.step_text a.now c.now step.now) }
{
    append_before(a, c, step, text)?;
    append_after(c, step, text)
}

/// Appends the states before a step.
fn append_before(
    a: &Signature,
    c: &Signature,
    step: &Step,
    text: &mut Text,
) -> Result<(), AllocError>
    requires { IsStepOf a.now c.now step.now }
    ensures { OnOk result (text.new ≡ text.old ++ spec.before_text a.now c.now step.now) }
{
    append_state(a, "abstract state\n", &step.abstract_state, text)?;
    append_state(c, "concrete state\n", &step.concrete_state, text)
}

/// Appends what a step is given, and the state after it.
fn append_after(c: &Signature, step: &Step, text: &mut Text) -> Result<(), AllocError>
    requires { HasKept c.now step.now.next }
    ensures { OnOk result (text.new ≡ text.old ++ spec.after_text c.now step.now) }
{
    append_str(text, "input\n")?;
    append_input(c, &step.input, text)?;
    append_choices(step.words.words().slice(), text)?;
    append_state(c, "next concrete state\n", &step.next, text)
}

/// Appends a heading and the locations of a state.
fn append_state(
    signature: &Signature,
    heading: &str,
    state: &MapStore,
    text: &mut Text,
) -> Result<(), AllocError>
    requires { HasKept signature.now state.now }
    ensures { OnOk result (text.new ≡ text.old ++ (heading.now ++ state_text signature.now state.now)) }
{
    append_str(text, heading)?;
    print_state(signature, state, text)
}
