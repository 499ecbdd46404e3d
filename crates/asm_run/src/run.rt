//! A run that prints its states.
ghost use Rattle.std.specs.Prelude.{◌≡◌, ◌≤◌, ◌++◌, All, IfOk, drop, length};
ghost use Rattle.asm_io.specs.Writes.{Writes};
ghost use Rattle.asm_node.specs.Machine.{no_input};
ghost use Rattle.asm_node.specs.Model.{machine_of};
ghost use Rattle.asm_node.specs.Step.{IsInput, broken, initial};
ghost use Rattle.asm_node.specs.Words.{left};
ghost use Rattle.asm_run.specs.declared.error.OutError.TheVariants.{Write};
ghost use Rattle.asm_run.specs.Printed.{after, ended, first_input, numbered_state, run_from, run_of, stop_of, unless_broken};
ghost use Rattle.asm_run.specs.Reached.{landed, reached_from, words_left};
ghost use Rattle.asm_run.specs.Stepping.{Goes, step_from};
ghost use Rattle.asm_text.specs.Texts.{AreShort};

use crate::error::{OutError, StepError};
use crate::print::{print_end, print_state, print_stop};
use crate::session::Session;
use asm_eval::InitError;
use asm_io::{Sink, Sources};
use asm_node::{Input, Inputs, Model, Stop, Words};
use std::alloc::{AllocError, Global};

/// How a run ends.
#[derive(Clone, Copy, Debug, PartialEq, Eq)]
pub enum RunEnd {
    /// All its steps were made.
    Done,
    Stopped(Stop),
}

/// Prints the run of so many steps from the initial state on, state by state. Steps past the inputs are given nothing.
pub fn print_run<K: Sink>(
    alloc: Global,
    model: &Model,
    inputs: &Inputs,
    words: &mut Words,
    steps: u64,
    sources: &Sources,
    sink: &mut K,
) -> Result<RunEnd, OutError>
    requires inputs { All (IsInput (machine_of model.now)) inputs.now }
    requires short { AreShort sources.now }
    ensures writes { Writes K.written K.faults sink.old sink.new (run_of (machine_of model.now) sources.now inputs.now (left words.old) steps).text Write result }
    ensures end { IfOk result (λ end. end ≡ (run_of (machine_of model.now) sources.now inputs.now (left words.old) steps).end) }
    ensures words { IfOk result (λ _. left words.new ≡ words_left (machine_of model.now) (initial (machine_of model.now)) inputs.now (left words.old) steps) }
    ensures same_words { words.new.0 ≡ words.old.0 }
{
    match Session::new(alloc, model) {
        Ok(mut session) => print_run_from(alloc, &mut session, inputs, words, steps, sources, sink),
        Err(InitError::BadInitial(slot, value)) => {
            let stop = Stop::BadInitial(slot, value);
            print_stop(alloc, model.signature(), sources, stop, sink)?;
            Ok(RunEnd::Stopped(stop))
        }
        Err(InitError::Memory) => Err(OutError::Memory),
    }
}

/// Prints the run of so many steps from the present state on, which has the number 0. Steps past the inputs are given
/// nothing. The session then stands in the state that was reached, and after an error in one on the way there.
pub fn print_run_from<K: Sink>(
    alloc: Global,
    session: &mut Session<'_>,
    inputs: &Inputs,
    words: &mut Words,
    steps: u64,
    sources: &Sources,
    sink: &mut K,
) -> Result<RunEnd, OutError>
    requires inputs { All (IsInput session.old.machine) inputs.now }
    requires short { AreShort sources.now }
    ensures writes { Writes K.written K.faults sink.old sink.new (run_from session.old.machine sources.now 0 session.old.state inputs.now (left words.old) steps).text Write result }
    ensures end { IfOk result (λ end. end ≡ (run_from session.old.machine sources.now 0 session.old.state inputs.now (left words.old) steps).end) }
    ensures reached { IfOk result (λ _. (session.new.state, left words.new) ≡ reached_from session.old.machine session.old.state inputs.now (left words.old) steps) }
    ensures machine { session.new.machine ≡ session.old.machine }
    ensures same_words { words.new.0 ≡ words.old.0 }
{
    let nothing = Input::new(alloc);
    'steps: for number in 0..steps {
        let input = input_at(inputs.slice(), number, &nothing);
        let stop = print_step(alloc, session, number, input, words, sources, sink)?;
        if let Some(stop) = stop {
            return Ok(RunEnd::Stopped(stop));
        }
    }
    print_last(alloc, session, steps, sources, sink)
}

/// The input of the step from the state of a number.
fn input_at<'a>(inputs: &'a [Input], number: u64, nothing: &'a Input) -> &'a Input
    requires { nothing.now ≡ no_input }
    ensures { result.now ≡ first_input (drop number inputs.now) }
{
    match inputs.get(number as usize) {
        Some(input) => input,
        None => nothing,
    }
}

/// Prints the present state with its number and makes a step. Where none is made from there, prints why.
fn print_step<K: Sink>(
    alloc: Global,
    session: &mut Session<'_>,
    number: u64,
    input: &Input,
    words: &mut Words,
    sources: &Sources,
    sink: &mut K,
) -> Result<Option<Stop>, OutError>
    requires input { IsInput session.old.machine input.now }
    requires short { AreShort sources.now }
    ensures writes { Writes K.written K.faults sink.old sink.new (numbered_state session.old.machine number session.old.state ++ stop_of session.old.machine sources.now (step_from session.old.machine session.old.state input.now (left words.old))) Write result }
    ensures goes { IfOk result (λ stop. Goes stop session.new.state (left words.new) (step_from session.old.machine session.old.state input.now (left words.old))) }
    ensures lands { IfOk result (λ _. (session.new.state, left words.new) ≡ landed (session.old.state, left words.old) (step_from session.old.machine session.old.state input.now (left words.old))) }
    ensures machine { session.new.machine ≡ session.old.machine }
    ensures same_words { words.new.0 ≡ words.old.0 }
{
    print_state(alloc, session, number, sink)?;
    match go_on(session, input, words)? {
        Some(stop) => {
            print_stop(alloc, session.signature(), sources, stop, sink)?;
            Ok(Some(stop))
        }
        None => Ok(None),
    }
}

/// Makes a step, or answers why none is made from the present state. Where an invariant is false in the state that it leads
/// to, that isn't told yet.
fn go_on(
    session: &mut Session<'_>,
    input: &Input,
    words: &mut Words,
) -> Result<Option<Stop>, AllocError>
    requires { IsInput session.old.machine input.now }
    ensures goes { IfOk result (λ stop. Goes stop session.new.state (left words.new) (step_from session.old.machine session.old.state input.now (left words.old))) }
    ensures lands { IfOk result (λ _. (session.new.state, left words.new) ≡ landed (session.old.state, left words.old) (step_from session.old.machine session.old.state input.now (left words.old))) }
    ensures machine { session.new.machine ≡ session.old.machine }
    ensures same_words { words.new.0 ≡ words.old.0 }
{
    if let Some(number) = session.stopped() {
        return Ok(Some(Stop::Invariant(number)));
    }
    match session.step(input, words) {
        Ok(()) => Ok(None),
        Err(StepError::Stop(stop)) => match session.stopped() {
            Some(_) => Ok(None),
            None => Ok(Some(stop)),
        },
        Err(StepError::Memory) => Err(AllocError),
    }
}

/// Prints the last state with its number, and how the run ends there.
fn print_last<K: Sink>(
    alloc: Global,
    session: &Session<'_>,
    number: u64,
    sources: &Sources,
    sink: &mut K,
) -> Result<RunEnd, OutError>
    requires { AreShort sources.now }
    ensures writes { Writes K.written K.faults sink.old sink.new (after (numbered_state session.now.machine number session.now.state) (unless_broken session.now.machine sources.now (broken session.now.machine session.now.state) ended)).text Write result }
    ensures end { IfOk result (λ end. end ≡ (unless_broken session.now.machine sources.now (broken session.now.machine session.now.state) ended).end) }
{
    print_state(alloc, session, number, sink)?;
    match session.stopped() {
        Some(number) => {
            let stop = Stop::Invariant(number);
            print_stop(alloc, session.signature(), sources, stop, sink)?;
            Ok(RunEnd::Stopped(stop))
        }
        None => {
            print_end(sink)?;
            Ok(RunEnd::Done)
        }
    }
}
