//! What the words ask.
ghost use Rattle.std.specs.Prelude.{◌≡◌, [], IfOk, Some, None, option_map, unwrap_or};
ghost use Rattle.asm_cli.specs.Words as spec;
ghost use Rattle.asm_cli.specs.Words.{asked_of, seen, options_seen, name_seen, ToFormat, ToCheck};

use crate::option::{Options, options_in};
use asm_list::{Listed, Name};
use std::alloc::{AllocError, Global};

/// A run of a model.
#[derive(Debug, Drop)]
pub struct Run<'a> {
    /// The model's file as it was given.
    pub model: &'a str,
    /// The input file, where one is named.
    pub inputs: Option<&'a str>,
    /// The number of steps, at most 100,000. Without it there are as many as the input file has.
    pub steps: Option<u64>,
    pub choices: Listed<u32>,
}

/// A play of a scenario.
#[derive(Debug, Drop)]
pub struct ScenarioPlay<'a> {
    /// The scenario's file as it was given.
    pub scenario: &'a str,
    pub choices: Listed<u32>,
    /// The greatest number of steps of each `step until`, at most 10,000,000.
    pub budget: u64,
}

/// The budget of a play where none is given.
const USUAL_BUDGET: u64 = 1000;

/// What is asked.
#[derive(Debug, Drop)]
pub enum Task<'a> {
    Run(Run<'a>),
    /// The canonical text of the file of this name.
    Format(&'a str),
    /// The check of the model of this name.
    Check(&'a str),
    Play(ScenarioPlay<'a>),
}

/// What the words ask, where they are in the grammar: `check MODEL`, `format MODEL`,
/// `run MODEL [INPUTS] [--steps N] [--choices W,W,..]` or `play SCENARIO [--choices W,W,..] [--budget N]`.
pub fn asked(alloc: Global, words: &[Name]) -> Result<Option<Task<'_>>, AllocError>
    ensures { IfOk result (λ t. option_map seen t ≡ asked_of words.now) }
{
    let [command, rest @ ..] = words else {
        return Ok(None);
    };
    match command.text() {
        "run" => asked_run(alloc, rest),
        "format" => Ok(asked_format(rest)),
        "check" => Ok(asked_check(rest)),
        "play" => asked_play(alloc, rest),
        _ => Ok(None),
    }
}

/// The canonical text of a file, where one word is its name.
fn asked_format(words: &[Name]) -> Option<Task<'_>>
    ensures { option_map seen result ≡ spec.file_asked ToFormat words.now }
{
    match words {
        [model] if is_position(model.text()) => Some(Task::Format(model.text())),
        _ => None,
    }
}

/// The check of a model, where one word is its file's name.
fn asked_check(words: &[Name]) -> Option<Task<'_>>
    ensures { option_map seen result ≡ spec.file_asked ToCheck words.now }
{
    match words {
        [model] if is_position(model.text()) => Some(Task::Check(model.text())),
        _ => None,
    }
}

/// The run that the words behind `run` ask.
fn asked_run(alloc: Global, words: &[Name]) -> Result<Option<Task<'_>>, AllocError>
    ensures { IfOk result (λ t. option_map seen t ≡ spec.run_asked words.now) }
{
    let [model, rest @ ..] = words else {
        return Ok(None);
    };
    if !is_position(model.text()) {
        return Ok(None);
    }
    run_of(alloc, model.text(), rest)
}

/// The run of a model, where the words behind its name are in the grammar.
fn run_of<'a>(
    alloc: Global,
    model: &'a str,
    words: &'a [Name],
) -> Result<Option<Task<'a>>, AllocError>
    ensures { IfOk result (λ t. option_map seen t ≡ spec.run_of_model model.now words.now) }
{
    match words {
        [inputs, rest @ ..] if is_position(inputs.text()) => {
            run_with(alloc, model, Some(inputs.text()), rest)
        }
        _ => run_with(alloc, model, None, words),
    }
}

/// The run of a model with options.
fn run_with<'a>(
    alloc: Global,
    model: &'a str,
    inputs: Option<&'a str>,
    words: &[Name],
) -> Result<Option<Task<'a>>, AllocError>
    ensures { IfOk result (λ t. option_map seen t ≡ spec.run_with model.now (name_seen inputs.entry) words.now) }
{
    match options_in(alloc, words)? {
        Some(options) => Ok(planned(alloc, model, inputs, options)),
        None => Ok(None),
    }
}

/// The run of a model with these options, which takes no budget.
fn planned<'a>(
    alloc: Global,
    model: &'a str,
    inputs: Option<&'a str>,
    options: Options,
) -> Option<Task<'a>>
    ensures { option_map seen result ≡ spec.planned model.now (name_seen inputs.entry) (options_seen options) }
{
    if options.budget.is_some() {
        return None;
    }
    Some(Task::Run(Run {
        model,
        inputs,
        steps: options.steps,
        choices: or_none(alloc, options.choices),
    }))
}

/// The play that the words behind `play` ask.
fn asked_play(alloc: Global, words: &[Name]) -> Result<Option<Task<'_>>, AllocError>
    ensures { IfOk result (λ t. option_map seen t ≡ spec.play_asked words.now) }
{
    let [scenario, rest @ ..] = words else {
        return Ok(None);
    };
    if !is_position(scenario.text()) {
        return Ok(None);
    }
    play_with(alloc, scenario.text(), rest)
}

/// The play of a scenario with options.
fn play_with<'a>(
    alloc: Global,
    scenario: &'a str,
    words: &[Name],
) -> Result<Option<Task<'a>>, AllocError>
    ensures { IfOk result (λ t. option_map seen t ≡ spec.and_then (spec.options_from spec.no_options words.now) (spec.play_planned scenario.now)) }
{
    match options_in(alloc, words)? {
        Some(options) => Ok(play_planned(alloc, scenario, options)),
        None => Ok(None),
    }
}

/// The play of a scenario with these options, which takes no number of steps.
fn play_planned<'a>(alloc: Global, scenario: &'a str, options: Options) -> Option<Task<'a>>
    ensures { option_map seen result ≡ spec.play_planned scenario.now (options_seen options) }
{
    if options.steps.is_some() {
        return None;
    }
    Some(Task::Play(ScenarioPlay {
        scenario,
        choices: or_none(alloc, options.choices),
        budget: options.budget.unwrap_or(USUAL_BUDGET),
    }))
}

/// The choice words, or none.
fn or_none(alloc: Global, choices: Option<Listed<u32>>) -> Listed<u32>
    ensures { result ≡ unwrap_or choices [] }
{
    match choices {
        Some(choices) => choices,
        None => Listed::new(alloc),
    }
}

fn is_position(word: &str) -> bool
    ensures { result ≡ spec.is_position word.now }
{
    !word.is_empty() && !word.starts_with("--")
}
