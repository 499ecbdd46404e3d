//! The options of runs and plays.
ghost use Rattle.std.specs.Prelude.{◌≡◌, ◌≤◌, ◌==◌, true, IfOk, option_map};
ghost use Rattle.std.specs.List.{slice_split, list_all};
ghost use Rattle.asm_cli.specs.Words as spec;
ghost use Rattle.asm_cli.specs.Words.{options_seen, texts};

use asm_list::{Listed, Name};
use std::alloc::{AllocError, Global};

/// The greatest number of steps.
const MOST_STEPS: u64 = 100_000;

/// The greatest budget.
const MOST_BUDGET: u64 = 10_000_000;

/// The greatest choice word.
const MOST_CHOICE: u64 = 4_294_967_295;

/// The options of runs and plays, where they are given.
#[derive(Debug, Drop)]
pub struct Options {
    pub steps: Option<u64>,
    pub choices: Option<Listed<u32>>,
    pub budget: Option<u64>,
}

/// The options that words give, each an option and its value, if they are in the grammar.
pub fn options_in(alloc: Global, words: &[Name]) -> Result<Option<Options>, AllocError>
    ensures { IfOk result (λ o. option_map options_seen o ≡ spec.options_from spec.no_options words.now) }
{
    let options = Options {
        steps: None,
        choices: None,
        budget: None,
    };
    options_behind(alloc, options, words)
}

/// These options and those that words give. Since each is given at most once, few words are looked at.
fn options_behind(
    alloc: Global,
    options: Options,
    words: &[Name],
) -> Result<Option<Options>, AllocError>
    ensures { IfOk result (λ o. option_map options_seen o ≡ spec.options_from (options_seen options) words.now) }
{
    let Some((name, after)) = words.split_first() else {
        return Ok(Some(options));
    };
    let Some((value, rest)) = after.split_first() else {
        return Ok(None);
    };
    match with_option(alloc, options, name.text(), value.text())? {
        Some(more) => options_behind(alloc, more, rest),
        None => Ok(None),
    }
}

/// One more option, if it is one and wasn't given before.
fn with_option(
    alloc: Global,
    options: Options,
    name: &str,
    value: &str,
) -> Result<Option<Options>, AllocError>
    ensures { IfOk result (λ o. option_map options_seen o ≡ spec.with_option (options_seen options) name.now value.now) }
{
    if name == "--steps" {
        return Ok(with_steps(options, number(value, MOST_STEPS)));
    }
    if name == "--choices" {
        let choices = choices(alloc, value)?;
        return Ok(with_choices(options, choices));
    }
    if name == "--budget" {
        return Ok(with_budget(options, number(value, MOST_BUDGET)));
    }
    Ok(None)
}

fn with_steps(options: Options, value: Option<u64>) -> Option<Options>
    ensures { option_map options_seen result ≡ spec.with_steps (options_seen options) value }
{
    if options.steps.is_some() {
        return None;
    }
    Some(Options {
        steps: Some(value?),
        choices: options.choices,
        budget: options.budget,
    })
}

fn with_choices(options: Options, value: Option<Listed<u32>>) -> Option<Options>
    ensures { option_map options_seen result ≡ spec.with_choices (options_seen options) value }
{
    if options.choices.is_some() {
        return None;
    }
    Some(Options {
        steps: options.steps,
        choices: Some(value?),
        budget: options.budget,
    })
}

fn with_budget(options: Options, value: Option<u64>) -> Option<Options>
    ensures { option_map options_seen result ≡ spec.with_budget (options_seen options) value }
{
    if options.budget.is_some() {
        return None;
    }
    Some(Options {
        steps: options.steps,
        choices: options.choices,
        budget: Some(value?),
    })
}

/// The choice words between single commas, if each is a number of 32 bits.
fn choices(alloc: Global, value: &str) -> Result<Option<Listed<u32>>, AllocError>
    ensures { IfOk result (λ o. o ≡ spec.numbers_up_to spec.most_choice value.now) }
{
    let pieces = pieces(alloc, value)?;
    choices_in(alloc, &pieces)
}

/// What stands between commas.
fn pieces(alloc: Global, value: &str) -> Result<Vec<&str>, AllocError>
    ensures { IfOk result (λ v. texts v.items ≡ slice_split (λ b. b == 44) value.now) }
{
    value.split(',').collect(alloc)
}

fn choices_in(alloc: Global, pieces: &[&str]) -> Result<Option<Listed<u32>>, AllocError>
    ensures { IfOk result (λ o. o ≡ spec.numbers_among spec.most_choice (texts pieces.now)) }
{
    let mut choices = Listed::new(alloc);
    'pieces: for piece in pieces {
        match choice(piece) {
            Some(word) => choices.push(word)?,
            None => return Ok(None),
        }
    }
    Ok(Some(choices))
}

/// The choice word that is written, if it is a number of 32 bits.
fn choice(piece: &str) -> Option<u32>
    ensures { result ≡ spec.number_up_to spec.most_choice piece.now }
{
    Some(number(piece, MOST_CHOICE)? as u32)
}

/// The number that the word writes, where it is at most the limit.
fn number(word: &str, limit: u64) -> Option<u64>
    requires { limit ≤ 4294967295 }
    ensures value { result ≡ spec.number_up_to limit word.now }
{
    if is_number(word) {
        number_of(word.as_bytes(), limit)
    } else {
        None
    }
}

fn is_digit(byte: u8) -> bool
    ensures { result ≡ spec.is_digit byte }
{
    byte.is_ascii_digit()
}

fn leads_with_zero(word: &[u8]) -> bool
    ensures { result ≡ spec.leads_with_zero word.now }
{
    match word {
        [first, _, ..] => *first == b'0',
        _ => false,
    }
}

fn are_digits(word: &[u8]) -> bool
    ensures { result ≡ list_all spec.is_digit word.now }
{
    word.iter().all(|byte| is_digit(*byte))
}

fn is_number(word: &str) -> bool
    ensures { result ≡ spec.is_number word.now }
{
    !word.is_empty() && are_digits(word.as_bytes()) && !leads_with_zero(word.as_bytes())
}

/// The number of decimal digits, where it is at most the limit.
fn number_of(digits: &[u8], limit: u64) -> Option<u64>
    requires digits { list_all spec.is_digit digits.now ≡ true }
    requires small { limit ≤ 4294967295 }
    ensures { result ≡ spec.at_most limit (spec.number_of digits.now) }
{
    let mut number = 0u64;
    'digits: for byte in digits {
        number = number * 10 + u64::from(*byte - b'0');
        if number > limit {
            return None;
        }
    }
    Some(number)
}
