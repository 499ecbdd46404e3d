//! The concrete model of a ring.
ghost use Rattle.std.specs.Prelude.{◌≡◌, ◌≤◌, ◌++◌, IfOk, OnOk};
ghost use Rattle.asm_gen.specs.Ring as spec;

use asm_source::{Text, append_number, append_str};
use std::alloc::{AllocError, Global};

const SIGNATURE: &str =
    "asm ringC\nsignature:\n  domain Station subsetof Integer\n  domain Count subsetof Integer\n  controlled has : Station -> Boolean\n  controlled wait : Station -> Count\n  derived holder : Station\ndefinitions:\n  domain Station = {0..";

const RULE: &str =
    "  invariant over has : (exist unique $s in Station with has($s))\nmain rule r_Main =\n  forall $s in Station with has($s) do\n    if wait($s) > 0 then\n      wait($s) := wait($s) - 1\n    else\n      par\n        has($s) := false\n        has(($s + 1) mod ";

const INITIAL: &str =
    "default init s0:\n  function has($s in Station) = $s = 0\n  function wait($s in Station) = ";

/// The text of the concrete model of a ring of so many stations, each of which holds the token for so many steps.
pub fn concrete_model(alloc: Global, stations: u64, hold: u64) -> Result<Text, AllocError>
    requires { 1 ≤ stations }
    ensures { IfOk result (λ text. text ≡ spec.concrete_text stations hold) }
{
    let mut text = Text::new(alloc);
    text.extend(signature(alloc, stations, hold)?.slice())?;
    text.extend(holder(alloc, stations)?.slice())?;
    text.extend(rule(alloc, stations, hold)?.slice())?;
    text.extend(initial_values(alloc, hold)?.slice())?;
    Ok(text)
}

/// The declarations and the domains.
fn signature(alloc: Global, stations: u64, hold: u64) -> Result<Text, AllocError>
    requires { 1 ≤ stations }
    ensures { IfOk result (λ text. text ≡ spec.signature_text stations hold) }
{
    let mut text = Text::new(alloc);
    append_str(&mut text, SIGNATURE)?;
    append_number(&mut text, stations - 1)?;
    append_str(&mut text, "}\n  domain Count = {0..")?;
    append_number(&mut text, hold)?;
    append_str(&mut text, "}\n")?;
    Ok(text)
}

/// The definition of the holder.
fn holder(alloc: Global, stations: u64) -> Result<Text, AllocError>
    ensures { IfOk result (λ text. text ≡ spec.holder_text stations) }
{
    let mut text = Text::new(alloc);
    append_str(&mut text, "  function holder = ")?;
    append_cases(&mut text, stations)?;
    append_str(&mut text, "undef")?;
    append_ends(&mut text, stations)?;
    append_str(&mut text, "\n")?;
    Ok(text)
}

/// Appends a question for each station.
fn append_cases(text: &mut Text, stations: u64) -> Result<(), AllocError>
    ensures { OnOk result (text.new ≡ text.old ++ spec.cases_text stations) }
{
    'stations: for station in 0..stations {
        append_case(text, station)?;
    }
    Ok(())
}

/// Appends the question whether this station has the token.
fn append_case(text: &mut Text, station: u64) -> Result<(), AllocError>
    ensures { OnOk result (text.new ≡ text.old ++ spec.case_text station) }
{
    append_str(text, "if has(")?;
    append_number(text, station)?;
    append_str(text, ") then ")?;
    append_number(text, station)?;
    append_str(text, " else ")
}

/// Appends the end of each question.
fn append_ends(text: &mut Text, stations: u64) -> Result<(), AllocError>
    ensures { OnOk result (text.new ≡ text.old ++ spec.ends_text stations) }
{
    'stations: for _station in 0..stations {
        append_str(text, " endif")?;
    }
    Ok(())
}

/// The invariant and the main rule.
fn rule(alloc: Global, stations: u64, hold: u64) -> Result<Text, AllocError>
    ensures { IfOk result (λ text. text ≡ spec.rule_text stations hold) }
{
    let mut text = Text::new(alloc);
    append_str(&mut text, RULE)?;
    append_number(&mut text, stations)?;
    append_str(&mut text, ") := true\n        wait(($s + 1) mod ")?;
    append_number(&mut text, stations)?;
    append_str(&mut text, ") := ")?;
    append_number(&mut text, hold)?;
    append_str(&mut text, "\n      endpar\n    endif\n")?;
    Ok(text)
}

/// The initial values.
fn initial_values(alloc: Global, hold: u64) -> Result<Text, AllocError>
    ensures { IfOk result (λ text. text ≡ spec.initial_text hold) }
{
    let mut text = Text::new(alloc);
    append_str(&mut text, INITIAL)?;
    append_number(&mut text, hold)?;
    append_str(&mut text, "\n")?;
    Ok(text)
}
