//! The lines of a model's fault, of a bad setting, and of what is wrong with a scenario.
ghost use Rattle.std.specs.Prelude.{◌≡◌, ◌≤◌, ◌++◌, ◌∷◌, [], All, length, codes, IfOk, OnOk};
ghost use Rattle.asm_text.specs.Texts.{place_text};
ghost use Rattle.asm_cli.specs.Fault.{model_message, model_fault_text, bad_set_text, name_in, no_block_text};
ghost use Rattle.asm_cli.specs.Reply.{Replies, RefusesScenario};
ghost use Rattle.asm_cli.specs.Answer.{Says};
ghost use Rattle.asm_text.specs.Texts.{AreShort};

use crate::exit::Exit;
use crate::say::say;
use asm_faults::ModelFault;
use asm_io::{Place, Sink, Sources, Text, append_str};
use asm_list::Name;
use asm_resolve::ModelError;
use asm_text::print_place;
use avalla_prepare::ScenarioError;
use std::alloc::{AllocError, Global};

/// Prints the line of a fault of a model, of which the token's text and place are given.
pub fn refuse_model<K: Sink>(
    alloc: Global,
    sources: &Sources,
    kind: ModelFault,
    name: &Name,
    place: Place,
    sink: &mut K,
) -> Exit
    requires { AreShort sources.now }
    ensures { Replies K.written K.faults sink.old sink.new (Says (model_fault_text sources.now kind name.now place) 3) result }
{
    match line(alloc, sources, message(kind), name, place) {
        Ok(text) => say(sink, text.slice(), 3),
        Err(_) => Exit::Memory,
    }
}

/// Prints the line of a bad setting of this name.
pub fn refuse_set<K: Sink>(
    alloc: Global,
    sources: &Sources,
    name: &Name,
    place: Place,
    sink: &mut K,
) -> Exit
    requires { AreShort sources.now }
    ensures { Replies K.written K.faults sink.old sink.new (Says (bad_set_text sources.now place name.now) 3) result }
{
    match line(alloc, sources, ": bad set: ", name, place) {
        Ok(text) => say(sink, text.slice(), 3),
        Err(_) => Exit::Memory,
    }
}

/// Prints the line of what is wrong with a scenario, where there is one.
pub fn refuse_scenario<K: Sink>(
    alloc: Global,
    sources: &Sources,
    error: &ScenarioError,
    sink: &mut K,
) -> Exit
    requires { AreShort sources.now }
    ensures { RefusesScenario K.written K.faults sink.old sink.new sources.now error.now result }
{
    match error {
        ScenarioError::NoBlock(name, place) => refuse_block(alloc, sources, name, *place, sink),
        ScenarioError::BadSet(name, place) => refuse_set(alloc, sources, name, *place, sink),
        ScenarioError::Model(ModelError::Fault(kind, name, place)) => {
            refuse_model(alloc, sources, *kind, name, *place, sink)
        }
        ScenarioError::Model(ModelError::Memory) => Exit::Memory,
        ScenarioError::TooLong(file) => refuse_length(alloc, sources, *file, sink),
        ScenarioError::Memory => Exit::Memory,
    }
}

/// Prints the line of a missing block of this name.
fn refuse_block<K: Sink>(
    alloc: Global,
    sources: &Sources,
    name: &Name,
    place: Place,
    sink: &mut K,
) -> Exit
    requires { AreShort sources.now }
    ensures { Replies K.written K.faults sink.old sink.new (Says (no_block_text sources.now place name.now) 3) result }
{
    match block_line(alloc, sources, name, place) {
        Ok(text) => say(sink, text.slice(), 3),
        Err(_) => Exit::Memory,
    }
}

fn block_line(
    alloc: Global,
    sources: &Sources,
    name: &Name,
    place: Place,
) -> Result<Text, AllocError>
    requires { AreShort sources.now }
    ensures { IfOk result (λ text. text ≡ no_block_text sources.now place name.now ++ 10 ∷ []) }
{
    line(alloc, sources, ": no such block: ", name, place)
}

/// Prints the line of a scenario that is too long, in the file of this number.
fn refuse_length<K: Sink>(alloc: Global, sources: &Sources, file: u32, sink: &mut K) -> Exit
    ensures { Replies K.written K.faults sink.old sink.new (Says (name_in sources.now file ++ codes ": scenario too long") 3) result }
{
    match length_line(alloc, sources, file) {
        Ok(text) => say(sink, text.slice(), 3),
        Err(_) => Exit::Memory,
    }
}

fn length_line(alloc: Global, sources: &Sources, file: u32) -> Result<Text, AllocError>
    ensures { IfOk result (λ text. text ≡ (name_in sources.now file ++ codes ": scenario too long") ++ 10 ∷ []) }
{
    let mut text = Text::new(alloc);
    append_str(&mut text, name_of(sources, file))?;
    append_str(&mut text, ": scenario too long")?;
    append_str(&mut text, "\n")?;
    Ok(text)
}

/// The name of the file of this number.
fn name_of(sources: &Sources, file: u32) -> &str
    ensures { result.now ≡ name_in sources.now file }
{
    match sources.item(file as usize) {
        Some(source) => source.name.text(),
        None => "",
    }
}

/// The line that says this of a token at a place.
fn line(
    alloc: Global,
    sources: &Sources,
    reason: &str,
    name: &Name,
    place: Place,
) -> Result<Text, AllocError>
    requires { AreShort sources.now }
    ensures { IfOk result (λ text. text ≡ (place_text sources.now place ++ (reason.now ++ name.now)) ++ 10 ∷ []) }
{
    let mut text = Text::new(alloc);
    print_place(sources, place, &mut text)?;
    append_named(&mut text, reason, name)?;
    append_str(&mut text, "\n")?;
    Ok(text)
}

fn append_named(text: &mut Text, reason: &str, name: &Name) -> Result<(), AllocError>
    ensures { OnOk result (text.new ≡ text.old ++ (reason.now ++ name.now)) }
{
    append_str(text, reason)?;
    append_str(text, name.text())
}

/// What is said of a fault before the text of its token.
fn message(kind: ModelFault) -> &'static str
    ensures { result.now ≡ model_message kind }
{
    match kind {
        ModelFault::Duplicate => ": declared twice: ",
        ModelFault::Unknown => ": unknown name: ",
        ModelFault::WrongKind => ": wrong kind: ",
        ModelFault::WrongArity => ": wrong number of arguments: ",
        ModelFault::WrongType => ": wrong type: ",
        ModelFault::Unbound => ": unbound variable: ",
        ModelFault::EmptyDomain => ": empty domain: ",
        ModelFault::DomainTooLarge => ": domain too large: ",
        ModelFault::TooManyLocations => ": too many locations: ",
        ModelFault::NoDefinition => ": no definition: ",
        ModelFault::NoMain => ": no main rule: ",
        ModelFault::NoInit => ": no default init: ",
        ModelFault::Cycle => ": defined by itself: ",
        ModelFault::CallsTooDeep => ": calls too deep: ",
        ModelFault::ForbiddenRead => ": forbidden read: ",
        ModelFault::RangeTooWide => ": range too wide: ",
    }
}
