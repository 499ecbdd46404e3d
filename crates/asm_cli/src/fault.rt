//! The line of a file's fault.
ghost use Rattle.std.specs.Prelude.{◌≡◌, ◌≤◌, ◌++◌, ◌∷◌, [], All, length, take_while, codes, IfOk, OnOk};
ghost use Rattle.asm_source.specs.Spots.{text_of};
ghost use Rattle.asm_lex.specs.Cut.{in_word};
ghost use Rattle.asm_cli.specs.Fault as spec;
ghost use Rattle.asm_cli.specs.Reply.{Refuses, Replies};
ghost use Rattle.asm_cli.specs.Answer.{Says};
ghost use Rattle.asm_text.specs.Texts.{AreShort};

use crate::exit::Exit;
use crate::say::say;
use asm_io::{Sink, Sources, Text, append_str};
use asm_lex::LexError;
use asm_list::Name;
use asm_text::print_place;
use asm_tree::ParseError;
use asm_unit::LoadError;
use std::alloc::{AllocError, Global};

/// Prints the line of a file's fault, where there is one.
pub fn refuse_load<K: Sink>(
    alloc: Global,
    sources: &Sources,
    error: &LoadError,
    sink: &mut K,
) -> Exit
    requires short { AreShort sources.now }
    ensures { Refuses K.written K.faults sink.old sink.new sources.now error.now result }
{
    match error {
        LoadError::Absent(_) => say_fault(alloc, sources, error, sink),
        LoadError::TooLong(_) => say_fault(alloc, sources, error, sink),
        LoadError::Read(_) => Exit::ReadFault,
        LoadError::Lex(_, _) => say_fault(alloc, sources, error, sink),
        LoadError::Parse(_, _) => say_fault(alloc, sources, error, sink),
        LoadError::ImportCycle(_) => say_fault(alloc, sources, error, sink),
        LoadError::TooManyFiles(_) => say_fault(alloc, sources, error, sink),
        LoadError::Memory => Exit::Memory,
    }
}

/// Prints the line of a file's fault.
fn say_fault<K: Sink>(alloc: Global, sources: &Sources, error: &LoadError, sink: &mut K) -> Exit
    requires short { AreShort sources.now }
    ensures { Replies K.written K.faults sink.old sink.new (Says (spec.fault_text sources.now error.now) 3) result }
{
    match fault_line(alloc, sources, error) {
        Ok(text) => say(sink, text.slice(), 3),
        Err(_) => Exit::Memory,
    }
}

fn fault_line(alloc: Global, sources: &Sources, error: &LoadError) -> Result<Text, AllocError>
    requires short { AreShort sources.now }
    ensures { IfOk result (λ text. text ≡ spec.fault_text sources.now error.now ++ 10 ∷ []) }
{
    let mut text = Text::new(alloc);
    append_fault(&mut text, sources, error)?;
    append_str(&mut text, "\n")?;
    Ok(text)
}

fn append_fault(text: &mut Text, sources: &Sources, error: &LoadError) -> Result<(), AllocError>
    requires short { AreShort sources.now }
    ensures { OnOk result (text.new ≡ text.old ++ spec.fault_text sources.now error.now) }
{
    match error {
        LoadError::Absent(name) => append_both(text, name, ": no such file"),
        LoadError::TooLong(name) => append_both(text, name, ": too long"),
        LoadError::Read(_) => Ok(()),
        LoadError::Lex(place, error) => {
            print_place(sources, *place, text)?;
            append_str(text, lex_message(*error))
        }
        LoadError::Parse(place, error) => {
            print_place(sources, *place, text)?;
            let word = word_at(text_in(sources, place.file), place.at as usize);
            append_parse(text, word, *error)
        }
        LoadError::ImportCycle(name) => append_both(text, name, ": import cycle"),
        LoadError::TooManyFiles(name) => append_both(text, name, ": too many files"),
        LoadError::Memory => Ok(()),
    }
}

fn append_both(text: &mut Text, name: &Name, reason: &str) -> Result<(), AllocError>
    ensures { OnOk result (text.new ≡ text.old ++ (name.now ++ reason.now)) }
{
    append_str(text, name.text())?;
    append_str(text, reason)
}

fn lex_message(error: LexError) -> &'static str
    ensures { result.now ≡ spec.lex_message error }
{
    match error {
        LexError::BadByte(_) => ": unexpected byte",
        LexError::OpenComment(_) => ": comment not closed",
        LexError::NumberTooBig(_) => ": number too big",
        LexError::Memory => "",
    }
}

fn append_parse(text: &mut Text, word: &[u8], error: ParseError) -> Result<(), AllocError>
    ensures { OnOk result (text.new ≡ text.old ++ spec.parse_message word.now error) }
{
    match error {
        ParseError::Syntax(_) => append_str(text, ": syntax error"),
        ParseError::Unsupported(_) => append_unsupported(text, word),
        ParseError::TooDeep(_) => append_str(text, ": nested too deep"),
        ParseError::Memory => Ok(()),
    }
}

fn append_unsupported(text: &mut Text, word: &[u8]) -> Result<(), AllocError>
    ensures { OnOk result (text.new ≡ text.old ++ (codes ": not supported: " ++ word.now)) }
{
    append_str(text, ": not supported: ")?;
    text.extend(word)
}

/// The letters, digits and `_` from a place on.
fn word_at(text: &[u8], at: usize) -> &[u8]
    ensures { result.now ≡ spec.word_at text.now at }
{
    let rest = &text[at.min(text.len())..];
    &rest[..word_len(rest)]
}

fn word_len(text: &[u8]) -> usize
    ensures count { result ≡ length (take_while in_word text.now) }
    ensures within { result ≤ length text.now }
{
    text.iter().take_while(|byte| is_in_word(**byte)).count()
}

fn is_in_word(byte: u8) -> bool
    ensures { result ≡ in_word byte }
{
    matches!(byte, b'a'..=b'z' | b'A'..=b'Z' | b'0'..=b'9' | b'_')
}

/// The text of the file of this number.
pub fn text_in(sources: &Sources, file: u32) -> &[u8]
    ensures { result.now ≡ text_of sources.now file }
{
    match sources.item(file as usize) {
        Some(source) => source.text.slice(),
        None => &[],
    }
}
