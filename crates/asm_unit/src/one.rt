//! One file, read and cut into tokens.
ghost use Rattle.std.specs.Prelude.{◌≡◌, ◌+◌, ◌≤◌, ◌<◌, ◌^◌, length, IfOk, IfErr, Ok};
ghost use Rattle.std.specs.FinMap.{get};
ghost use Rattle.asm_io.specs.Outside.{Told, Rose};
ghost use Rattle.asm_unit.specs.Path.{normalised};
ghost use Rattle.asm_unit.specs.Spelled as spelled;
ghost use Rattle.asm_unit.specs.Loading as loading;
ghost use Rattle.asm_unit.specs.Loading.{Follows, OnRead, ReadsText, AddsFiles, IsJudged, IsFault, IsOfFile, IsOfOne, Judges};

use crate::error::LoadError;
use crate::path::normalised;
use asm_io::{Place, ReadError, Shelf, Source, Sources, Text};
use asm_lex::{LexError, Tokens, lex};
use asm_list::Name;
use std::alloc::{AllocError, Global};

/// Reads and cuts one file into tokens, and adds it to the sources.
pub fn load_one<S: Shelf>(
    alloc: Global,
    shelf: &mut S,
    name: &str,
    limit: u64,
    sources: &mut Sources,
) -> Result<Tokens, LoadError>
    requires few { length sources.old < 2 ^ 31 }
    requires small { limit ≤ 1048576 }

    // The tokens of the file, or its fault.
    ensures told { Told (S.files shelf.old) (λ files. Follows (loading.tokens_in files limit name.now sources.old) sources.new result) }
    ensures failed { IfErr result (λ e. OnRead e (Rose (S.faults shelf.old) (S.faults shelf.new))) }

    // What the sources show.
    ensures added { AddsFiles limit sources.old sources.new }
    ensures read { IfOk result (λ tokens. IsJudged spelled.tokens_of sources.new (length sources.old) (Ok tokens)) }
    ensures fault { IfErr result (IsFault spelled.tokens_of sources.new) }
    ensures named { IfErr result (IsOfOne (normalised name.now)) }
    ensures one { length sources.new ≤ length sources.old + 1 }

    // Of the shelf.
    ensures files { S.files shelf.new ≡ S.files shelf.old }
    ensures later { S.faults shelf.old ≤ S.faults shelf.new }
{
    let name = normalised(alloc, name)?;
    let text = read_text(alloc, shelf, &name, limit)?;
    let tokens = tokens_of(alloc, sources.len() as u32, text.slice());
    sources.push(Source { name, text })?;
    tokens
}

/// Reads the file of this name.
pub fn read_text<S: Shelf>(
    alloc: Global,
    shelf: &mut S,
    name: &Name,
    limit: u64,
) -> Result<Text, LoadError>
    ensures short { IfOk result (λ text. length text ≤ limit) }
    ensures named { IfErr result (IsOfFile name.now) }
    ensures told { Told (S.files shelf.old) (λ files. ReadsText limit name.now (get files name.now) result) }
    ensures failed { IfErr result (λ e. OnRead e (Rose (S.faults shelf.old) (S.faults shelf.new))) }
    ensures files { S.files shelf.new ≡ S.files shelf.old }
    ensures later { S.faults shelf.old ≤ S.faults shelf.new }
{
    match shelf.read(alloc, name.text(), limit) {
        Ok(text) => Ok(text),
        Err(ReadError::Absent) => Err(LoadError::Absent(copied(alloc, name)?)),
        Err(ReadError::TooLong) => Err(LoadError::TooLong(copied(alloc, name)?)),
        Err(ReadError::Failed) => Err(LoadError::Read(copied(alloc, name)?)),
        Err(ReadError::Memory) => Err(LoadError::Memory),
    }
}

pub fn copied(alloc: Global, name: &Name) -> Result<Name, AllocError>
    ensures { IfOk result (λ copy. copy ≡ name.now) }
{
    Name::of(alloc, name.text())
}

/// The tokens of the text of the file of this number.
pub fn tokens_of(alloc: Global, file: u32, text: &[u8]) -> Result<Tokens, LoadError>
    requires { length text.now ≤ 1048576 }
    ensures { Judges result (spelled.tokens_of file text.now) }
{
    match lex(alloc, text) {
        Ok(tokens) => Ok(tokens),
        Err(LexError::BadByte(at)) => Err(LoadError::Lex(
            Place { file, at },
            LexError::BadByte(at),
        )),
        Err(LexError::OpenComment(at)) => Err(LoadError::Lex(
            Place { file, at },
            LexError::OpenComment(at),
        )),
        Err(LexError::NumberTooBig(at)) => Err(LoadError::Lex(
            Place { file, at },
            LexError::NumberTooBig(at),
        )),
        Err(LexError::Memory) => Err(LoadError::Memory),
    }
}
