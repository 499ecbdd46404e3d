ghost use Rattle.std.specs.Prelude.{◌≡◌, ◌==◌, [], count_by, take_while, reverse, not, ◌∷◌, ◌++◌, ◌<◌, ◌≤◌, ◌^◌, ◌↔◌, length, slice_get, IsNone, OnOk, OnErr, option_copied};
ghost use Rattle.asm_source.specs.Spots.{IsPlace, spot_of, text_of};

use crate::Text;
use asm_list::{Listed, Name};
use std::alloc::{AllocError, Global};
use std::marker::Model;

/// A byte of a file: the file's number among the sources and the byte's in its text, both from 0.
///
/// The length of the text as `at` is the place at its end.
#[derive(Clone, Copy, Debug, PartialEq, Eq)]
pub struct Place {
    pub file: u32,
    pub at: u32,
}

/// A place as a reader counts it: its line and its column in bytes, both from 1.
#[derive(Clone, Copy, Debug, PartialEq, Eq)]
pub struct Spot {
    pub line: u32,
    pub column: u32,
}

/// A file that was read.
#[derive(Debug, Drop)]
pub struct Source {
    pub name: Name,
    pub text: Text,
}

/// The files that were read, in the order of reading.
#[derive(Debug, Drop)]
pub struct Sources {
    list: Listed<Source>,
}

impl Model for Sources {
    ghost use Rattle.std.specs.Prelude.{List};
    ghost use Rattle.asm_source.specs.declared.sources.Source.{Source};

    ghost Value = { List Source };

    ghost view = { λ s. s.list };
}

impl Sources {
    /// The empty list, which takes no memory.
    pub fn new(alloc: Global) -> Self
        ensures { result ≡ [] }
    {
        Sources {
            list: Listed::new(alloc),
        }
    }

    /// Adds a file at the end. Where memory is wanting the list stays as before.
    pub fn push(&mut self, source: Source) -> Result<(), AllocError>
        ensures ok { OnOk result (self.new ≡ self.old ++ source ∷ []) }
        ensures err { OnErr result (self.new ≡ self.old) }
    {
        self.list.push(source)
    }

    /// The number of files.
    pub fn len(&self) -> usize
        ensures { result ≡ length self.now }
    {
        self.list.len()
    }

    /// Whether there is no file.
    pub fn is_empty(&self) -> bool
        ensures { result ≡ (length self.now == 0) }
    {
        self.list.is_empty()
    }

    /// The file at a place in the list, counted from 0.
    pub fn item(&self, place: usize) -> Option<&Source>
        ensures value { option_copied result ≡ slice_get self.now place }
        ensures none { IsNone result ↔ (length self.now ≤ place) }
    {
        self.list.item(place)
    }

    /// All files, in their order.
    pub fn slice(&self) -> &[Source]
        ensures { result.now ≡ self.now }
    {
        self.list.slice()
    }

    /// The line and the column of a place in a text of fewer than 2^31 bytes.
    pub fn spot(&self, place: Place) -> Spot
        requires listed { IsPlace self.now place }
        requires short { place.at < 2 ^ 31 }
        ensures { result ≡ spot_of self.now place }
    {
        let before = &self.text(place.file)[..place.at as usize];
        Spot {
            line: 1 + feeds(before) as u32,
            column: 1 + since_feed(before) as u32,
        }
    }

    fn text(&self, file: u32) -> &[u8]
        requires { file < length self.now }
        ensures { result.now ≡ text_of self.now file }
    {
        self.list.slice()[file as usize].text.slice()
    }
}

// How many line feeds there are.
fn feeds(bytes: &[u8]) -> usize
    ensures count { result ≡ count_by (λ byte. byte == 10) bytes.now }
    ensures within { result ≤ length bytes.now }
{
    bytes.iter().filter(|byte| **byte == b'\n').count()
}

// How many bytes there are after the last line feed, or in all where there is none.
fn since_feed(bytes: &[u8]) -> usize
    ensures count { result ≡ length (take_while (λ byte. not (byte == 10)) (reverse bytes.now)) }
    ensures within { result ≤ length bytes.now }
{
    bytes
        .iter()
        .rev()
        .take_while(|byte| **byte != b'\n')
        .count()
}
