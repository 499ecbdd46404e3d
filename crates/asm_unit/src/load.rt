//! The files of a model, read with all that they import.
ghost use Rattle.std.specs.Prelude.{◌≡◌, ◌==◌, ◌≤◌, ◌<◌, ◌^◌, ◌+◌, ◌-◌, [], length, IfOk, IfErr, Ok, Err};
ghost use Rattle.std.specs.FinMap.{get};
ghost use Rattle.asm_io.specs.Outside.{Told, Rose};
ghost use Rattle.asm_unit.specs.Path.{normalised};
ghost use Rattle.asm_unit.specs.Spelled as spelled;
ghost use Rattle.asm_unit.specs.Loading as loading;
ghost use Rattle.asm_unit.specs.Loading.{Follows, OnRead, AddsFiles, IsJudged, IsFault, IsOfOne, AreUnits};

use crate::error::LoadError;
use crate::import::{import_name, reads_no_file};
use crate::one::{copied, read_text};
use crate::path::normalised;
use crate::spelled::boxed_tree_of;
use asm_io::{Shelf, Source, Sources};
use asm_list::{Boxed, Name};
use asm_tree::unit::{LoadedUnit, RawPath, RawUnit, Units};
use std::alloc::Global;

/// The greatest number of bytes of a model's file.
const MOST_BYTES: u64 = 262_144;

/// The greatest number of files of a model.
const MOST_FILES: usize = 64;

/// Reads a file of a model, adds it to the sources, and answers its unit.
fn read_unit<S: Shelf>(
    alloc: Global,
    shelf: &mut S,
    name: &Name,
    sources: &mut Sources,
) -> Result<Boxed<RawUnit>, LoadError>
    requires few { length sources.old < 2 ^ 32 }
    ensures told { Told (S.files shelf.old) (λ files. Follows (loading.held_as spelled.tree_of loading.most_bytes name.now sources.old (get files name.now)) sources.new result) }
    ensures failed { IfErr result (λ e. OnRead e (Rose (S.faults shelf.old) (S.faults shelf.new))) }
    ensures files { S.files shelf.new ≡ S.files shelf.old }
    ensures later { S.faults shelf.old ≤ S.faults shelf.new }
    ensures added { AddsFiles loading.most_bytes sources.old sources.new }
    ensures read { IfOk result (λ unit. IsJudged spelled.tree_of sources.new (length sources.old) (Ok unit)) }
    ensures fault { IfErr result (IsFault spelled.tree_of sources.new) }
    ensures named { IfErr result (IsOfOne name.now) }
    ensures more { length sources.old ≤ length sources.new }
    ensures bounded { length sources.new ≤ length sources.old + 1 }
{
    let text = read_text(alloc, shelf, name, MOST_BYTES)?;
    let unit = boxed_tree_of(alloc, sources.len() as u32, text.slice());
    let name = copied(alloc, name)?;
    sources.push(Source { name, text })?;
    unit
}

/// Reads one file of a model and adds it to the sources. What it imports isn't read.
pub fn load_unit<S: Shelf>(
    alloc: Global,
    shelf: &mut S,
    name: &str,
    sources: &mut Sources,
) -> Result<Boxed<RawUnit>, LoadError>
    requires few { length sources.old < 2 ^ 31 }

    // The unit of the file, or its fault.
    ensures told { Told (S.files shelf.old) (λ files. Follows (loading.unit_in files name.now sources.old) sources.new result) }
    ensures failed { IfErr result (λ e. OnRead e (Rose (S.faults shelf.old) (S.faults shelf.new))) }

    // What the sources show.
    ensures added { AddsFiles loading.most_bytes sources.old sources.new }
    ensures read { IfOk result (λ unit. IsJudged spelled.tree_of sources.new (length sources.old) (Ok unit)) }
    ensures fault { IfErr result (IsFault spelled.tree_of sources.new) }
    ensures named { IfErr result (IsOfOne (normalised name.now)) }
    ensures one { length sources.new ≤ length sources.old + 1 }

    // Of the shelf.
    ensures files { S.files shelf.new ≡ S.files shelf.old }
    ensures later { S.faults shelf.old ≤ S.faults shelf.new }
{
    let name = normalised(alloc, name)?;
    read_unit(alloc, shelf, &name, sources)
}

/// The place of a name among the sources behind the first ones.
fn place_of(sources: &[Source], first: usize, name: &str) -> Option<usize>
    requires { first ≤ length sources.now }
    ensures { result ≡ loading.place_of first name.now sources.now }
{
    sources[first..]
        .iter()
        .position(|source| source.name.text() == name)
}

/// Whether the unit of the file of this number is loaded.
fn is_loaded(file: usize, units: &[LoadedUnit]) -> bool
    ensures { result ≡ loading.is_loaded file units.now }
{
    units.iter().any(|loaded| loaded.file as usize == file)
}

/// Which files of the sources are of the model, and how deep imports may nest.
#[derive(Clone, Copy)]
struct Room {
    first: usize,
    levels: usize,
}

/// Reads the files of a model and adds them to the sources: the file of this name, and then its imports
/// one after the other, each with all that it imports. The units are answered in load order.
pub fn load_all<S: Shelf>(
    alloc: Global,
    shelf: &mut S,
    name: &str,
    sources: &mut Sources,
) -> Result<Units, LoadError>
    requires few { length sources.old < 2 ^ 31 }

    // The units of the model, or the first fault of a file.
    ensures told { Told (S.files shelf.old) (λ files. Follows (loading.units_in files name.now sources.old) sources.new result) }
    ensures failed { IfErr result (λ e. OnRead e (Rose (S.faults shelf.old) (S.faults shelf.new))) }

    // What the sources show.
    ensures added { AddsFiles loading.most_bytes sources.old sources.new }
    ensures units { IfOk result (AreUnits sources.new) }
    ensures fault { IfErr result (IsFault spelled.tree_of sources.new) }
    ensures few_files { length sources.new ≤ length sources.old + loading.most_files }

    // Of the shelf.
    ensures files { S.files shelf.new ≡ S.files shelf.old }
    ensures later { S.faults shelf.old ≤ S.faults shelf.new }
{
    let name = normalised(alloc, name)?;
    let room = Room {
        first: sources.len(),
        levels: MOST_FILES,
    };
    new_file(alloc, shelf, name, room, sources, Units::new(alloc))
}

/// Loads the unit of a file that wasn't read before, behind all that it imports.
#[cycle(load)]
fn new_file<S: Shelf>(
    alloc: Global,
    shelf: &mut S,
    name: Name,
    room: Room,
    sources: &mut Sources,
    units: Units,
) -> Result<Units, LoadError>
    requires behind { room.first ≤ length sources.old }
    requires few { length sources.old ≤ room.first + loading.most_files }
    requires small { room.first < 2 ^ 31 }
    requires known { AreUnits sources.old units }
    ensures told { Told (S.files shelf.old) (λ files. Follows (loading.new_file files room.first room.levels name sources.old units) sources.new result) }
    ensures failed { IfErr result (λ e. OnRead e (Rose (S.faults shelf.old) (S.faults shelf.new))) }
    ensures files { S.files shelf.new ≡ S.files shelf.old }
    ensures later { S.faults shelf.old ≤ S.faults shelf.new }
    ensures added { AddsFiles loading.most_bytes sources.old sources.new }
    ensures units { IfOk result (AreUnits sources.new) }
    ensures fault { IfErr result (IsFault spelled.tree_of sources.new) }
    ensures more { length sources.old ≤ length sources.new }
    ensures bounded { length sources.new ≤ room.first + loading.most_files }
{
    let file = sources.len();
    if is_full(room.levels, file - room.first) {
        return Err(LoadError::TooManyFiles(name));
    }
    let unit = read_unit(alloc, shelf, &name, sources)?;
    let inner = Room {
        first: room.first,
        levels: room.levels - 1,
    };
    let mut units = imports(
        alloc,
        shelf,
        &name,
        unit.get().imports.slice(),
        inner,
        sources,
        units,
    )?;
    let file = file as u32;
    let unit = unit.into_inner();
    units.push(LoadedUnit { file, unit })?;
    Ok(units)
}

/// Whether no file more may be read, where so many levels are left and so many files were read.
fn is_full(levels: usize, files: usize) -> bool
    ensures { result ≡ loading.is_full levels files }
{
    levels == 0 || MOST_FILES <= files
}

/// Loads what these paths of a file import, one after the other.
#[cycle(load)]
fn imports<S: Shelf>(
    alloc: Global,
    shelf: &mut S,
    from: &Name,
    paths: &[RawPath],
    room: Room,
    sources: &mut Sources,
    units: Units,
) -> Result<Units, LoadError>
    requires behind { room.first ≤ length sources.old }
    requires few { length sources.old ≤ room.first + loading.most_files }
    requires small { room.first < 2 ^ 31 }
    requires known { AreUnits sources.old units }
    ensures told { Told (S.files shelf.old) (λ files. Follows (loading.imports_by (loading.visit_by files room.first (loading.new_file files room.first room.levels)) from.now paths.now sources.old units) sources.new result) }
    ensures failed { IfErr result (λ e. OnRead e (Rose (S.faults shelf.old) (S.faults shelf.new))) }
    ensures files { S.files shelf.new ≡ S.files shelf.old }
    ensures later { S.faults shelf.old ≤ S.faults shelf.new }
    ensures added { AddsFiles loading.most_bytes sources.old sources.new }
    ensures units { IfOk result (AreUnits sources.new) }
    ensures fault { IfErr result (IsFault spelled.tree_of sources.new) }
    ensures more { length sources.old ≤ length sources.new }
    ensures bounded { length sources.new ≤ room.first + loading.most_files }
{
    let mut units = units;
    'paths: for path in paths {
        if reads_no_file(path) {
            continue;
        }
        let name = import_name(alloc, from.text(), path)?;
        units = visit(alloc, shelf, name, room, sources, units)?;
    }
    Ok(units)
}

/// Loads the unit of a file, where it isn't loaded yet, behind all that it imports.
#[cycle(load)]
fn visit<S: Shelf>(
    alloc: Global,
    shelf: &mut S,
    name: Name,
    room: Room,
    sources: &mut Sources,
    units: Units,
) -> Result<Units, LoadError>
    requires behind { room.first ≤ length sources.old }
    requires few { length sources.old ≤ room.first + loading.most_files }
    requires small { room.first < 2 ^ 31 }
    requires known { AreUnits sources.old units }
    ensures told { Told (S.files shelf.old) (λ files. Follows (loading.visit_by files room.first (loading.new_file files room.first room.levels) name sources.old units) sources.new result) }
    ensures failed { IfErr result (λ e. OnRead e (Rose (S.faults shelf.old) (S.faults shelf.new))) }
    ensures files { S.files shelf.new ≡ S.files shelf.old }
    ensures later { S.faults shelf.old ≤ S.faults shelf.new }
    ensures added { AddsFiles loading.most_bytes sources.old sources.new }
    ensures units { IfOk result (AreUnits sources.new) }
    ensures fault { IfErr result (IsFault spelled.tree_of sources.new) }
    ensures more { length sources.old ≤ length sources.new }
    ensures bounded { length sources.new ≤ room.first + loading.most_files }
{
    match place_of(sources.slice(), room.first, name.text()) {
        Some(place) => again(room.first + place, name, units),
        None => new_file(alloc, shelf, name, room, sources, units),
    }
}

/// What comes of a file that was read before.
fn again(file: usize, name: Name, units: Units) -> Result<Units, LoadError>
    ensures { result ≡ loading.again file name units }
{
    if is_loaded(file, units.slice()) {
        Ok(units)
    } else {
        Err(LoadError::ImportCycle(name))
    }
}
