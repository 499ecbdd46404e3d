//! Whole files as they were read.

use crate::rule::RawRule;
use crate::term::{RawBinder, RawName, RawTerm};
use asm_list::{Listed, Name};

/// A part of a path, between `/`.
#[derive(Debug, Drop)]
pub enum RawPart {
    /// `.`
    Here,
    /// `..`
    Above,
    Word(Name),
    /// Two words with `.` between them.
    Dotted(Name, Name),
}

/// A path, at its first byte.
#[derive(Debug, Drop)]
pub struct RawPath {
    pub at: u32,
    pub parts: Listed<RawPart>,
}

/// Where the values of a function come from.
#[derive(Clone, Copy, Debug, PartialEq, Eq)]
pub enum RawFunctionKind {
    Static,
    Derived,
    Controlled,
    Monitored,
    Shared,
    Out,
}

#[derive(Debug, Drop)]
pub enum RawDeclaration {
    /// An enumeration with its elements.
    Enumeration(RawName, Listed<RawName>),
    /// A domain, and the domain that it is a part of.
    Subset(RawName, RawName),
    Abstract(RawName),
    /// A function with the domains of its arguments and its codomain.
    Function(RawFunctionKind, RawName, Listed<RawName>, RawName),
}

/// A whole number as it is written, between -2,147,483,648 and 2,147,483,648, at its first token, with that token's text.
#[derive(Debug, Drop)]
pub struct RawInt {
    pub at: u32,
    pub first: Name,
    pub value: i64,
}

#[derive(Debug, Drop)]
pub enum RawDefinition {
    /// A domain of all numbers between two.
    Range(RawName, RawInt, RawInt),
    /// A domain of these numbers.
    List(RawName, Listed<RawInt>),
    Function(RawFunction),
    /// A macro rule with its parameters and its body.
    Rule(RawName, Listed<RawBinder>, RawRule),
    Invariant(RawInvariant),
}

/// What a function is at its parameters.
#[derive(Debug, Drop)]
pub struct RawFunction {
    pub name: RawName,
    pub parameters: Listed<RawBinder>,
    pub term: RawTerm,
}

/// An invariant, at the word `invariant`.
#[derive(Debug, Drop)]
pub struct RawInvariant {
    pub at: u32,
    pub name: Option<RawName>,
    /// What it is said to be over.
    pub over: Listed<RawName>,
    pub term: RawTerm,
}

#[derive(Debug, Drop)]
pub struct RawMain {
    pub name: RawName,
    pub rule: RawRule,
}

/// The initial values.
#[derive(Debug, Drop)]
pub struct RawInit {
    pub name: RawName,
    pub functions: Listed<RawFunction>,
}

#[derive(Clone, Copy, Debug, PartialEq, Eq)]
pub enum RawUnitKind {
    Asm,
    Module,
}

/// A whole file of a model.
#[derive(Debug, Drop)]
pub struct RawUnit {
    pub kind: RawUnitKind,
    pub name: RawName,
    pub imports: Listed<RawPath>,
    pub declarations: Listed<RawDeclaration>,
    pub definitions: Listed<RawDefinition>,
    pub main: Option<RawMain>,
    pub init: Option<RawInit>,
}

/// A file of a model with its number among the sources.
#[derive(Debug, Drop)]
pub struct LoadedUnit {
    pub file: u32,
    pub unit: RawUnit,
}

/// The files of a model in load order: each stands behind all that it imports, so the named one is the last.
pub type Units = Listed<LoadedUnit>;
