//! Input files and scenarios as they were read.

use crate::rule::RawRule;
use crate::term::{RawName, RawTerm};
use crate::unit::{RawInt, RawPath};
use asm_list::Listed;

/// A constant of a setting.
#[derive(Debug, Drop)]
pub enum RawConstant {
    Int(RawInt),
    Truth(bool),
    /// An element of an enumeration.
    Element(RawName),
    /// An element of an abstract domain.
    Constant(RawName),
}

/// `set f(c, ..) := c;`
#[derive(Debug, Drop)]
pub struct RawSet {
    pub name: RawName,
    pub arguments: Listed<RawConstant>,
    pub value: RawConstant,
}

/// The settings before each `step` of an input file.
#[derive(Debug, Drop)]
pub struct RawInputs {
    pub steps: Listed<RawInputStep>,
}

#[derive(Debug, Drop)]
pub struct RawInputStep {
    pub sets: Listed<RawSet>,
}

/// A command of a scenario that is no block.
#[derive(Debug, Drop)]
pub enum RawCommand {
    Set(RawSet),
    Step,
    StepUntil(RawTerm),
    Check(RawTerm),
    Exec(RawRule),
    /// Runs the commands of an earlier block.
    ExecBlock(RawName),
}

#[derive(Debug, Drop)]
pub enum RawScenarioCommand {
    Plain(RawCommand),
    /// A block with its name.
    Block(RawName, Listed<RawCommand>),
}

#[derive(Debug, Drop)]
pub struct RawScenario {
    pub name: RawName,
    /// The model that it is about.
    pub load: RawPath,
    pub commands: Listed<RawScenarioCommand>,
}
