//! Groups of literals for the states, the input and the choices that assignments stand for.

use asm_list::Listed;
use asm_node::{Model, Path};
use cnf_base::Lit;
use enc_group::{Tuples, ValueGroups};
use std::alloc::Global;

/// A version of the state: a literal that is true where there is a state, and a group for each slot.
#[derive(Drop, Debug)]
pub struct Version {
    pub alive: Lit,
    pub groups: ValueGroups,
}

/// A place of a choice, with its tuples.
#[derive(Drop)]
pub struct Site {
    pub path: Path,
    pub tuples: Tuples,
}

/// A group for each slot of each version and of the input, and one for each choice site.
///
/// A slot that a state doesn't keep has the value `undef` alone, and one that isn't monitored has no value as input. In
/// the groups of shared slots `undef` stands for 'not given'.
#[derive(Drop)]
pub struct Bits {
    /// A literal that is true in every assignment.
    pub always: Lit,
    pub versions: Listed<Version>,
    /// The input of monitored functions, by slots.
    pub inputs: ValueGroups,
    /// The input of shared functions, by slots.
    pub shared: ValueGroups,
    pub sites: Listed<Site>,
}

/// Where terms are encoded: in a model, over a version of the state.
#[derive(Drop)]
pub struct Context<'a> {
    pub alloc: Global,
    pub model: &'a Model,
    pub bits: &'a Bits,
    /// The number of the version that terms read.
    pub version: usize,
}
