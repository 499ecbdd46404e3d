//! Link files as they were read.

use asm_list::Listed;
use asm_tree::term::RawName;

/// `f = g;`
#[derive(Debug, Drop)]
pub struct RawLink {
    /// The function of the abstract model.
    pub abstract_function: RawName,
    /// The function of the concrete model.
    pub concrete_function: RawName,
}

#[derive(Debug, Drop)]
pub struct RawLinks {
    pub links: Listed<RawLink>,
}
