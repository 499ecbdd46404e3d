//! Links between the functions of two models.

use asm_list::Listed;

/// A function of the abstract model, and the function of the concrete one that it is linked with, by their numbers.
#[derive(Clone, Copy, Debug, PartialEq, Eq)]
pub struct Link {
    pub abstract_function: u32,
    pub concrete_function: u32,
}

/// Links in the order of their file.
pub type Links = Listed<Link>;
