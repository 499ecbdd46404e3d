//! Two models and their links.

use asm_node::Model;
use ref_link::Link;

/// An abstract and a concrete model, and the links of their functions.
#[derive(Clone, Copy)]
pub struct LinkedModels<'m> {
    pub abstract_model: &'m Model,
    pub concrete_model: &'m Model,
    pub links: &'m [Link],
}
