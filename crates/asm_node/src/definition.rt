ghost use Rattle.std.specs.Prelude.{◌≡◌, map, option_map, option_copied};
ghost use Rattle.asm_node.specs.Machine.{definition_of};
ghost use Rattle.asm_node.specs.Parts.{defined_by};

use crate::rule::Rule;
use crate::term::{Binder, Term};
use asm_list::{Listed, Name};
use std::rc::Rc;

/// A function, the variables of its parameters, and the term that gives its values.
#[derive(Drop)]
pub struct Definition {
    pub function: u32,
    pub variables: Listed<u32>,
    pub term: Rc<Term>,
}

/// A macro rule.
#[derive(Drop)]
pub struct MacroRule {
    pub name: Name,
    pub parameters: Listed<Binder>,
    pub body: Rc<Rule>,
}

pub type Terms = Listed<Rc<Term>>;

pub type Definitions = Listed<Definition>;

/// The terms of the initial values, by their functions.
pub type InitialTerms = Listed<Definition>;

/// The macro rules in load order. A rule's number is its place.
pub type Rules = Listed<MacroRule>;

pub(crate) fn find(definitions: &[Definition], function: u32) -> Option<&Definition>
    ensures { option_map defined_by (option_copied result) ≡ definition_of (map defined_by definitions.now) function }
{
    for definition in definitions {
        if definition.function == function {
            return Some(definition);
        }
    }
    None
}
