//! Tokens with their classes.

ghost use Rattle.std.specs.Prelude.{◌≡◌};
ghost use Rattle.std.specs.Str.Parse.{digits_value};
ghost use Rattle.asm_tree.specs.Words.{class_of, kind_of};
ghost use Rattle.asm_tree.specs.declared.class.Class.TheVariants as class_is;

use asm_list::Name;
use asm_tree::class::Class;

/// A token: the place of its first byte, its text, the class of that text, and the value of a number.
#[derive(Drop)]
pub struct Lexeme {
    pub class: Class,
    pub at: u32,
    pub text: Name,
    pub value: u32,
    ghost classed: { kind_of class ≡ kind_of (class_of text) },
    ghost valued: { kind_of class ≡ kind_of class_is.Number → value ≡ digits_value 10 text },
}
