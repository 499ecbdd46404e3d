//! The table of operators.

ghost use Rattle.std.specs.Prelude.{◌≡◌};
ghost use Rattle.asm_canonical.specs.Terms as terms;

use asm_tree::{Op, Quantifier};

/// The level on which an operator binds: 1 is the loosest, and 10 that of the names with their operands in parentheses.
pub fn level(op: Op) -> u8
    ensures { result ≡ terms.level op }
{
    match op {
        Op::Iff => 1,
        Op::Implies => 2,
        Op::Or | Op::Xor => 3,
        Op::And => 4,
        Op::Equal | Op::NotEqual => 6,
        Op::Less | Op::LessEqual | Op::Greater | Op::GreaterEqual => 6,
        Op::Plus | Op::Minus => 7,
        Op::Times | Op::Mod => 8,
        Op::Idiv | Op::Min | Op::Max => 10,
    }
}

/// The loosest level that a left operand may have without parentheses.
pub fn left_level(op: Op) -> u8
    ensures { result ≡ terms.left_level op }
{
    match op {
        Op::Iff => 1,
        Op::Implies => 3,
        Op::Or | Op::Xor => 3,
        Op::And => 4,
        Op::Equal | Op::NotEqual => 7,
        Op::Less | Op::LessEqual | Op::Greater | Op::GreaterEqual => 7,
        Op::Plus | Op::Minus => 7,
        Op::Times | Op::Mod => 8,
        Op::Idiv | Op::Min | Op::Max => 1,
    }
}

/// The loosest level that a right operand may have without parentheses.
pub fn right_level(op: Op) -> u8
    ensures { result ≡ terms.right_level op }
{
    match op {
        Op::Iff => 2,
        Op::Implies => 2,
        Op::Or | Op::Xor => 4,
        Op::And => 5,
        Op::Equal | Op::NotEqual => 7,
        Op::Less | Op::LessEqual | Op::Greater | Op::GreaterEqual => 7,
        Op::Plus | Op::Minus => 8,
        Op::Times | Op::Mod => 9,
        Op::Idiv | Op::Min | Op::Max => 1,
    }
}

/// The symbol or the word of an operator.
pub fn sign(op: Op) -> &'static str
    ensures { result.now ≡ terms.sign op }
{
    match op {
        Op::Iff => "iff",
        Op::Implies => "implies",
        Op::Or => "or",
        Op::Xor => "xor",
        Op::And => "and",
        Op::Equal => "=",
        Op::NotEqual => "!=",
        Op::Less => "<",
        Op::LessEqual => "<=",
        Op::Greater => ">",
        Op::GreaterEqual => ">=",
        Op::Plus => "+",
        Op::Minus => "-",
        Op::Times => "*",
        Op::Mod => "mod",
        Op::Idiv => "idiv",
        Op::Min => "min",
        Op::Max => "max",
    }
}

/// The words of a truth value.
pub fn truth(value: bool) -> &'static str
    ensures { result.now ≡ terms.truth value }
{
    if value { "true" } else { "false" }
}

/// The words of a quantifier.
pub fn quantifier(quantifier: Quantifier) -> &'static str
    ensures { result.now ≡ terms.quantifier_words quantifier }
{
    match quantifier {
        Quantifier::Forall => "forall",
        Quantifier::Exist => "exist",
        Quantifier::ExistUnique => "exist unique",
    }
}
