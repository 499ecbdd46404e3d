//! The types that operators ask for and give.

ghost use Rattle.std.specs.Prelude.{◌≡◌, ℕ};
ghost use Rattle.asm_sign.specs.Vocabulary.{Vocabulary};
ghost use Rattle.asm_faults.specs.Terms as terms;

use asm_node::TermType;
use asm_tree::{Op, UnaryOp};

/// The type of what an operator of one operand gives.
pub fn unary_gives(op: UnaryOp) -> TermType
    ensures { (v : Vocabulary) (n : ℕ) → result ≡ terms.unary_gives v n op }
{
    match op {
        UnaryOp::Not => TermType::Boolean,
        UnaryOp::Negate => TermType::Integer,
        UnaryOp::Abs => TermType::Integer,
        UnaryOp::IsDefined => TermType::Boolean,
        UnaryOp::IsUndefined => TermType::Boolean,
    }
}

/// The type that an operator of one operand asks for.
pub fn unary_asks(op: UnaryOp) -> Option<TermType>
    ensures { (v : Vocabulary) (n : ℕ) → result ≡ terms.unary_asks v n op }
{
    match op {
        UnaryOp::Not => Some(TermType::Boolean),
        UnaryOp::Negate => Some(TermType::Integer),
        UnaryOp::Abs => Some(TermType::Integer),
        UnaryOp::IsDefined => None,
        UnaryOp::IsUndefined => None,
    }
}

/// The type of what an operator of two operands gives.
pub fn gives(op: Op) -> TermType
    ensures { (v : Vocabulary) (n : ℕ) → result ≡ terms.gives v n op }
{
    match op {
        Op::Iff => TermType::Boolean,
        Op::Implies => TermType::Boolean,
        Op::Or => TermType::Boolean,
        Op::Xor => TermType::Boolean,
        Op::And => TermType::Boolean,
        Op::Equal => TermType::Boolean,
        Op::NotEqual => TermType::Boolean,
        Op::Less => TermType::Boolean,
        Op::LessEqual => TermType::Boolean,
        Op::Greater => TermType::Boolean,
        Op::GreaterEqual => TermType::Boolean,
        Op::Plus => TermType::Integer,
        Op::Minus => TermType::Integer,
        Op::Times => TermType::Integer,
        Op::Mod => TermType::Integer,
        Op::Idiv => TermType::Integer,
        Op::Min => TermType::Integer,
        Op::Max => TermType::Integer,
    }
}

/// The type that an operator of two operands asks both for. Those of `=` and `!=` only have to be alike.
pub fn asks(op: Op) -> Option<TermType>
    ensures { (v : Vocabulary) (n : ℕ) → result ≡ terms.asks v n op }
{
    match op {
        Op::Equal => None,
        Op::NotEqual => None,
        Op::Iff => Some(TermType::Boolean),
        Op::Implies => Some(TermType::Boolean),
        Op::Or => Some(TermType::Boolean),
        Op::Xor => Some(TermType::Boolean),
        Op::And => Some(TermType::Boolean),
        Op::Less => Some(TermType::Integer),
        Op::LessEqual => Some(TermType::Integer),
        Op::Greater => Some(TermType::Integer),
        Op::GreaterEqual => Some(TermType::Integer),
        Op::Plus => Some(TermType::Integer),
        Op::Minus => Some(TermType::Integer),
        Op::Times => Some(TermType::Integer),
        Op::Mod => Some(TermType::Integer),
        Op::Idiv => Some(TermType::Integer),
        Op::Min => Some(TermType::Integer),
        Op::Max => Some(TermType::Integer),
    }
}
