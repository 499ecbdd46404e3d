//! Operators as nodes have them.
ghost use Rattle.std.specs.Prelude.{◌≡◌, ℕ};
ghost use Rattle.asm_sign.specs.Vocabulary.{Vocabulary};
ghost use Rattle.asm_faults.specs.At.{Name};
ghost use Rattle.asm_faults.specs.Model as model;

use asm_node::{Op, Quantifier};
use asm_tree::{Op as RawOp, Quantifier as RawQuantifier, UnaryOp};

pub fn op_of(op: RawOp) -> Op
    ensures { (number : Name → ℕ) (v : Vocabulary) → result ≡ model.op_of number v op }
{
    match op {
        RawOp::Iff => Op::Iff,
        RawOp::Implies => Op::Implies,
        RawOp::Or => Op::Or,
        RawOp::Xor => Op::Xor,
        RawOp::And => Op::And,
        RawOp::Equal => Op::Equal,
        RawOp::NotEqual => Op::NotEqual,
        RawOp::Less => Op::Less,
        RawOp::LessEqual => Op::LessEqual,
        RawOp::Greater => Op::Greater,
        RawOp::GreaterEqual => Op::GreaterEqual,
        RawOp::Plus => Op::Plus,
        RawOp::Minus => Op::Minus,
        RawOp::Times => Op::Times,
        RawOp::Mod => Op::Mod,
        RawOp::Idiv => Op::Idiv,
        RawOp::Min => Op::Min,
        RawOp::Max => Op::Max,
    }
}

pub fn unary_of(op: UnaryOp) -> Op
    ensures { (number : Name → ℕ) (v : Vocabulary) → result ≡ model.unary_of number v op }
{
    match op {
        UnaryOp::Not => Op::Not,
        UnaryOp::Negate => Op::Negate,
        UnaryOp::Abs => Op::Abs,
        UnaryOp::IsDefined => Op::IsDefined,
        UnaryOp::IsUndefined => Op::IsUndefined,
    }
}

pub fn quantifier_of(quantifier: RawQuantifier) -> Quantifier
    ensures { (number : Name → ℕ) (v : Vocabulary) → result ≡ model.quantifier_tree number v quantifier }
{
    match quantifier {
        RawQuantifier::Forall => Quantifier::Forall,
        RawQuantifier::Exist => Quantifier::Exist,
        RawQuantifier::ExistUnique => Quantifier::ExistUnique,
    }
}
