//! Which operator a token is.

ghost use Rattle.std.specs.Prelude.{◌≡◌};
ghost use Rattle.asm_grammar.specs.Grammar.{kind};
ghost use Rattle.asm_tree.specs.Language.{models};
ghost use Rattle.asm_tree.specs.Terms as terms;
ghost use Rattle.asm_tree.specs.Words.{kind_of};
ghost use Rattle.asm_body.specs.Rows as rows;
ghost use Rattle.asm_body.specs.Seen.{seen};

use crate::class::is;
use crate::lexeme::Lexeme;
use asm_tree::class::Class;
use asm_tree::{Op, UnaryOp};

/// The operators of two operands, with their spellings.
pub const OPERATORS: [(Class, Op); 26] = [
    (Class::Iff, Op::Iff),
    (Class::Implies, Op::Implies),
    (Class::Or, Op::Or),
    (Class::Xor, Op::Xor),
    (Class::And, Op::And),
    (Class::Equal, Op::Equal),
    (Class::EqualName, Op::Equal),
    (Class::NotEqual, Op::NotEqual),
    (Class::NotEqualName, Op::NotEqual),
    (Class::Less, Op::Less),
    (Class::LessName, Op::Less),
    (Class::LessEqual, Op::LessEqual),
    (Class::LessEqualName, Op::LessEqual),
    (Class::Greater, Op::Greater),
    (Class::GreaterName, Op::Greater),
    (Class::GreaterEqual, Op::GreaterEqual),
    (Class::GreaterEqualName, Op::GreaterEqual),
    (Class::Plus, Op::Plus),
    (Class::PlusName, Op::Plus),
    (Class::Minus, Op::Minus),
    (Class::MinusName, Op::Minus),
    (Class::Times, Op::Times),
    (Class::TimesName, Op::Times),
    (Class::Mod, Op::Mod),
    (Class::Idiv, Op::Idiv),
    (Class::Min, Op::Min),
];

/// What the table says of the class; `max` is the operator that is left.
#[tactic(auto, using(crate::proofs::Operators::rows))]
fn op_in(table: &[(Class, Op)], class: Class) -> Op
    ensures { result ≡ rows.op_in table.now (kind_of class) }
{
    'rows: for (other, op) in table {
        if is(class, *other) {
            return *op;
        }
    }
    Op::Max
}

/// The operator of two operands that the token is.
#[tactic(auto, using(crate::proofs::Operators::whole_table))]
pub fn op_of(token: &Lexeme) -> Op
    ensures { result ≡ terms.op_at (kind models (seen token.now)) }
{
    op_in(&OPERATORS, token.class)
}

/// The operator of one operand that the token names.
pub fn unary_of(token: &Lexeme) -> UnaryOp
    ensures { result ≡ terms.unary_at (kind models (seen token.now)) }
{
    if is(token.class, Class::Abs) {
        UnaryOp::Abs
    } else if is(token.class, Class::IsDef) {
        UnaryOp::IsDefined
    } else {
        UnaryOp::IsUndefined
    }
}
