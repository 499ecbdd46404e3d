/// An operator of two operands, written between them or before them as a name.
#[derive(Clone, Copy, Debug, PartialEq, Eq)]
pub enum Op {
    Iff,
    Implies,
    Or,
    Xor,
    And,
    Equal,
    NotEqual,
    Less,
    LessEqual,
    Greater,
    GreaterEqual,
    Plus,
    Minus,
    Times,
    Mod,
    /// A division that truncates towards zero.
    Idiv,
    Min,
    Max,
}

/// An operator of one operand.
#[derive(Clone, Copy, Debug, PartialEq, Eq)]
pub enum UnaryOp {
    Not,
    Negate,
    Abs,
    IsDefined,
    IsUndefined,
}

/// Of which tuples the guard has to be true.
#[derive(Clone, Copy, Debug, PartialEq, Eq)]
pub enum Quantifier {
    Forall,
    Exist,
    ExistUnique,
}
