/// An operator of the language. All but four give `undef` where an argument is `undef`.
#[derive(Clone, Copy, Debug, PartialEq, Eq)]
pub enum Op {
    Iff,
    Implies,
    Or,
    Xor,
    And,
    Not,
    /// Also tells `undef` from the elements, as do the other tests for which an argument may be `undef`.
    Equal,
    NotEqual,
    Less,
    LessEqual,
    Greater,
    GreaterEqual,
    Plus,
    Minus,
    Negate,
    Times,
    /// The rest of a division, with the dividend's sign.
    Mod,
    /// A division that truncates towards zero.
    Idiv,
    Min,
    Max,
    Abs,
    IsDefined,
    IsUndefined,
}

/// Of which tuples the guard has to be true.
#[derive(Clone, Copy, Debug, PartialEq, Eq)]
pub enum Quantifier {
    Forall,
    Exist,
    ExistUnique,
}
