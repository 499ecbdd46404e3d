/// What the operands of an operator, or whole terms, may be, from the loosest level to the tightest.
#[derive(Clone, Copy, Debug, PartialEq, Eq)]
pub enum Level {
    Equivalence,
    Implication,
    Conjunction,
    Negation,
    Sum,
    Product,
    Opposite,
}
