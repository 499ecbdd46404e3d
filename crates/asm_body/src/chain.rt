/// The levels whose operators are read to the left.
#[derive(Clone, Copy, Debug, PartialEq, Eq)]
pub enum Chain {
    Equivalence,
    Disjunction,
    Conjunction,
    Sum,
    Product,
}
