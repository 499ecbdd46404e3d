use asm_domain::Value;
use asm_list::Listed;

/// Values at their places, as those of the variables of a quantifier or a `choose`.
pub type Values = Listed<Value>;

/// A step from a rule to a part of it.
#[derive(Debug, Drop)]
pub enum Step {
    /// The part of this number, counted from 0 in text order.
    Part(u32),
    /// The body of the macro rule of this number.
    Called(u32),
    /// The body under bound values.
    Bound(Values),
}

/// The way from a rule to a part of it, the step from the rule itself first.
pub type Path = Listed<Step>;
