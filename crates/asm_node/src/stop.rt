use asm_domain::Value;
use asm_source::Place;

/// Why a run goes no further. Locations are told by their slots, and each place is that of a rule's first token.
#[derive(Clone, Copy, Debug, PartialEq, Eq)]
pub enum Stop {
    /// The update set has two values for a location: the least such location, and its two least values by rank.
    Clash(u32, Value, Value),
    /// The invariant of this number, counted from 1, is the first that isn't true.
    Invariant(u32),
    /// The input gives no value to a monitored location that is read.
    Input(u32),
    /// A choice among candidates wasn't made.
    Choice(Place),
    /// The guard of a rule is `undef`.
    UndefGuard(Place),
    /// An argument of an update is `undef` or outside its domain.
    BadArgument(Place),
    /// The value of an update is neither `undef` nor in the codomain of the location.
    BadValue(Place, u32, Value),
    /// The initial value of a location is neither `undef` nor in its codomain.
    BadInitial(u32, Value),
}
