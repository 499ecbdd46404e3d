/// A value of a term or a location.
#[derive(Clone, Copy, Debug, Default, PartialEq, Eq)]
pub enum Value {
    /// The value that is no element of any domain.
    #[default]
    Undef,
    Bool(bool),
    Int(i64),
    /// An element of an enumeration or abstract domain: the domain's number, and the element's rank.
    Elem(u32, u32),
}
