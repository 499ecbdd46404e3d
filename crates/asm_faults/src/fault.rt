use asm_list::Name;

/// What may be wrong with a model. Where several faults have one place, the earlier of these comes first.
#[derive(Clone, Copy, Debug, PartialEq, Eq)]
pub enum ModelFault {
    Duplicate,
    Unknown,
    WrongKind,
    WrongArity,
    WrongType,
    Unbound,
    EmptyDomain,
    DomainTooLarge,
    TooManyLocations,
    NoDefinition,
    NoMain,
    NoInit,
    Cycle,
    CallsTooDeep,
    ForbiddenRead,
    RangeTooWide,
}

/// What is wrong at a byte of a unit, which is told by its number in load order, with the text of the token there.
#[derive(Debug, Drop)]
pub struct Fault {
    pub kind: ModelFault,
    pub unit: u32,
    pub at: u32,
    pub name: Name,
}
