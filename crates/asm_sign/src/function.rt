ghost use Rattle.std.specs.Prelude.{◌≡◌};
ghost use Rattle.asm_sign.specs.Kind.{is_dynamic, is_kept};

use asm_domain::Domain;
use asm_list::{Listed, Name};

/// A domain of a model. One that isn't declared, the truth values, has no name.
#[derive(Debug, Drop)]
pub struct DeclaredDomain {
    pub name: Option<Name>,
    pub domain: Domain,
}

/// The domains of a model in load order. A domain's number is its place.
pub type Domains = Listed<DeclaredDomain>;

/// How a function gets its values.
#[derive(Clone, Copy, Debug, PartialEq, Eq)]
pub enum FunKind {
    Static,
    Derived,
    Controlled,
    Out,
    Shared,
    Monitored,
}

impl FunKind {
    /// Whether the function has locations.
    pub fn is_dynamic(self) -> bool
        ensures { result ≡ is_dynamic self }
    {
        match self {
            FunKind::Static | FunKind::Derived => false,
            FunKind::Controlled | FunKind::Out | FunKind::Shared | FunKind::Monitored => true,
        }
    }

    /// Whether a state keeps the values of the function's locations.
    pub fn is_kept(self) -> bool
        ensures { result ≡ is_kept self }
    {
        match self {
            FunKind::Static | FunKind::Derived | FunKind::Monitored => false,
            FunKind::Controlled | FunKind::Out | FunKind::Shared => true,
        }
    }
}

/// A declared function. Domains are told by their numbers; as a codomain, 4,294,967,295 stands for all whole numbers.
#[derive(Debug, Drop)]
pub struct Function {
    pub name: Name,
    pub kind: FunKind,
    pub domains: Listed<u32>,
    pub codomain: u32,
}

/// The functions of a model in load order. A function's number is its place.
pub type Functions = Listed<Function>;
