//! Terms and rules as nodes, and what they mean.
#![tactic(auto)]

mod choices;
mod close_term;
mod definition;
mod element;
mod env;
mod input;
mod model;
mod operator;
mod path;
mod pool;
mod rule;
mod stop;
mod term;
mod term_type;
mod words;

pub use choices::Choices;
pub use close_term::close;
pub use definition::{Definition, Definitions, InitialTerms, MacroRule, Rules, Terms};
pub use element::{are_arguments, is_element, within};
pub use env::{Binding, Env};
pub use input::{Input, Inputs};
pub use model::Model;
pub use operator::{Op, Quantifier};
pub use path::{Path, Step, Values};
pub use pool::Pool;
pub use rule::{Rule, RuleKind};
pub use stop::Stop;
pub use term::{Binder, Term, TermKind};
pub use term_type::{TermType, domain_type};
pub use words::Words;
