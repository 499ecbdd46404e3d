//! Ordered finite domains, and the intervals of integer terms.
#![tactic(auto)]

mod domain;
mod error;
mod interval;
mod refusal;
mod value;

pub use domain::{Domain, Names};
pub use error::DomainError;
pub use interval::{Interval, RangeTooWide};
pub use value::Value;
