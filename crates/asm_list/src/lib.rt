//! The one list type, the box and the name type of the product, which every other crate uses.
#![tactic(auto)]

mod boxed;
mod listed;
mod name;
#[cfg(test)]
mod tests;

pub use boxed::Boxed;
pub use listed::Listed;
pub use name::Name;
