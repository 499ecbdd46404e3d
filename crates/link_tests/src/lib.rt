//! The tests of links, over models that are read from texts.
#![tactic(auto)]

#[cfg(test)]
mod links;
#[cfg(test)]
mod reports;
