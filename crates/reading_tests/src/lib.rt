//! The tests of what is read: tokens, the trees of texts, the files of a model, and the canonical text.
#![tactic(auto)]

#[cfg(test)]
mod bodies;
#[cfg(test)]
mod canonical;
#[cfg(test)]
mod tokens;
#[cfg(test)]
mod units;
