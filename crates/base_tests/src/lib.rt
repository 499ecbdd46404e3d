//! The tests of the crates below all others: tables of names, calls by numbers, and the outside.
#![tactic(auto)]

#[cfg(test)]
mod graphs;
#[cfg(test)]
mod names;
#[cfg(test)]
mod outside;
#[cfg(test)]
mod rings;
#[cfg(test)]
mod sources;
