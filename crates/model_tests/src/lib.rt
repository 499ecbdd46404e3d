//! The tests of what a model means: domains, signatures, nodes, states, update sets, values, rules, and their texts.
#![tactic(auto)]

#[cfg(test)]
mod domains;
#[cfg(test)]
mod evaluation;
#[cfg(test)]
mod firing;
#[cfg(test)]
mod nodes;
#[cfg(test)]
mod printing;
#[cfg(test)]
mod signatures;
#[cfg(test)]
mod stores;
#[cfg(test)]
mod update_sets;
