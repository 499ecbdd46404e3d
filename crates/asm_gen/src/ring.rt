//! A ring by its number.
ghost use Rattle.std.specs.Prelude.{◌≡◌, ◌≤◌, IfOk};
ghost use Rattle.asm_gen.specs.Ring as spec;

use crate::abstract_model::abstract_model;
use crate::concrete_model::concrete_model;
use asm_source::{Text, append_str};
use std::alloc::{AllocError, Global};

/// The texts of a ring's models and of its links.
#[derive(Drop)]
pub struct Ring {
    pub abstract_model: Text,
    pub concrete_model: Text,
    pub links: Text,
}

/// How many stations the ring of this number has: from 3 to 8.
pub fn stations(k: u64) -> u64
    ensures number { result ≡ spec.stations k }
    ensures few { result ≤ 8 }
{
    3 + k % 6
}

/// For how many steps a station of the ring holds the token before it passes it on: from 1 to 7.
pub fn hold(k: u64) -> u64
    ensures number { result ≡ spec.hold k }
    ensures few { result ≤ 7 }
{
    1 + k / 6 % 7
}

/// The ring of this number: an abstract model, in which the holder of the token is the next station after each step, and a concrete one, in which each station holds the token for a while.
pub fn pair(alloc: Global, k: u64) -> Result<Ring, AllocError>
    ensures abstract_model { IfOk result (λ ring. ring.abstract_model ≡ spec.abstract_text (spec.stations k)) }
    ensures concrete_model { IfOk result (λ ring. ring.concrete_model ≡ spec.concrete_text (spec.stations k) (spec.hold k)) }
    ensures links { IfOk result (λ ring. ring.links ≡ spec.links_text) }
{
    Ok(Ring {
        abstract_model: abstract_model(alloc, stations(k))?,
        concrete_model: concrete_model(alloc, stations(k), hold(k))?,
        links: links(alloc)?,
    })
}

/// The links: the holders of both models are the same.
fn links(alloc: Global) -> Result<Text, AllocError>
    ensures { IfOk result (λ text. text ≡ spec.links_text) }
{
    let mut text = Text::new(alloc);
    append_str(&mut text, "holder = holder;")?;
    Ok(text)
}
