ghost use Rattle.std.specs.Prelude.{◌≡◌, IfOk};
ghost use Rattle.asm_faults.specs.Terms.{function_named};
ghost use Rattle.asm_faults.specs.Ranges.{domain_spread, spread_named, codomain_spread};
ghost use Rattle.asm_ranges.specs.Spreads.{bounds_of, whole_numbers};
ghost use Rattle.asm_ranges.specs.Spreading.{AreSpreads};

use crate::domain::of_domain;
use crate::spread::Spread;
use asm_domain::Interval;
use asm_faults::Known;
use asm_list::{Listed, Name};
use asm_sign::{DeclaredDomain, Signature};
use std::alloc::{AllocError, Global};
use std::marker::Model;

/// What names stand for, with the interval of each domain. Contracts see it as what the signature is made of.
#[derive(Debug, Drop)]
pub struct Intervals<'a> {
    known: Known<'a>,
    spreads: Listed<Spread>,
}

impl<'a> Model for Intervals<'a> {
    ghost use Rattle.asm_sign.specs.Vocabulary.{Vocabulary};
    ghost use Rattle.asm_ranges.specs.Spreading.{AreSpreads};

    ghost Value = { Vocabulary };

    ghost view = { λ i. i.known };

    ghost invariant = { λ i. AreSpreads i.known.domains i.spreads };
}

impl<'a> Intervals<'a> {
    /// The intervals of the domains of a signature.
    pub fn new(alloc: Global, signature: &'a Signature) -> Result<Intervals<'a>, AllocError>
        ensures { IfOk result (λ intervals. intervals ≡ signature.now) }
    {
        let spreads = spreads_of(alloc, signature.domains().slice())?;
        let known = Known::new(alloc, signature)?;
        Ok(Intervals { known, spreads })
    }

    /// Where scopes take their memory.
    pub(crate) fn alloc(&self) -> Global {
        self.known.alloc()
    }

    /// The interval of the domain of a number.
    fn domain(&self, number: u32) -> Spread
        ensures { bounds_of result ≡ domain_spread self.now.domains number }
    {
        if number == u32::MAX {
            return whole_numbers();
        }
        match self.spreads.item(number as usize) {
            Some(spread) => *spread,
            None => Spread::NoNumber,
        }
    }

    /// The interval of the domain of a name.
    pub fn domain_named(&self, name: &Name) -> Spread
        ensures { bounds_of result ≡ spread_named self.now name.now }
    {
        match self.known.domain(name) {
            Some(number) => self.domain(number),
            None => Spread::NoNumber,
        }
    }

    /// The interval of the codomain of the function of a name.
    pub fn codomain_of(&self, name: &Name) -> Spread
        ensures { bounds_of result ≡ codomain_spread self.now (function_named self.now name.now) }
    {
        match self.known.function(name) {
            Some(function) => self.domain(function.codomain),
            None => Spread::NoNumber,
        }
    }
}

fn whole_numbers() -> Spread
    ensures { bounds_of result ≡ whole_numbers }
{
    Spread::Between(Interval {
        low: -2_147_483_648,
        high: 2_147_483_648,
    })
}

fn spreads_of(alloc: Global, domains: &[DeclaredDomain]) -> Result<Listed<Spread>, AllocError>
    ensures { IfOk result (λ spreads. AreSpreads domains.now spreads) }
{
    let mut spreads = Listed::new(alloc);
    'domains: for declared in domains {
        spreads.push(of_domain(&declared.domain))?;
    }
    Ok(spreads)
}
