ghost use Rattle.std.specs.Prelude.{◌≡◌};
ghost use Rattle.asm_faults.specs.Ranges.{universe_spread};
ghost use Rattle.asm_ranges.specs.Spreads.{bounds_of};
ghost use Rattle.asm_ranges.specs.Elements.{element_spread};

use crate::spread::Spread;
use asm_domain::{Domain, Value};

/// The interval of the elements of a domain, where they are numbers. It is never refused.
pub fn of_domain(domain: &Domain) -> Spread
    ensures { bounds_of result ≡ universe_spread domain.now }
{
    let mut spread = Spread::NoNumber;
    'ranks: for rank in 0..domain.size() {
        spread = spread.either(of_element(&domain.element(rank)));
    }
    spread
}

fn of_element(element: &Value) -> Spread
    ensures { bounds_of result ≡ element_spread element.now }
{
    match element {
        Value::Undef => Spread::NoNumber,
        Value::Bool(_) => Spread::NoNumber,
        Value::Int(number) => Spread::one(*number),
        Value::Elem(_, _) => Spread::NoNumber,
    }
}
