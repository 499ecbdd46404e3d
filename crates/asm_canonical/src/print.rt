//! The call that prints.

ghost use Rattle.asm_source.specs.Appends.{Appends};
ghost use Rattle.asm_canonical.specs.Units.{canonical};

use crate::unit::unit;
use asm_source::Text;
use asm_tree::unit::RawUnit;
use std::alloc::{AllocError, Global};

/// Appends the canonical text.
#[tactic(auto, using(asm_source::proofs::Appending::appends_whole))]
pub fn print_unit(alloc: Global, unit: &RawUnit, out: &mut Text) -> Result<(), AllocError>
    ensures { Appends out.old out.new (canonical unit.now) result }
{
    let mut text = Text::new(alloc);
    self::unit(&mut text, unit)?;
    out.extend(text.slice())
}
