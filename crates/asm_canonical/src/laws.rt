//! Laws of the canonical text.

ghost use Rattle.asm_canonical.specs.Law.{CanonicalText, ReadAgain};

/// The canonical text of a unit that some text spells is cut into tokens that spell the same unit, but for its places.
pub fn canonical_text()
    ensures { CanonicalText }
{}

/// The canonical text is read again as the same unit, but for its places, wherever its own nesting is within the limit.
pub fn read_again()
    ensures { ReadAgain }
{}
