//! A whole unit.

ghost use Rattle.std.specs.Prelude.{◌≡◌, ◌==◌, false};
ghost use Rattle.asm_grammar.specs.Whole.{GivesWhole, whole_at};
ghost use Rattle.asm_tree.specs.Language.{models};
ghost use Rattle.asm_tree.specs.Rules.{body};
ghost use Rattle.asm_tree.specs.Units as language;
ghost use Rattle.asm_tree.specs.Spelling.{limit};
ghost use Rattle.asm_body.specs.Seen.{all_seen};

use asm_body::Lexeme;
use asm_grammar::Stop;
use asm_list::Boxed;
use asm_tree::unit::RawUnit;
use std::alloc::Global;
use unit_reader::unit_from;

/// The greatest nesting.
const LIMIT: usize = 64;

/// The unit that the tokens are.
#[tactic(auto, using(crate::proofs::Ending::endings), unfolding(asm_grammar::specs::Whole::whole_at))]
pub fn whole(alloc: Global, tokens: &[Lexeme]) -> Result<RawUnit, Stop>
    ensures { GivesWhole result (whole_at models (body false) language.unit limit (all_seen tokens.now)) }
{
    let (unit, rest) = unit_from(alloc, tokens, LIMIT)?;
    let unit = Boxed::new(alloc, unit)?;
    if rest.is_empty() {
        Ok(unit.into_inner())
    } else {
        Err(Stop::Syntax(rest.len()))
    }
}
