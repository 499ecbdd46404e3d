//! Blocks that have ended.
ghost use Rattle.std.specs.Prelude.{◌≡◌, OnOk};
ghost use Rattle.asm_faults.specs.At.{Name as Text};
ghost use Rattle.avalla_prepare.specs.Parts as spec;

use asm_list::{Listed, Name};
use asm_tree::script::RawScenarioCommand;
use std::alloc::AllocError;

/// A block that has ended: its name, and the places of its commands among those that are met, from the first one up to that
/// behind the last one.
#[derive(Clone, Copy, Drop)]
pub(crate) struct Ended<'r> {
    name: &'r Name,
    from: usize,
    to: usize,
}

/// The places of the commands of the latest block of a name.
pub(crate) fn latest(ended: &[Ended], name: &Name) -> Option<(usize, usize)>
    ensures { result ≡ spec.latest ended.now name.now }
{
    let mut found = None;
    'names: for block in ended {
        if block.name.text() != name.text() {
            continue;
        }
        found = Some((block.from, block.to));
    }
    found
}

/// After a block it stands among those that have ended.
pub(crate) fn end_block<'r>(
    ended: &mut Listed<Ended<'r>>,
    command: &'r RawScenarioCommand,
    from: usize,
    to: usize,
) -> Result<(), AllocError>
    ensures { OnOk result ((name : Text) → spec.latest ended.new name ≡ spec.latest_by command.now (from, to) name (spec.latest ended.old name)) }
{
    match command {
        RawScenarioCommand::Plain(_) => Ok(()),
        RawScenarioCommand::Block(name, _) => {
            let name = &name.text;
            Ok(ended.push(Ended { name, from, to })?)
        }
    }
}
