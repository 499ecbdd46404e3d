//! The commands of a scenario over a model.
ghost use Rattle.std.specs.Prelude.{◌≡◌, ◌≤◌, All, None, IfOk, IfErr, length};
ghost use Rattle.asm_node.specs.Model.{machine_of};
ghost use Rattle.avalla_command.specs.Acts.{IsAct, acts_of};
ghost use Rattle.avalla_prepare.specs.Parts as spec;
ghost use Rattle.avalla_prepare.specs.Prepared.{AreActsOf, Tells, place_of, scenario_fault};
ghost use Rattle.avalla_prepare.specs.Scenario.{commands_met};

use crate::error::ScenarioError;
use crate::surveying::{has_many_blocks, survey};
use crate::unfolding::unfolded;
use asm_list::Name;
use asm_node::Model;
use asm_source::Place;
use asm_tree::script::RawScenario;
use asm_tree::term::RawName;
use avalla_command::Play;
use std::alloc::Global;

/// The commands of a scenario over a model, where blocks are replaced by their commands; or what is wrong with the scenario
/// first: it is too long, a block is missing, or a command isn't right, in the order of the text. The file is the number
/// among the sources of the file in which it stands.
pub fn prepare(
    alloc: Global,
    model: &Model,
    raw: &RawScenario,
    file: u32,
) -> Result<Play, ScenarioError>
    ensures faultless { IfOk result (λ play. scenario_fault (machine_of model.now) file raw.now ≡ None) }
    ensures acts { IfOk result (λ play. AreActsOf (machine_of model.now) file (commands_met raw.now) (acts_of play)) }
    ensures sound { IfOk result (λ play. All (IsAct (machine_of model.now)) (acts_of play)) }
    ensures few { IfOk result (λ play. length play ≤ 100000) }
    ensures fault { IfErr result (Tells (scenario_fault (machine_of model.now) file raw.now)) }
{
    let commands = raw.commands.slice();
    if has_many_blocks(commands) {
        return Err(ScenarioError::TooLong(file));
    }
    match survey(alloc, commands, file)? {
        Some(name) => Err(no_block(alloc, name, file)),
        None => Ok(unfolded(alloc, model, commands, file)?),
    }
}

/// What is told of a missing block.
fn no_block(alloc: Global, name: &RawName, file: u32) -> ScenarioError
    ensures { spec.IsNoBlock name.now (place_of file name.now) result }
{
    match Name::of(alloc, name.text.text()) {
        Ok(text) => {
            let at = name.at;
            ScenarioError::NoBlock(text, Place { file, at })
        }
        Err(_) => ScenarioError::Memory,
    }
}
