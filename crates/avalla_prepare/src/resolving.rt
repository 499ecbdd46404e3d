//! Written commands over a model.
ghost use Rattle.std.specs.Prelude.{◌≡◌, [], IfOk, IfErr};
ghost use Rattle.asm_node.specs.RuleTree.{plain_rule};
ghost use Rattle.asm_node.specs.Tree.{plain};
ghost use Rattle.asm_node.specs.WellFormed.{IsCondition, IsRule};
ghost use Rattle.asm_script.specs.Script.{IsConditionOf, IsRuleOf, condition_fault, rule_fault};
ghost use Rattle.avalla_command.specs.Acts.{IsAct, act_of};
ghost use Rattle.avalla_prepare.specs.Prepared.{IsSetting, Tells, model_faults, set_faults};
ghost use Rattle.avalla_prepare.specs.Parts as spec;
ghost use Rattle.avalla_prepare.specs.Scenario.{first_of};
ghost use Rattle.asm_bind.specs.Given.{given_or_name};

use crate::error::ScenarioError;
use asm_bind::{BadSet, Settable};
use asm_faults::ModelError;
use asm_node::{Rule, Term};
use asm_script::Script;
use asm_source::Place;
use asm_tree::rule::RawRule;
use asm_tree::script::RawSet;
use asm_tree::term::RawTerm;
use avalla_command::Command;
use std::alloc::Global;
use std::rc::Rc;

/// The model over which the commands of the file of a number are resolved.
#[derive(Drop)]
pub(crate) struct Over<'m> {
    pub(crate) alloc: Global,
    pub(crate) script: Script<'m>,
    pub(crate) settable: Settable<'m>,
    pub(crate) file: u32,
}

/// The command of a setting.
pub(crate) fn setting(over: &Over, set: &RawSet) -> Result<Command, ScenarioError>
    requires { over.now.settable ≡ over.now.script.signature }
    ensures faultless { IfOk result (λ command. set_faults over.now.file (given_or_name over.now.script.signature set.now) ≡ []) }
    ensures act { IfOk result (λ command. IsSetting over.now.script set.now (act_of command)) }
    ensures sound { IfOk result (λ command. IsAct over.now.script (act_of command)) }
    ensures fault { IfErr result (Tells (first_of (set_faults over.now.file (given_or_name over.now.script.signature set.now)))) }
{
    match over.settable.bind(set) {
        Ok((slot, value)) => Ok(Command::Set(slot, value)),
        Err(BadSet::At(at, name)) => {
            let file = over.file;
            Err(ScenarioError::BadSet(name, Place { file, at }))
        }
        Err(BadSet::Memory) => Err(ScenarioError::Memory),
    }
}

/// The node of a condition.
pub(crate) fn condition(over: &Over, term: &RawTerm) -> Result<Rc<Term>, ScenarioError>
    ensures faultless { IfOk result (λ t. model_faults over.now.file (condition_fault over.now.script.signature term.now) ≡ []) }
    ensures term { IfOk result (λ t. IsConditionOf over.now.script.signature term.now (plain t.value)) }
    ensures sound { IfOk result (λ t. IsCondition over.now.script (plain t.value)) }
    ensures fault { IfErr result (Tells (first_of (model_faults over.now.file (condition_fault over.now.script.signature term.now)))) }
{
    match over.script.condition(term, over.file) {
        Ok(node) => Ok(node),
        Err(error) => Err(told(error)),
    }
}

/// The node of a rule.
pub(crate) fn rule(over: &Over, rule: &RawRule) -> Result<Rc<Rule>, ScenarioError>
    ensures faultless { IfOk result (λ r. model_faults over.now.file (rule_fault over.now.script rule.now) ≡ []) }
    ensures rule { IfOk result (λ r. IsRuleOf over.now.script over.now.file rule.now (plain_rule r.value)) }
    ensures sound { IfOk result (λ r. IsRule over.now.script (plain_rule r.value)) }
    ensures fault { IfErr result (Tells (first_of (model_faults over.now.file (rule_fault over.now.script rule.now)))) }
{
    match over.script.rule(rule, over.file) {
        Ok(node) => Ok(node),
        Err(error) => Err(told(error)),
    }
}

/// Want of memory is told as that of a scenario.
fn told(error: ModelError) -> ScenarioError
    ensures { result ≡ spec.told error }
{
    match error {
        ModelError::Fault(kind, name, place) => {
            ScenarioError::Model(ModelError::Fault(kind, name, place))
        }
        ModelError::Memory => ScenarioError::Memory,
    }
}
