//! One condition and one rule over a model.
ghost use Rattle.std.specs.Prelude.{◌≡◌, None, IfOk, IfErr};
ghost use Rattle.asm_node.specs.Model.{machine_of};
ghost use Rattle.asm_node.specs.RuleTree.{plain_rule};
ghost use Rattle.asm_node.specs.Tree.{plain};
ghost use Rattle.asm_node.specs.WellFormed.{IsCondition, IsRule};
ghost use Rattle.asm_script.specs.Script.{IsConditionOf, IsRuleOf, Tells, condition_fault, rule_fault};

use crate::script::Script;
use asm_faults::ModelError;
use asm_node::{Model, Rule, Term};
use asm_tree::rule::RawRule;
use asm_tree::term::RawTerm;
use std::alloc::Global;
use std::rc::Rc;

/// The node of a condition over a model, a truth value without free variables; or what is wrong with it first: a name or a
/// type, then an interval. The file is the number among the sources of the file in which it stands. The model stays as it
/// is, its pool too.
pub fn resolve_term(
    alloc: Global,
    model: &Model,
    raw: &RawTerm,
    file: u32,
) -> Result<Rc<Term>, ModelError>
    ensures faultless { IfOk result (λ t. condition_fault (machine_of model.now).signature raw.now ≡ None) }
    ensures term { IfOk result (λ t. IsConditionOf (machine_of model.now).signature raw.now (plain t.value)) }
    ensures sound { IfOk result (λ t. IsCondition (machine_of model.now) (plain t.value)) }
    ensures fault { IfErr result (Tells file (condition_fault (machine_of model.now).signature raw.now)) }
{
    let script = Script::new(alloc, model)?;
    script.condition(raw, file)
}

/// The node of a rule over a model, without free variables; or what is wrong with it first: a name or a type, then an
/// interval. The file is the number among the sources of the file in which it stands. The model stays as it is, its pool too.
pub fn resolve_rule(
    alloc: Global,
    model: &Model,
    raw: &RawRule,
    file: u32,
) -> Result<Rc<Rule>, ModelError>
    ensures faultless { IfOk result (λ r. rule_fault (machine_of model.now) raw.now ≡ None) }
    ensures rule { IfOk result (λ r. IsRuleOf (machine_of model.now) file raw.now (plain_rule r.value)) }
    ensures sound { IfOk result (λ r. IsRule (machine_of model.now) (plain_rule r.value)) }
    ensures fault { IfErr result (Tells file (rule_fault (machine_of model.now) raw.now)) }
{
    let script = Script::new(alloc, model)?;
    script.rule(raw, file)
}
