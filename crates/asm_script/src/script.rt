//! What a scenario may name.
ghost use Rattle.std.specs.Prelude.{◌≡◌, None, IfOk, IfErr};
ghost use Rattle.asm_node.specs.Model.{machine_of};
ghost use Rattle.asm_node.specs.RuleTree.{plain_rule};
ghost use Rattle.asm_node.specs.Tree.{plain};
ghost use Rattle.asm_node.specs.WellFormed.{IsCondition, IsRule};
ghost use Rattle.asm_script.specs.Script.{IsConditionOf, IsRuleOf, Tells, condition_fault, rule_fault};

use crate::conditions::condition_of;
use crate::rules::rule_of;
use crate::tables::{Callees, Words, callees_of, words_of};
use asm_faults::ModelError;
use asm_node::{Model, Rule, Term};
use asm_tree::rule::RawRule;
use asm_tree::term::RawTerm;
use std::alloc::{AllocError, Global};
use std::rc::Rc;

/// A model, with tables of what the conditions and rules of a scenario may name.
#[derive(Drop)]
pub struct Script<'m> {
    alloc: Global,
    model: &'m Model,
    words: Words<'m>,
    callees: Callees,
}

impl<'m> std::marker::Model for Script<'m> {
    ghost use Rattle.asm_node.specs.Machine.{Machine};
    ghost use Rattle.asm_node.specs.Model.{machine_of};
    ghost use Rattle.asm_node.specs.Codes.{machine_code};
    ghost use Rattle.asm_script.specs.Tables.{AreTablesOf};

    ghost Value = { Machine };

    ghost coded = { machine_code };

    ghost view = { λ s. machine_of s.model.now };

    ghost invariant = { λ s. AreTablesOf (machine_of s.model.now) s.words.known s.words.intervals s.callees.heads s.callees.names };
}

impl<'m> Script<'m> {
    /// The tables of a model.
    pub fn new(alloc: Global, model: &'m Model) -> Result<Script<'m>, AllocError>
        ensures { IfOk result (λ s. s ≡ machine_of model.now) }
    {
        let words = words_of(alloc, model.signature())?;
        let callees = callees_of(alloc, &words.known, model.rules().slice())?;
        Ok(Script {
            alloc,
            model,
            words,
            callees,
        })
    }

    /// The node of a condition, a truth value without free variables; or what is wrong with it first: a name or a type, then
    /// an interval. Its nodes have a pool of their own.
    pub fn condition(&self, raw: &RawTerm, file: u32) -> Result<Rc<Term>, ModelError>
        ensures faultless { IfOk result (λ t. condition_fault self.now.signature raw.now ≡ None) }
        ensures term { IfOk result (λ t. IsConditionOf self.now.signature raw.now (plain t.value)) }
        ensures sound { IfOk result (λ t. IsCondition self.now (plain t.value)) }
        ensures fault { IfErr result (Tells file (condition_fault self.now.signature raw.now)) }
    {
        condition_of(
            self.alloc,
            &self.words.known,
            &self.words.intervals,
            raw,
            file,
        )
    }

    /// The node of a rule without free variables, in the file of a number; or what is wrong with it first: a name or a type,
    /// then an interval. Its nodes have a pool of their own.
    pub fn rule(&self, raw: &RawRule, file: u32) -> Result<Rc<Rule>, ModelError>
        ensures faultless { IfOk result (λ r. rule_fault self.now raw.now ≡ None) }
        ensures rule { IfOk result (λ r. IsRuleOf self.now file raw.now (plain_rule r.value)) }
        ensures sound { IfOk result (λ r. IsRule self.now (plain_rule r.value)) }
        ensures fault { IfErr result (Tells file (rule_fault self.now raw.now)) }
    {
        rule_of(
            self.alloc,
            &self.words.known,
            &self.words.intervals,
            &self.callees.heads,
            &self.callees.names,
            raw,
            file,
        )
    }
}
