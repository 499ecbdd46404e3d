//! Sessions.
ghost use Rattle.std.specs.Prelude.{◌≡◌, IfOk};
ghost use Rattle.asm_eval.specs.Beginning.{Begins};
ghost use Rattle.asm_fire.specs.Sound.{IsSound};
ghost use Rattle.asm_node.specs.declared.model.Model as node;
ghost use Rattle.asm_node.specs.Model.{machine_of};
ghost use Rattle.asm_node.specs.RuleTree.{plain_rule};
ghost use Rattle.asm_node.specs.Step.{IsInput, IsState, broken, initial, next};
ghost use Rattle.asm_node.specs.WellFormed.{IsRule};
ghost use Rattle.asm_node.specs.Words.{left};
ghost use Rattle.asm_run.specs.Session.{Answers, SaysStopped, advanced};
ghost use Rattle.asm_run.specs.Stepping.{answer_of};

use crate::advance::next_state;
use crate::error::StepError;
use crate::invariants::broken;
use asm_eval::{InitError, initial};
use asm_node::{Input, Model, Rule, Stop, Words};
use asm_sign::Signature;
use asm_state::{MapStore, Store};
use std::alloc::Global;
use std::mem::swap;
use std::rc::Rc;

/// A state of a model, from which steps are made. It has room for the next state from the start on.
#[derive(Drop)]
pub struct Session<'m> {
    alloc: Global,
    model: &'m Model,
    /// The present state.
    state: MapStore,
    /// Room for the next state.
    next: MapStore,
    /// The number of the first invariant that is false in the present state.
    stopped: Option<u32>,
}

impl<'m> std::marker::Model for Session<'m> {
    ghost use Rattle.asm_node.specs.Model.{machine_of};
    ghost use Rattle.asm_run.specs.Codes.{shown_code};
    ghost use Rattle.asm_run.specs.Held.{IsHeld};
    ghost use Rattle.asm_run.specs.Session.{Shown};

    ghost Value = { Shown };

    ghost coded = { shown_code };

    ghost view = { λ s. record { machine = machine_of s.model.now; state = s.state; stopped = s.stopped } };

    ghost invariant = { λ s. IsHeld (machine_of s.model.now) s.state s.next s.stopped };
}

impl<'m> Session<'m> {
    /// The session of a model in the initial state, which may have a false invariant.
    pub fn new(alloc: Global, model: &'m Model) -> Result<Session<'m>, InitError>
        ensures begins { Begins (λ s. s.state) result (initial (machine_of model.now)) }
        ensures machine { IfOk result (λ s. s.machine ≡ machine_of model.now) }
        ensures stopped { IfOk result (λ s. s.stopped ≡ broken s.machine s.state) }
    {
        let state = initial(alloc, model)?;
        let next = state.copy()?;
        let stopped = broken(alloc, model, &state)?;
        Ok(Session {
            alloc,
            model,
            state,
            next,
            stopped,
        })
    }

    /// The model.
    pub fn model(&self) -> &Model
        ensures { machine_of result.now ≡ self.now.machine }
    {
        self.model
    }

    /// The model's domains, functions and locations.
    pub(crate) fn signature(&self) -> &Signature
        ensures { result.now ≡ self.now.machine.signature }
    {
        self.model.signature()
    }

    /// The number of the first invariant that is false in the present state, counted from 1. No step is made from there.
    pub fn stopped(&self) -> Option<u32>
        ensures value { result ≡ self.now.stopped }
        ensures broken { result ≡ broken self.now.machine self.now.state }
    {
        self.stopped
    }

    /// The present state.
    pub fn state(&self) -> &MapStore
        ensures value { result.now ≡ self.now.state }
        ensures is_state { IsState self.now.machine self.now.state }
    {
        &self.state
    }

    /// Makes a step of the main rule. A false invariant in the state that it leads to stops the session there; after every
    /// other error the session is as before, and so are the words.
    pub fn step(&mut self, input: &Input, words: &mut Words) -> Result<(), StepError>
        requires { IsInput self.old.machine input.now }
        ensures answers { Answers (advanced self.old (next self.old.machine self.old.state input.now (left words.old) self.old.machine.main)) result self.old self.new words.old words.new }
        ensures says { SaysStopped self.old.stopped result }
    {
        let model = self.model;
        self.advance(model.main(), input, words)
    }

    /// Makes a step of a rule in place of the main rule.
    pub fn exec(
        &mut self,
        rule: &Rc<Rule>,
        input: &Input,
        words: &mut Words,
    ) -> Result<(), StepError>
        requires input { IsInput self.old.machine input.now }
        requires rule { IsRule self.old.machine (plain_rule rule.now.value) }
        ensures answers { Answers (advanced self.old (next self.old.machine self.old.state input.now (left words.old) (plain_rule rule.now.value))) result self.old self.new words.old words.new }
        ensures says { SaysStopped self.old.stopped result }
    {
        self.advance(rule, input, words)
    }

    /// Makes a step of a rule that may be fired in each state of a model.
    fn advance(
        &mut self,
        rule: &Rc<Rule>,
        input: &Input,
        words: &mut Words,
    ) -> Result<(), StepError>
        requires input { IsInput self.old.machine input.now }
        requires sound { (model : node.Model) → machine_of model ≡ self.old.machine → IsSound self.old.machine input.now (plain_rule rule.now.value) }
        ensures answers { Answers (advanced self.old (next self.old.machine self.old.state input.now (left words.old) (plain_rule rule.now.value))) result self.old self.new words.old words.new }
        ensures says { SaysStopped self.old.stopped result }
    {
        if let Some(number) = self.stopped {
            return Err(StepError::Stop(Stop::Invariant(number)));
        }
        let taken = words.taken();
        match next_state(
            self.alloc,
            self.model,
            &self.state,
            input,
            words,
            rule,
            &mut self.next,
        ) {
            Ok(stopped) => {
                swap(&mut self.state, &mut self.next);
                self.stopped = stopped;
                answer(stopped)
            }
            Err(error) => {
                words.back_to(taken);
                Err(error)
            }
        }
    }
}

/// What a step answers that leads to a state where this invariant is the first that is false.
fn answer(stopped: Option<u32>) -> Result<(), StepError>
    ensures { result ≡ answer_of stopped }
{
    match stopped {
        Some(number) => Err(StepError::Stop(Stop::Invariant(number))),
        None => Ok(()),
    }
}
