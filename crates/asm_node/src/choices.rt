ghost use Rattle.std.specs.Prelude.{◌≡◌, ◌<◌, ◌↔◌, IsTrue, OnOk, OnErr, length, option_copied, slice_set};
ghost use Rattle.std.specs.FinMap as finite;
ghost use Rattle.asm_node.specs.declared.path.Step.TheVariants.{Part, Called, Bound};
ghost use Rattle.asm_node.specs.Choices.{IsPlace};

use crate::path::{Path, Step, Values};
use asm_domain::Value;
use std::alloc::{AllocError, Global};
use std::marker::Model;

/// The tuples that are chosen at paths.
#[derive(Debug, Drop)]
pub struct Choices {
    choices: Vec<Choice>,
}

/// The tuple that is chosen at a path.
#[derive(Debug, Drop)]
struct Choice {
    path: Path,
    tuple: Values,
}

impl Model for Choices {
    ghost use Rattle.std.specs.Prelude.{map};
    ghost use Rattle.std.specs.FinMap as finite;
    ghost use Rattle.std.specs.Coded.{coded_list};
    ghost use Rattle.asm_node.specs.Choices.{Chosen, path_code};
    ghost use Rattle.asm_node.specs.UpdateSet.{value_code};

    ghost Value = { Chosen };

    ghost coded = { finite.code path_code (coded_list value_code) };

    ghost view = { λ c. finite.from_entries (map (λ choice. (choice.path, choice.tuple)) c.choices.items) };
}

impl Choices {
    /// No choice, which takes no memory.
    pub fn new(alloc: Global) -> Choices
        ensures { result ≡ finite.empty }
    {
        Choices {
            choices: Vec::new(alloc),
        }
    }

    /// Puts a tuple at a path, in place of an earlier one.
    pub fn set(&mut self, path: Path, tuple: Values) -> Result<(), AllocError>
        ensures ok { OnOk result (self.new ≡ finite.insert self.old path tuple) }
        ensures err { OnErr result (self.new ≡ self.old) }
    {
        match place_of(&self.choices, path.slice()) {
            Some(place) => replace(&mut self.choices, place, Choice { path, tuple }),
            None => self.choices.push(Choice { path, tuple })?,
        }
        Ok(())
    }

    /// The tuple at a path, where there is one. It takes no memory.
    pub fn get(&self, path: &Path) -> Option<&Values>
        ensures { option_copied result ≡ finite.get self.now path.now }
    {
        match place_of(&self.choices, path.slice()) {
            Some(place) => Some(&self.choices[place].tuple),
            None => None,
        }
    }
}

fn replace(choices: &mut Vec<Choice>, place: usize, choice: Choice)
    requires { place < length choices.old.items }
    ensures { choices.new.items ≡ slice_set choices.old.items place choice }
{
    choices[place] = choice;
}

/// The first place of a choice at a path.
fn place_of(choices: &[Choice], path: &[Step]) -> Option<usize>
    ensures { IsPlace choices.now path.now result }
{
    for place in 0..choices.len() {
        if same_path(choices[place].path.slice(), path) {
            return Some(place);
        }
    }
    None
}

fn same_path(left: &[Step], right: &[Step]) -> bool
    ensures { IsTrue result ↔ (left.now ≡ right.now) }
{
    if left.len() != right.len() {
        return false;
    }
    for place in 0..left.len() {
        if !same_step(&left[place], &right[place]) {
            return false;
        }
    }
    true
}

fn same_step(left: &Step, right: &Step) -> bool
    ensures { IsTrue result ↔ (left.now ≡ right.now) }
{
    match left {
        Step::Part(number) => is_part(right, *number),
        Step::Called(number) => is_called(right, *number),
        Step::Bound(values) => is_bound(right, values.slice()),
    }
}

fn is_part(step: &Step, number: u32) -> bool
    ensures { IsTrue result ↔ (Part number ≡ step.now) }
{
    match step {
        Step::Part(other) => number == *other,
        Step::Called(_) => false,
        Step::Bound(_) => false,
    }
}

fn is_called(step: &Step, number: u32) -> bool
    ensures { IsTrue result ↔ (Called number ≡ step.now) }
{
    match step {
        Step::Part(_) => false,
        Step::Called(other) => number == *other,
        Step::Bound(_) => false,
    }
}

fn is_bound(step: &Step, values: &[Value]) -> bool
    ensures { IsTrue result ↔ (Bound values.now ≡ step.now) }
{
    match step {
        Step::Part(_) => false,
        Step::Called(_) => false,
        Step::Bound(others) => same_values(values, others.slice()),
    }
}

fn same_values(left: &[Value], right: &[Value]) -> bool
    ensures { IsTrue result ↔ (left.now ≡ right.now) }
{
    left == right
}
