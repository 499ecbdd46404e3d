//! Rules as nodes.
ghost use Rattle.std.specs.Prelude.{◌≡◌, ◌<◌, ℕ, List, map, length, slice_get, Some, All, IfOk};
ghost use Rattle.asm_node.specs.Pool.{terms_of, rules_of, HasParts, HasTerm, HasRule, HasArguments};
ghost use Rattle.asm_node.specs.RuleTree as tree;
ghost use Rattle.asm_node.specs.RuleTree.{plain_rule, plain_kind};
ghost use Rattle.asm_node.specs.Tree.{plain};
ghost use Rattle.asm_tree.specs.declared.rule.RawRuleCase.{RawRuleCase};
ghost use Rattle.asm_tree.specs.declared.unit.LoadedUnit.{LoadedUnit};
ghost use Rattle.asm_sign.specs.Vocabulary.{Vocabulary};
ghost use Rattle.asm_faults.specs.At.{Name as Text};
ghost use Rattle.asm_faults.specs.Model as model;
ghost use Rattle.asm_build.specs.Made.{HasGrown, AreTerms, plains};
ghost use Rattle.asm_build.specs.MadeRules.{IsRule, AreRules, plains_of_rules, rule_names};
ghost use Rattle.asm_build.specs.Forms.{test};
ghost use Rattle.asm_build.specs.RuleParts.{rule_cases_from, rule_bounds_from, sequence_on, sequence_from};

use crate::maker::Maker;
use crate::nodes::{
    Bounds, binders_of, bounds_of, function_number, node_at, number_at, operation, term, terms,
};
use asm_faults::Known;
use asm_list::{Listed, Name};
use asm_node::{Op, Rule, RuleKind, Term, Terms};
use asm_source::Place;
use asm_tree::rule::{RawRule, RawRuleCase, RawRuleKind};
use asm_tree::term::RawTerm;
use name_table::Table;
use std::alloc::AllocError;
use std::rc::Rc;

type RuleNodes = Listed<Rc<Rule>>;

/// A node for a rule of a file. A name that stands for nothing gets the number 0.
#[cycle(rule)]
pub fn rule(
    maker: &mut Maker,
    known: &Known,
    names: &Table,
    file: u32,
    raw: &RawRule,
) -> Result<Rc<Rule>, AllocError>
    ensures made { IfOk result (λ r. IsRule maker.new names.now (λ number units. model.rule_of number known.now units file raw.now) r.value) }
    ensures grown { IfOk result (λ r. HasGrown maker.old maker.new) }
{
    let place = Place { file, at: raw.at };
    match &raw.kind {
        RawRuleKind::Skip => Ok(make(maker, RuleKind::Skip(place))?),
        RawRuleKind::Update(name, arguments, value) => {
            let arguments = terms(maker, known, arguments.slice())?;
            let value = term(maker, known, value)?;
            let function = function_number(known, name);
            Ok(make(maker, RuleKind::Update(place, function, arguments, value))?)
        }
        RawRuleKind::Par(parts) => {
            let parts = rules(maker, known, names, file, parts.slice())?;
            Ok(make(maker, RuleKind::Par(place, parts))?)
        }
        RawRuleKind::Seq(parts) => {
            let parts = rules(maker, known, names, file, parts.slice())?;
            Ok(sequence(maker, place, parts.slice())?)
        }
        RawRuleKind::If(guard, then_part, else_part) => {
            let guard = term(maker, known, guard)?;
            let then_part = rule(maker, known, names, file, then_part.get())?;
            let else_part = rule(maker, known, names, file, else_part.get())?;
            Ok(make(maker, RuleKind::If(place, guard, then_part, else_part))?)
        }
        RawRuleKind::Switch(subject, items, other) => {
            let subject = term(maker, known, subject)?;
            let cases = cases_of(maker, known, names, file, items.slice())?;
            let other = rule(maker, known, names, file, other.get())?;
            Ok(nested_cases(maker, place, &subject, &cases, other)?)
        }
        RawRuleKind::Let(items, body) => {
            let bounds = bounds_of(maker, known, items.slice())?;
            let body = rule(maker, known, names, file, body.get())?;
            Ok(nested_bounds(maker, place, &bounds, body)?)
        }
        RawRuleKind::Forall(binders, guard, body) => {
            let binders = binders_of(maker, known, binders.slice())?;
            let guard = term(maker, known, guard)?;
            let body = rule(maker, known, names, file, body.get())?;
            Ok(make(maker, RuleKind::Forall(place, binders, guard, body))?)
        }
        RawRuleKind::Choose(binders, guard, body, otherwise) => {
            let binders = binders_of(maker, known, binders.slice())?;
            let guard = term(maker, known, guard)?;
            let body = rule(maker, known, names, file, body.get())?;
            let otherwise = rule(maker, known, names, file, otherwise.get())?;
            Ok(make(
                maker,
                RuleKind::Choose(place, binders, guard, body, otherwise),
            )?)
        }
        RawRuleKind::Call(name, actuals) => {
            let actuals = terms(maker, known, actuals.slice())?;
            let number = rule_number(names, name);
            Ok(make(maker, RuleKind::Call(place, number, actuals))?)
        }
    }
}

fn rule_number(names: &Table, name: &Name) -> u32
    ensures { (number : Text → ℕ) (units : List LoadedUnit) (file : ℕ) → names.now ≡ rule_names units → (v : Vocabulary) → result ≡ model.rule_number number v units file name.now }
{
    names.find(name).unwrap_or(0)
}

/// The nodes of rules, in their order.
#[cycle(rule)]
fn rules(
    maker: &mut Maker,
    known: &Known,
    names: &Table,
    file: u32,
    raws: &[RawRule],
) -> Result<RuleNodes, AllocError>
    ensures made { IfOk result (λ rs. AreRules maker.new names.now (λ number units. map (model.rule_of number known.now units file) raws.now) rs) }
    ensures grown { IfOk result (λ rs. HasGrown maker.old maker.new) }
{
    let mut made = RuleNodes::new(maker.alloc());
    'raws: for raw in raws {
        let one = rule(maker, known, names, file, raw)?;
        made.push(one)?;
    }
    Ok(made)
}

/// The labels and the rules of cases, in their order.
#[derive(Drop)]
struct Cases {
    labels: Terms,
    rules: RuleNodes,
}

#[cycle(rule)]
fn cases_of(
    maker: &mut Maker,
    known: &Known,
    names: &Table,
    file: u32,
    items: &[RawRuleCase],
) -> Result<Cases, AllocError>
    ensures labels { IfOk result (λ cases. AreTerms maker.new (λ number. map (λ (c : RawRuleCase). model.tree_of number known.now c.label) items.now) cases.labels) }
    ensures rules { IfOk result (λ cases. AreRules maker.new names.now (λ number units. map (λ (c : RawRuleCase). model.rule_of number known.now units file c.rule) items.now) cases.rules) }
    ensures same { IfOk result (λ cases. length cases.labels ≡ length cases.rules) }
    ensures grown { IfOk result (λ cases. HasGrown maker.old maker.new) }
{
    let mut labels = Terms::new(maker.alloc());
    let mut rules = RuleNodes::new(maker.alloc());
    'items: for item in items {
        let label = term(maker, known, &item.label)?;
        let one = rule(maker, known, names, file, &item.rule)?;
        labels.push(label)?;
        rules.push(one)?;
    }
    Ok(Cases { labels, rules })
}

/// Nested conditionals, the first case outermost.
fn nested_cases(
    maker: &mut Maker,
    place: Place,
    subject: &Rc<Term>,
    cases: &Cases,
    other: Rc<Rule>,
) -> Result<Rc<Rule>, AllocError>
    requires subject { HasTerm (terms_of maker.old.pool) subject.now.value }
    requires labels { HasArguments (terms_of maker.old.pool) cases.now.labels }
    requires rules { All (λ r. HasRule (rules_of maker.old.pool) r.value) cases.now.rules }
    requires same { length cases.now.labels ≡ length cases.now.rules }
    requires other { HasRule (rules_of maker.old.pool) other.value }
    ensures made { (names : List Text) → IfOk result (λ r. IsRule maker.new names (λ number units. rule_cases_from place (plain subject.now.value) (plains cases.now.labels) (plains_of_rules cases.now.rules) (plain_rule other.value)) r.value) }
    ensures grown { IfOk result (λ r. HasGrown maker.old maker.new) }
{
    let labels = cases.labels.slice();
    let rules = cases.rules.slice();
    let mut rest = other;
    'done: for done in 0..labels.len() {
        let number = labels.len() - 1 - done;
        let label = node_at(labels, number);
        rest = one_case(maker, place, subject, label, rule_at(rules, number), rest)?;
    }
    Ok(rest)
}

fn one_case(
    maker: &mut Maker,
    place: Place,
    subject: &Rc<Term>,
    label: &Rc<Term>,
    taken: &Rc<Rule>,
    rest: Rc<Rule>,
) -> Result<Rc<Rule>, AllocError>
    requires subject { HasTerm (terms_of maker.old.pool) subject.now.value }
    requires label { HasTerm (terms_of maker.old.pool) label.now.value }
    requires taken { HasRule (rules_of maker.old.pool) taken.now.value }
    requires rest { HasRule (rules_of maker.old.pool) rest.value }
    ensures made { (names : List Text) → IfOk result (λ r. IsRule maker.new names (λ number units. tree.If place (test (plain subject.now.value) (plain label.now.value)) (plain_rule taken.now.value) (plain_rule rest.value)) r.value) }
    ensures grown { IfOk result (λ r. HasGrown maker.old maker.new) }
{
    let guard = operation(maker, Op::Equal, subject.clone()?, label.clone()?)?;
    Ok(make(maker, RuleKind::If(place, guard, taken.clone()?, rest))?)
}

fn rule_at(nodes: &[Rc<Rule>], place: usize) -> &Rc<Rule>
    requires { place < length nodes.now }
    ensures { slice_get nodes.now place ≡ Some result.now }
{
    &nodes[place]
}

/// Nested rules, each of which binds one variable, the first outermost.
fn nested_bounds(
    maker: &mut Maker,
    place: Place,
    bounds: &Bounds,
    body: Rc<Rule>,
) -> Result<Rc<Rule>, AllocError>
    requires terms { HasArguments (terms_of maker.old.pool) bounds.now.terms }
    requires same { length bounds.now.variables ≡ length bounds.now.terms }
    requires body { HasRule (rules_of maker.old.pool) body.value }
    ensures made { (names : List Text) → IfOk result (λ r. IsRule maker.new names (λ number units. rule_bounds_from place bounds.now.variables (plains bounds.now.terms) (plain_rule body.value)) r.value) }
    ensures grown { IfOk result (λ r. HasGrown maker.old maker.new) }
{
    let variables = bounds.variables.slice();
    let terms = bounds.terms.slice();
    let mut rest = body;
    'done: for done in 0..terms.len() {
        let number = terms.len() - 1 - done;
        let bound = node_at(terms, number).clone()?;
        let variable = number_at(variables, number);
        rest = make(maker, RuleKind::Let(place, variable, bound, rest))?;
    }
    Ok(rest)
}

/// One rule after the other; longer lists to the left.
fn sequence(maker: &mut Maker, place: Place, parts: &[Rc<Rule>]) -> Result<Rc<Rule>, AllocError>
    requires { All (λ r. HasRule (rules_of maker.old.pool) r.value) parts.now }
    ensures made { (names : List Text) → IfOk result (λ r. IsRule maker.new names (λ number units. sequence_from place (plains_of_rules parts.now)) r.value) }
    ensures grown { IfOk result (λ r. HasGrown maker.old maker.new) }
{
    match parts {
        [] => Ok(make(maker, RuleKind::Skip(place))?),
        [first, others @ ..] => Ok(sequence_behind(maker, place, first, others)?),
    }
}

fn sequence_behind(
    maker: &mut Maker,
    place: Place,
    first: &Rc<Rule>,
    others: &[Rc<Rule>],
) -> Result<Rc<Rule>, AllocError>
    requires first { HasRule (rules_of maker.old.pool) first.now.value }
    requires others { All (λ r. HasRule (rules_of maker.old.pool) r.value) others.now }
    ensures made { (names : List Text) → IfOk result (λ r. IsRule maker.new names (λ number units. sequence_on place (plain_rule first.now.value) (plains_of_rules others.now)) r.value) }
    ensures grown { IfOk result (λ r. HasGrown maker.old maker.new) }
{
    let mut made = first.clone()?;
    'others: for other in others {
        made = make(maker, RuleKind::Seq(place, made, other.clone()?))?;
    }
    Ok(made)
}

fn make(maker: &mut Maker, kind: RuleKind) -> Result<Rc<Rule>, AllocError>
    requires { HasParts (terms_of maker.old.pool) (rules_of maker.old.pool) kind }
    ensures tree { IfOk result (λ r. plain_rule r.value ≡ plain_kind kind) }
    ensures made { (names : List Text) → IfOk result (λ r. IsRule maker.new names (λ number units. plain_kind kind) r.value) }
    ensures grown { IfOk result (λ r. HasGrown maker.old maker.new) }
{
    Ok(maker.pool.rule(kind)?)
}

/// A node for the rule that does nothing, where no file has a main rule.
pub(crate) fn no_rule(maker: &mut Maker) -> Result<Rc<Rule>, AllocError>
    ensures pool { IfOk result (λ r. HasRule (rules_of maker.new.pool) r.value) }
    ensures tree { IfOk result (λ r. plain_rule r.value ≡ tree.Skip (record { file = 0; at = 0 })) }
    ensures grown { IfOk result (λ r. HasGrown maker.old maker.new) }
{
    Ok(make(maker, RuleKind::Skip(Place { file: 0, at: 0 }))?)
}
