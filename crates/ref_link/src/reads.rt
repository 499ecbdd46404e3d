//! Which functions read an input, directly or through definitions.
ghost use Rattle.std.specs.Prelude.{◌≡◌, ◌||◌, ◌<◌, ◌^◌, length, slice_get, map, Some, IfOk};
ghost use Rattle.asm_node.specs.Machine as machine;
ghost use Rattle.asm_node.specs.Model.{machine_of};
ghost use Rattle.asm_node.specs.Tree.{plain, plain_all};
ghost use Rattle.ref_link.specs.Linkable as spec;
ghost use Rattle.ref_link.specs.Rows.{for_each, is_in};

use asm_node::{Model, Term, TermKind};
use asm_sign::{FunKind, Function};
use std::alloc::{AllocError, Global};
use std::rc::Rc;

/// How many definitions may stand inside one another.
const DEFINITIONS: u32 = 32;

/// For each function, whether it is monitored or reads such a function through its definition and those that this reads.
pub fn reading_input(alloc: Global, model: &Model) -> Result<Vec<bool>, AllocError>
    requires few { length (machine_of model.now).signature.functions < 2 ^ 32 }
    ensures { IfOk result (λ row. row.items ≡ for_each (machine_of model.now) (spec.reads_input (machine_of model.now) 32)) }
{
    let mut row = monitored(alloc, model)?;
    for _ in 0..DEFINITIONS {
        row = reading(alloc, model, &row)?;
    }
    Ok(row)
}

fn monitored(alloc: Global, model: &Model) -> Result<Vec<bool>, AllocError>
    ensures { IfOk result (λ row. row.items ≡ for_each (machine_of model.now) (spec.reads_input (machine_of model.now) 0)) }
{
    let mut row = Vec::new(alloc);
    for function in model.signature().functions().slice() {
        row.push(is_monitored(&function.kind))?;
    }
    Ok(row)
}

/// For each function, whether it is monitored, or its definition reads one that is in the row.
fn reading(alloc: Global, model: &Model, row: &[bool]) -> Result<Vec<bool>, AllocError>
    requires few { length (machine_of model.now).signature.functions < 2 ^ 32 }
    ensures { IfOk result (λ next. next.items ≡ for_each (machine_of model.now) (λ f. spec.is_input_or_reads (machine_of model.now) (is_in row.now) f (slice_get (machine_of model.now).signature.functions f))) }
{
    let mut next = Vec::new(alloc);
    for (number, function) in model.signature().functions().slice().iter().enumerate() {
        next.push(is_input_or_reads(model, number as u32, function, row))?;
    }
    Ok(next)
}

fn is_input_or_reads(model: &Model, number: u32, function: &Function, row: &[bool]) -> bool
    ensures { result ≡ spec.is_input_or_reads (machine_of model.now) (is_in row.now) number (Some function.now) }
{
    is_monitored(&function.kind) || definition_reads(model, number, row)
}

fn definition_reads(model: &Model, number: u32, row: &[bool]) -> bool
    ensures { result ≡ spec.definition_reads_any (is_in row.now) (machine.definition_of (machine_of model.now).definitions number) }
{
    match model.definition(number) {
        Some(definition) => reads(row, &definition.term),
        None => false,
    }
}

fn is_monitored(kind: &FunKind) -> bool
    ensures { result ≡ machine.is_monitored kind.now }
{
    matches!(kind, FunKind::Monitored)
}

/// What a row says of a number, `false` past its end.
pub fn is_in(row: &[bool], number: u32) -> bool
    ensures { result ≡ is_in row.now number }
{
    match row.get(number as usize) {
        Some(there) => *there,
        None => false,
    }
}

/// Whether a function in the row stands in the term. Calls nest as deep as the term does.
#[cycle(reads)]
fn reads(row: &[bool], term: &Rc<Term>) -> bool
    ensures { result ≡ spec.reads_any (is_in row.now) (plain term.now.value) }
{
    match &term.kind {
        TermKind::Const(_) => false,
        TermKind::Var(_) => false,
        TermKind::Within(_, term) => reads(row, term),
        TermKind::Get(function, terms) => is_in(row, *function) || some_reads(row, terms.slice()),
        TermKind::Oper(_, terms) => some_reads(row, terms.slice()),
        TermKind::Cond(guard, then_part, else_part) => {
            reads(row, guard) || (reads(row, then_part) || reads(row, else_part))
        }
        TermKind::Let(_, term, body) => reads(row, term) || reads(row, body),
        TermKind::Quant(_, _, guard) => reads(row, guard),
    }
}

#[cycle(reads)]
fn some_reads(row: &[bool], terms: &[Rc<Term>]) -> bool
    ensures { result ≡ spec.read_any (is_in row.now) (plain_all terms.now) }
{
    for term in terms {
        if reads(row, term) {
            return true;
        }
    }
    false
}
