//! The model that files are.
ghost use Rattle.std.specs.Prelude.{◌≡◌, ◌≤◌, None, length, IfOk, OnOk, IfErr};
ghost use Rattle.asm_node.specs.Model.{machine_of};
ghost use Rattle.asm_node.specs.Parts.{AreNodes};
ghost use Rattle.asm_node.specs.Values.{whole};
ghost use Rattle.asm_build.specs.Assembled.{IsMachineOf};
ghost use Rattle.asm_faults.specs.First.{first_fault};
ghost use Rattle.asm_faults.specs.FunctionFaults.{domains_of, signature_of};
ghost use Rattle.asm_faults.specs.Check.{model_fault};
ghost use Rattle.asm_faults.specs.Model.{IsModelOf};
ghost use Rattle.asm_resolve.specs.Resolved.{Tells, use_faults};

use crate::passes::{settle, uses};
use crate::signature::signature_in;
use asm_build::{Parts, parts as make_parts};
use asm_faults::{First, Known, ModelError};
use asm_node::Model;
use asm_sign::Signature;
use asm_sound::checked_is_well_formed;
use asm_tree::unit::Units;
use std::alloc::Global;

/// The model that files are, given in load order; or what is wrong first: in the first pass that finds anything wrong, the
/// fault of the earliest file and byte.
///
/// The passes look at names, domains, functions, bodies, what is missing, calls, reads and intervals. Different variables
/// have different numbers in the model. There is want of memory too where files declare 4,294,967,295 domains or 2^31
/// functions.
pub fn resolve(alloc: Global, units: &Units) -> Result<Model, ModelError>
    ensures model { IfOk result (λ model. IsModelOf units.now (machine_of model)) }
    ensures faultless { IfOk result (λ model. model_fault units.now ≡ None) }
    ensures fault { IfErr result (Tells units.now (model_fault units.now)) }
{
    let signature = signature_in(alloc, units)?;
    let parts = parts_in(alloc, units, &signature)?;
    Ok(model(units, signature, parts))
}

/// The nodes of a model of this signature, where nothing is wrong with what stands behind its declarations.
fn parts_in(alloc: Global, units: &Units, signature: &Signature) -> Result<Parts, ModelError>
    requires { signature.now ≡ signature_of units.now }
    ensures nodes { IfOk result (λ p. AreNodes p.pool p.main p.invariants p.initial_terms p.definitions p.rules) }
    ensures machine { IfOk result (λ p. IsMachineOf signature.now units.now p) }
    ensures faultless { IfOk result (λ p. first_fault (use_faults signature.now units.now) ≡ None) }
    ensures fault { IfErr result (Tells units.now (first_fault (use_faults signature.now units.now))) }
{
    settle_uses(alloc, units, signature)?;
    let known = Known::new(alloc, signature)?;
    let parts = make_parts(alloc, units, &known)?;
    Ok(parts)
}

/// Refuses files where something is wrong with what stands behind the declarations.
fn settle_uses(alloc: Global, units: &Units, signature: &Signature) -> Result<(), ModelError>
    requires { signature.now ≡ signature_of units.now }
    ensures ok { OnOk result (first_fault (use_faults signature.now units.now) ≡ None) }
    ensures err { IfErr result (Tells units.now (first_fault (use_faults signature.now units.now))) }
{
    let mut first = First::new(alloc);
    uses(alloc, units, signature, &mut first)?;
    settle(units, first)
}

/// The model of these parts.
fn model(units: &Units, signature: Signature, parts: Parts) -> Model
    requires signature { signature ≡ signature_of units.now }
    requires few { length (domains_of units.now) ≤ whole }
    requires faultless { model_fault units.now ≡ None }
    requires nodes { AreNodes parts.pool parts.main parts.invariants parts.initial_terms parts.definitions parts.rules }
    requires machine { IsMachineOf signature units.now parts }
    ensures { IsModelOf units.now (machine_of result) }
{
    checked_is_well_formed();
    let Parts {
        pool,
        main,
        invariants,
        initial_terms,
        definitions,
        rules,
    } = parts;
    Model::new(
        signature,
        pool,
        main,
        invariants,
        initial_terms,
        definitions,
        rules,
    )
}
