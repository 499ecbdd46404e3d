//! The signature of a model.
ghost use Rattle.std.specs.Prelude.{◌≡◌, ◌≤◌, [], ◌∷◌, None, length, IfOk, IfErr};
ghost use Rattle.asm_node.specs.Values.{whole};
ghost use Rattle.asm_faults.specs.First.{first_fault};
ghost use Rattle.asm_faults.specs.FunctionFaults.{domains_of, signature_of, function_faults};
ghost use Rattle.asm_resolve.specs.Resolved.{Tells, declaration_faults, signature_faults};

use crate::passes::{declarations, settle};
use asm_declare::{domain_list, function_list, functions};
use asm_faults::{First, ModelError};
use asm_sign::{Domains, Functions, Signature};
use asm_tree::unit::Units;
use std::alloc::{AllocError, Global};

/// The signature, where nothing is wrong with names, domains and functions.
pub fn signature_in(alloc: Global, units: &Units) -> Result<Signature, ModelError>
    ensures signature { IfOk result (λ s. s ≡ signature_of units.now) }
    ensures few { IfOk result (λ s. length (domains_of units.now) ≤ whole) }
    ensures faultless { IfOk result (λ s. first_fault (signature_faults units.now) ≡ None) }
    ensures fault { IfErr result (Tells units.now (first_fault (signature_faults units.now))) }
{
    let domains = domains_in(alloc, units)?;
    let functions = functions_in(alloc, units, &domains)?;
    let signature = signature(alloc, units, domains, functions)?;
    Ok(signature)
}

/// The domains, where nothing is wrong with names and domains.
fn domains_in(alloc: Global, units: &Units) -> Result<Domains, ModelError>
    ensures domains { IfOk result (λ ds. ds ≡ domains_of units.now) }
    ensures few { IfOk result (λ ds. length ds ≤ whole) }
    ensures faultless { IfOk result (λ ds. first_fault (declaration_faults units.now) ≡ None) }
    ensures fault { IfErr result (Tells units.now (first_fault (declaration_faults units.now))) }
{
    let mut first = First::new(alloc);
    declarations(alloc, units, &mut first)?;
    settle(units, first)?;
    let domains = domain_list(alloc, units)?;
    if domains.len() > u32::MAX as usize {
        return Err(ModelError::Memory);
    }
    Ok(domains)
}

/// The functions, where nothing is wrong with them.
fn functions_in(alloc: Global, units: &Units, domains: &Domains) -> Result<Functions, ModelError>
    requires { domains.now ≡ domains_of units.now }
    ensures functions { IfOk result (λ fs. fs ≡ (signature_of units.now).functions) }
    ensures faultless { IfOk result (λ fs. function_faults units.now ≡ []) }
    ensures fault { IfErr result (Tells units.now (first_fault (function_faults units.now ∷ []))) }
{
    let mut first = First::new(alloc);
    functions(alloc, units, domains, &mut first)?;
    settle(units, first)?;
    let functions = function_list(alloc, units, domains)?;
    Ok(functions)
}

/// The signature of these domains and functions.
fn signature(
    alloc: Global,
    units: &Units,
    domains: Domains,
    functions: Functions,
) -> Result<Signature, AllocError>
    requires domains { domains ≡ domains_of units.now }
    requires functions { functions ≡ (signature_of units.now).functions }
    requires faultless { function_faults units.now ≡ [] }
    ensures { IfOk result (λ s. s ≡ signature_of units.now) }
{
    if functions.len() >= 1 << 31 {
        return Err(AllocError);
    }
    Signature::new(alloc, domains, functions)
}
