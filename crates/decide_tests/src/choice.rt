//! Circuits of one group of two.
ghost use Rattle.std.specs.Prelude.{◌≡◌, ◌++◌, ◌<◌, OnOk, IfOk, IfErr};
ghost use Rattle.cnf_base.specs.Clauses.{lit_true, value_in};
ghost use Rattle.decide_tests.specs.Choices.{ChoosesAmong, forbidden};
ghost use Rattle.two_level.specs.declared.problem.EncError.TheVariants.{Memory};

use cnf_base::{Assignment, Lit};
use cnf_gate::{Builder, Circuit};
use std::alloc::Global;
use two_level::EncError;

/// Whether the literal is true where what has no value is false.
pub fn is_true(assignment: &Assignment, lit: Lit) -> bool
    ensures { result ≡ lit_true (value_in assignment.now) lit }
{
    match assignment.slice().get(lit.var as usize) {
        Some(value) => *value == lit.positive,
        None => !lit.positive,
    }
}

/// Makes the literal true, unless that is not asked.
fn force(builder: &mut Builder, lit: Lit, is_free: bool) -> Result<(), EncError>
    requires { lit.var < builder.old.count }
    ensures fixed { OnOk result (builder.new.fixed ≡ builder.old.fixed) }
    ensures groups { OnOk result (builder.new.groups ≡ builder.old.groups) }
    ensures count { OnOk result (builder.new.count ≡ builder.old.count) }
    ensures required { OnOk result (builder.new.required ≡ builder.old.required ++ forbidden is_free lit) }
    ensures err { IfErr result (λ e. e ≡ Memory) }
{
    if is_free {
        return Ok(());
    }
    match builder.require(lit) {
        Ok(()) => Ok(()),
        Err(_) => Err(EncError::Memory),
    }
}

/// A circuit of two literals of which exactly one is true, and the first of them. Each may be true where it is asked.
pub fn choice(alloc: Global, first: bool, second: bool) -> Result<(Circuit, Lit), EncError>
    ensures ok { IfOk result (λ c. ChoosesAmong first second c.0 c.1) }
    ensures err { IfErr result (λ e. e ≡ Memory) }
{
    let mut builder = Builder::new(alloc);
    let Ok(group) = builder.group(2) else {
        return Err(EncError::Memory);
    };
    let lit = group.slice()[0];
    force(&mut builder, lit.negated(), first)?;
    force(&mut builder, lit, second)?;
    let circuit = builder.finish();
    let _formula = circuit.formula();
    Ok((circuit, lit))
}
