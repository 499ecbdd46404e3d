//! How much a model declares.
ghost use Rattle.std.specs.Prelude.{◌≡◌, ◌++◌, ◌∷◌, [], IfOk, OnOk};
ghost use Rattle.asm_node.specs.Model.{machine_of};
ghost use Rattle.asm_faults.specs.Model.{IsModelOf};
ghost use Rattle.asm_cli.specs.Counts.{counts_of, counted, counts_text};

use asm_node::Model;
use asm_source::{Text, append_number, append_str};
use asm_tree::unit::Units;
use std::alloc::{AllocError, Global};

/// How much there is of each kind.
#[derive(Clone, Copy, Debug)]
pub struct Counts {
    /// The declared domains, without the truth values.
    pub domains: u64,
    pub functions: u64,
    /// The macro rules and the main rule.
    pub rules: u64,
    pub invariants: u64,
    /// The locations of all dynamic functions, at most 4,096.
    pub locations: u64,
}

/// The line that tells how much the files of a model declare.
pub fn counts_line(alloc: Global, units: &Units, model: &Model) -> Result<Text, AllocError>
    requires { IsModelOf units.now (machine_of model.now) }
    ensures { IfOk result (λ text. text ≡ counts_text (counts_of units.now) ++ 10 ∷ []) }
{
    let counts = counts_in(units, model);
    let mut text = Text::new(alloc);
    append_counts(&mut text, counts)?;
    append_str(&mut text, "\n")?;
    Ok(text)
}

/// How much a model declares.
fn counts_in(units: &Units, model: &Model) -> Counts
    requires { IsModelOf units.now (machine_of model.now) }
    ensures { result ≡ counts_of units.now }
{
    let signature = model.signature();
    Counts {
        domains: signature.domains().len().saturating_sub(1) as u64,
        functions: signature.functions().len() as u64,
        rules: model.rules().len() as u64,
        invariants: model.invariants().len() as u64,
        locations: u64::from(signature.slots()),
    }
}

fn append_counts(text: &mut Text, counts: Counts) -> Result<(), AllocError>
    ensures { OnOk result (text.new ≡ text.old ++ counts_text counts) }
{
    append_str(text, "ok: ")?;
    append_counted(text, counts.domains, " domains, ")?;
    append_counted(text, counts.functions, " functions, ")?;
    append_counted(text, counts.rules, " rules, ")?;
    append_counted(text, counts.invariants, " invariants, ")?;
    append_counted(text, counts.locations, " locations")
}

/// Appends a number and the word behind it.
fn append_counted(text: &mut Text, number: u64, word: &str) -> Result<(), AllocError>
    ensures { OnOk result (text.new ≡ text.old ++ counted number word.now) }
{
    append_number(text, number)?;
    append_str(text, word)
}
