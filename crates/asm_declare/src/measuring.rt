//! The declared domains with their sizes, and what is wrong with each.
ghost use Rattle.std.specs.Prelude.{◌≡◌, [], ◌∷◌, ◌++◌, length, if◌then◌else◌, true, OnOk, IfOk};
ghost use Rattle.std.specs.List.{flat_map};
ghost use Rattle.std.specs.Option.{unwrap_or};
ghost use Rattle.asm_faults.specs.declared.fault.ModelFault.TheVariants.{WrongKind};
ghost use Rattle.asm_faults.specs.At.{fault_at};
ghost use Rattle.asm_faults.specs.First.{noted};
ghost use Rattle.asm_faults.specs.Files.{domain_in, domains, has_name};
ghost use Rattle.asm_faults.specs.DomainFaults.{integer, declaration_faults};
ghost use Rattle.asm_declare.specs.Measures.{found, domains_in, faults_of_size, faults_of_part, AreDefinitions, AreMeasured, AreMeasures};

use crate::measure::{capped, constants};
use crate::tables::{Definitions, Measure, Measures};
use asm_faults::{First, ModelFault};
use asm_tree::term::RawName;
use asm_tree::unit::{LoadedUnit, RawDeclaration};
use std::alloc::{AllocError, Global};

/// The domains that files declare. What is wrong with one is noted.
pub fn measures(
    alloc: Global,
    units: &[LoadedUnit],
    count: u32,
    definitions: &Definitions,
    first: &mut First,
) -> Result<Measures, AllocError>
    requires count { count ≡ length units.now }
    requires defined { AreDefinitions units.now definitions.now.names definitions.now.sizes }
    ensures noted { OnOk result (first.new ≡ noted first.old (flat_map (declaration_faults units.now) (domains units.now))) }
    ensures measured { IfOk result (λ m. AreMeasures units.now m.names m.measures) }
{
    let mut measures = Measures::new(alloc);
    all_measures(&mut measures, first, units, count, definitions)?;
    Ok(measures)
}

fn all_measures(
    measures: &mut Measures,
    first: &mut First,
    units: &[LoadedUnit],
    count: u32,
    definitions: &Definitions,
) -> Result<(), AllocError>
    requires count { count ≡ length units.now }
    requires defined { AreDefinitions units.now definitions.now.names definitions.now.sizes }
    ensures { OnOk result (AreMeasured units.now first.old measures.old.names measures.old.measures (domains units.now) first.new measures.new.names measures.new.measures) }
{
    for number in 0..count {
        let unit = &units[number as usize].unit;
        unit_measures(
            measures,
            first,
            units,
            definitions,
            number,
            unit.declarations.slice(),
        )?;
    }
    Ok(())
}

fn unit_measures(
    measures: &mut Measures,
    first: &mut First,
    units: &[LoadedUnit],
    definitions: &Definitions,
    number: u32,
    declarations: &[RawDeclaration],
) -> Result<(), AllocError>
    requires { AreDefinitions units.now definitions.now.names definitions.now.sizes }
    ensures { OnOk result (AreMeasured units.now first.old measures.old.names measures.old.measures (domains_in number declarations.now) first.new measures.new.names measures.new.measures) }
{
    for declaration in declarations {
        measure(measures, first, units, definitions, number, declaration)?;
    }
    Ok(())
}

fn measure(
    measures: &mut Measures,
    first: &mut First,
    units: &[LoadedUnit],
    definitions: &Definitions,
    number: u32,
    declaration: &RawDeclaration,
) -> Result<(), AllocError>
    requires { AreDefinitions units.now definitions.now.names definitions.now.sizes }
    ensures { OnOk result (AreMeasured units.now first.old measures.old.names measures.old.measures (domain_in (number, declaration.now)) first.new measures.new.names measures.new.measures) }
{
    match declaration {
        RawDeclaration::Enumeration(name, elements) => {
            let size = capped(elements.len());
            sized(
                measures,
                first,
                number,
                name,
                Measure {
                    is_part: false,
                    size,
                },
            )?;
            Ok(())
        }
        RawDeclaration::Abstract(name) => {
            let size = constants(units, &name.text);
            sized(
                measures,
                first,
                number,
                name,
                Measure {
                    is_part: false,
                    size,
                },
            )?;
            Ok(())
        }
        RawDeclaration::Subset(name, base) => {
            note_base(first, number, base)?;
            part(measures, first, definitions, number, name)?;
            Ok(())
        }
        RawDeclaration::Function(_, _, _, _) => Ok(()),
    }
}

/// Adds a domain whose elements are known.
fn sized(
    measures: &mut Measures,
    first: &mut First,
    number: u32,
    name: &RawName,
    measure: Measure,
) -> Result<(), AllocError>
    ensures noted { OnOk result (first.new ≡ noted first.old (faults_of_size measure.size number name.now)) }
    ensures names { OnOk result (measures.new.names ≡ measures.old.names ++ name.now.text ∷ []) }
    ensures measures { OnOk result (measures.new.measures ≡ measures.old.measures ++ measure ∷ []) }
{
    note_size(first, number, name, measure.size)?;
    measures.add(&name.text, measure)?;
    Ok(())
}

fn note_size(first: &mut First, number: u32, name: &RawName, size: u32) -> Result<(), AllocError>
    ensures { OnOk result (first.new ≡ noted first.old (faults_of_size size number name.now)) }
{
    if size == 0 {
        first.note(ModelFault::EmptyDomain, number, name.at, &name.text)
    } else if size > 256 {
        first.note(ModelFault::DomainTooLarge, number, name.at, &name.text)
    } else {
        Ok(())
    }
}

/// Notes a domain of which no part may be declared.
fn note_base(first: &mut First, number: u32, base: &RawName) -> Result<(), AllocError>
    ensures { OnOk result (first.new ≡ noted first.old (if has_name integer base.now then [] else fault_at WrongKind number base.now ∷ [])) }
{
    if base.text.text() == "Integer" {
        Ok(())
    } else {
        first.note(ModelFault::WrongKind, number, base.at, &base.text)
    }
}

/// Adds a part of another domain.
fn part(
    measures: &mut Measures,
    first: &mut First,
    definitions: &Definitions,
    number: u32,
    name: &RawName,
) -> Result<(), AllocError>
    ensures noted { OnOk result (first.new ≡ noted first.old (faults_of_part (found definitions.now.names definitions.now.sizes name.now.text) number name.now)) }
    ensures names { OnOk result (measures.new.names ≡ measures.old.names ++ name.now.text ∷ []) }
    ensures measures { OnOk result (measures.new.measures ≡ measures.old.measures ++ record { is_part = true; size = unwrap_or (found definitions.now.names definitions.now.sizes name.now.text) 0 } ∷ []) }
{
    match definitions.size(&name.text) {
        Some(size) => {
            sized(
                measures,
                first,
                number,
                name,
                Measure {
                    is_part: true,
                    size,
                },
            )?;
            Ok(())
        }
        None => {
            first.note(ModelFault::NoDefinition, number, name.at, &name.text)?;
            measures.add(
                &name.text,
                Measure {
                    is_part: true,
                    size: 0,
                },
            )?;
            Ok(())
        }
    }
}
