ghost use Rattle.std.specs.Prelude.{◌≡◌, if◌then◌else◌, Some, None, OnOk, OnErr, is_none};
ghost use Rattle.asm_faults.specs.First.{sooner, is_before};
ghost use Rattle.asm_faults.specs.At.{Name};

use crate::fault::{Fault, ModelFault};
use asm_list::Name;
use std::alloc::{AllocError, Global};
use std::marker::Model;

/// The first fault of those that were noted. Contracts see it as that fault, where there is one.
#[derive(Debug, Drop)]
pub struct First {
    alloc: Global,
    fault: Option<Fault>,
}

impl Model for First {
    ghost use Rattle.std.specs.Prelude.{Option};
    ghost use Rattle.asm_faults.specs.declared.fault.Fault.{Fault};

    ghost Value = { Option Fault };

    ghost view = { λ f. f.fault };
}

impl First {
    /// No fault. It takes no memory.
    pub fn new(alloc: Global) -> First
        ensures { result ≡ None }
    {
        First { alloc, fault: None }
    }

    /// Whether nothing was noted.
    pub fn is_none(&self) -> bool
        ensures { result ≡ is_none self.now }
    {
        self.fault.is_none()
    }

    /// The first fault, taken out.
    pub fn into_fault(self) -> Option<Fault>
        ensures { result ≡ self }
    {
        let First { fault, .. } = self;
        fault
    }

    /// Whether a fault at a place is put in the place of the one that is kept.
    fn gives_way(&self, kind: ModelFault, unit: u32, at: u32) -> bool
        ensures { (name : Name) → sooner self.now record { kind = kind; unit = unit; at = at; name = name } ≡ (if result then Some record { kind = kind; unit = unit; at = at; name = name } else self.now) }
    {
        match &self.fault {
            Some(first) => is_before(kind, unit, at, first),
            None => true,
        }
    }

    /// Notes a fault, of which a copy is kept where none was before it.
    pub fn note(
        &mut self,
        kind: ModelFault,
        unit: u32,
        at: u32,
        name: &Name,
    ) -> Result<(), AllocError>
        ensures ok { OnOk result (self.new ≡ sooner self.old record { kind = kind; unit = unit; at = at; name = name.now }) }
        ensures err { OnErr result (self.new ≡ self.old) }
    {
        if !self.gives_way(kind, unit, at) {
            return Ok(());
        }
        let name = Name::of(self.alloc, name.text())?;
        self.fault = Some(Fault {
            kind,
            unit,
            at,
            name,
        });
        Ok(())
    }
}

/// Whether a fault at a place comes before another one.
fn is_before(kind: ModelFault, unit: u32, at: u32, first: &Fault) -> bool
    ensures { (name : Name) → result ≡ is_before record { kind = kind; unit = unit; at = at; name = name } first.now }
{
    if unit != first.unit {
        return unit < first.unit;
    }
    if at != first.at {
        return at < first.at;
    }
    (kind as u8) < first.kind as u8
}
