ghost use Rattle.std.specs.Prelude.{◌≡◌, ◌+◌, ◌<◌, ◌≤◌, ◌^◌, ◌↔◌, [], ◌∷◌, ◌++◌, length, slice_get, All, Some, IfOk, IsNone, IsTrue};
ghost use Rattle.asm_domain.specs.Universe.{IsRank};
ghost use Rattle.asm_sign.specs.Kind.{is_dynamic};
ghost use Rattle.asm_sign.specs.Tuples.{AllDistinct};
ghost use Rattle.asm_sign.specs.Vocabulary.{argument_lists, locations_of, locations, IsLocation, function_at, codomain_of, kept_of, IsDeclared, AreNumbered};
ghost use Rattle.asm_sign.specs.Indexed.{AreFirsts};

use crate::function::{DeclaredDomain, Domains, Function, Functions};
use crate::search::part_of;
use crate::tuple::{count_of, place_of, tuple_at};
use asm_domain::{Domain, Value};
use smallvec::SmallVec;
use std::alloc::{AllocError, Global};
use std::marker::Model;

/// The arguments of a location, of which there are at most four.
pub type Args = SmallVec<Value, 4, Global>;

/// The domains and functions of a model. Its dynamic locations are numbered in their order: by their functions, then by
/// the ranks of the arguments, the first argument slowest. Such a number is a slot.
#[derive(Debug, Drop)]
pub struct Signature {
    alloc: Global,
    domains: Domains,
    functions: Functions,
    firsts: Vec<u32>,
}

impl Model for Signature {
    ghost use Rattle.asm_sign.specs.Vocabulary.{Vocabulary};
    ghost use Rattle.asm_sign.specs.Indexed.{IsIndexed};

    ghost Value = { Vocabulary };

    ghost view = { λ s. record { domains = s.domains; functions = s.functions } };

    ghost invariant = { λ s. IsIndexed s.domains s.functions s.firsts.items };
}

impl Signature {
    /// The signature of these lists. The domains of all functions are declared before, and each enumeration or abstract
    /// domain has its place as its number.
    pub fn new(
        alloc: Global,
        domains: Domains,
        functions: Functions,
    ) -> Result<Signature, AllocError>
        requires declared { All (IsDeclared domains) functions }
        requires numbered { AreNumbered domains }
        requires few { length (locations record { domains = domains; functions = functions }) ≤ 4096 }
        requires short { length functions < 2 ^ 31 }
        ensures { IfOk result (λ s. s ≡ record { domains = domains; functions = functions }) }
    {
        let firsts = first_slots(alloc, domains.slice(), functions.slice())?;
        Ok(Signature {
            alloc,
            domains,
            functions,
            firsts,
        })
    }

    /// The domains that the signature was made of.
    pub fn domains(&self) -> &Domains
        ensures value { result.now ≡ self.now.domains }
        ensures numbered { AreNumbered self.now.domains }
    {
        &self.domains
    }

    /// The functions that the signature was made of.
    pub fn functions(&self) -> &Functions
        ensures value { result.now ≡ self.now.functions }
        ensures declared { All (IsDeclared self.now.domains) self.now.functions }
    {
        &self.functions
    }

    /// The number of slots, at most 4,096.
    pub fn slots(&self) -> u32
        ensures value { result ≡ length (locations self.now) }
        ensures few { result ≤ 4096 }
    {
        self.firsts[self.functions.len()]
    }

    /// The slot of a location.
    pub fn slot_of(&self, function: u32, args: &[Value]) -> Option<u32>
        ensures rank { IsRank (locations self.now) (function, args.now) result }
        ensures none { IsNone result ↔ (¬ IsLocation self.now function args.now) }
    {
        let number = function as usize;
        if number >= self.functions.len() {
            return None;
        }
        let declared = &self.functions.slice()[number];
        if !declared.kind.is_dynamic() {
            return None;
        }
        if args.len() != declared.domains.len() {
            return None;
        }
        match place_of(self.domains.slice(), declared.domains.slice(), args) {
            Some(place) => Some(self.firsts[number] + place as u32),
            None => None,
        }
    }

    /// The location of a slot: the function's number and the arguments.
    pub fn location(&self, slot: u32) -> (u32, Args)
        requires { slot < length (locations self.now) }
        ensures { slice_get (locations self.now) slot ≡ Some (result.0, result.1.items) }
    {
        let number = part_of(&self.firsts, slot);
        let function = &self.functions.slice()[number];
        let first = self.firsts[number];
        let count = u64::from(self.firsts[number + 1] - first);
        let place = u64::from(slot - first);
        let args = tuple_at(
            self.alloc,
            self.domains.slice(),
            function.domains.slice(),
            count,
            place,
        );
        (number as u32, args)
    }

    /// The codomain of the function of a slot.
    pub fn codomain(&self, slot: u32) -> &Domain
        requires { slot < length (locations self.now) }
        ensures { codomain_of self.now (function_at self.now slot) ≡ Some result.now }
    {
        let number = part_of(&self.firsts, slot);
        let codomain = self.functions.slice()[number].codomain;
        let declared = &self.domains.slice()[codomain as usize];
        &declared.domain
    }

    /// Whether a state keeps the value of a slot.
    pub fn kept(&self, slot: u32) -> bool
        requires { slot < length (locations self.now) }
        ensures { result ≡ kept_of (function_at self.now slot) }
    {
        let number = part_of(&self.firsts, slot);
        self.functions.slice()[number].kind.is_kept()
    }
}

/// The first slot of each function, and the number of all slots.
fn first_slots(
    alloc: Global,
    domains: &[DeclaredDomain],
    functions: &[Function],
) -> Result<Vec<u32>, AllocError>
    requires declared { All (IsDeclared domains.now) functions.now }
    requires few { length (locations record { domains = domains.now; functions = functions.now }) ≤ 4096 }
    ensures { IfOk result (λ firsts. AreFirsts domains.now functions.now (length functions.now) firsts.items) }
{
    let mut firsts = Vec::new(alloc);
    let mut next = 0;
    push(&mut firsts, next)?;
    for function in functions {
        next += locations_in(domains, function);
        push(&mut firsts, next)?;
    }
    Ok(firsts)
}

fn push(numbers: &mut Vec<u32>, number: u32) -> Result<(), AllocError>
    ensures { IfOk result (λ _. numbers.new.items ≡ numbers.old.items ++ number ∷ []) }
{
    numbers.push(number)?;
    Ok(())
}

/// The number of locations of a function.
fn locations_in(domains: &[DeclaredDomain], function: &Function) -> u32
    requires declared { IsDeclared domains.now function.now }
    requires few { length (locations_of domains.now (0, function.now)) ≤ 4096 }
    ensures value { result ≡ length (locations_of domains.now (0, function.now)) }
    ensures distinct { IsTrue (is_dynamic function.now.kind) → AllDistinct (argument_lists domains.now function.now) }
{
    if function.kind.is_dynamic() {
        count_of(domains, function.domains.slice()) as u32
    } else {
        0
    }
}
