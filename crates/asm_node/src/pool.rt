ghost use Rattle.std.specs.Prelude.{◌≡◌, [], ◌∷◌, ◌++◌, length, map, IfOk, OnErr};

use crate::rule::{Rule, RuleKind};
use crate::term::{Term, TermKind};
use asm_list::Listed;
use std::alloc::{AllocError, Global};
use std::rc::Rc;

/// The nodes of a model. A node's number is its place among the terms or among the rules, so nodes with equal numbers
/// are equal.
#[derive(Drop)]
pub struct Pool {
    alloc: Global,
    terms: Listed<Rc<Term>>,
    rules: Listed<Rc<Rule>>,
}

impl Pool {
    ghost use Rattle.asm_node.specs.Pool.{terms_of, rules_of, HasTerms, HasParts, TermsAreBefore, PartsAreBefore};

    /// No node. It takes no memory.
    pub fn new(alloc: Global) -> Pool
        ensures terms { terms_of result ≡ [] }
        ensures rules { rules_of result ≡ [] }
    {
        Pool {
            alloc,
            terms: Listed::new(alloc),
            rules: Listed::new(alloc),
        }
    }

    /// The same nodes in a pool of their own, which may get others.
    pub fn copied(&self) -> Result<Pool, AllocError>
        ensures terms { IfOk result (λ pool. terms_of pool ≡ terms_of self.now) }
        ensures rules { IfOk result (λ pool. rules_of pool ≡ rules_of self.now) }
    {
        let alloc = self.alloc;
        let terms = copied_terms(alloc, self.terms.slice())?;
        let rules = copied_rules(alloc, self.rules.slice())?;
        Ok(Pool {
            alloc,
            terms,
            rules,
        })
    }

    pub(crate) fn alloc(&self) -> Global {
        self.alloc
    }

    /// A new node for a term.
    pub fn term(&mut self, kind: TermKind) -> Result<Rc<Term>, AllocError>
        requires children { HasTerms (terms_of self.old) kind }
        ensures node { IfOk result (λ t. t.value ≡ record { id = length (terms_of self.old); kind = kind }) }
        ensures terms { IfOk result (λ t. terms_of self.new ≡ terms_of self.old ++ t.value ∷ []) }
        ensures rules { rules_of self.new ≡ rules_of self.old }
        ensures before { IfOk result (λ t. TermsAreBefore t.value.id t.value.kind) }
        ensures err { OnErr result (terms_of self.new ≡ terms_of self.old) }
    {
        let id = self.terms.len() as u64;
        let node = Rc::new(self.alloc, Term { id, kind })?;
        self.terms.push(node.clone()?)?;
        Ok(node)
    }

    /// A new node for a rule.
    pub fn rule(&mut self, kind: RuleKind) -> Result<Rc<Rule>, AllocError>
        requires children { HasParts (terms_of self.old) (rules_of self.old) kind }
        ensures node { IfOk result (λ r. r.value ≡ record { id = length (rules_of self.old); kind = kind }) }
        ensures rules { IfOk result (λ r. rules_of self.new ≡ rules_of self.old ++ r.value ∷ []) }
        ensures terms { terms_of self.new ≡ terms_of self.old }
        ensures before { IfOk result (λ r. PartsAreBefore r.value.id r.value.kind) }
        ensures err { OnErr result (rules_of self.new ≡ rules_of self.old) }
    {
        let id = self.rules.len() as u64;
        let node = Rc::new(self.alloc, Rule { id, kind })?;
        self.rules.push(node.clone()?)?;
        Ok(node)
    }
}

fn copied_terms(alloc: Global, terms: &[Rc<Term>]) -> Result<Listed<Rc<Term>>, AllocError>
    ensures { IfOk result (λ copied. map (λ t. t.value) copied ≡ map (λ t. t.value) terms.now) }
{
    let mut copied = Listed::new(alloc);
    'terms: for term in terms {
        let one = term.clone()?;
        copied.push(one)?;
    }
    Ok(copied)
}

fn copied_rules(alloc: Global, rules: &[Rc<Rule>]) -> Result<Listed<Rc<Rule>>, AllocError>
    ensures { IfOk result (λ copied. map (λ r. r.value) copied ≡ map (λ r. r.value) rules.now) }
{
    let mut copied = Listed::new(alloc);
    'rules: for rule in rules {
        let one = rule.clone()?;
        copied.push(one)?;
    }
    Ok(copied)
}
