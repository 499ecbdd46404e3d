ghost use Rattle.asm_node.specs.Parts.{machine_from, AreNodes};
ghost use Rattle.asm_node.specs.WellFormed.{IsWellFormed};

use crate::close_term::close;
use crate::definition::{Definition, Definitions, InitialTerms, MacroRule, Rules, Terms, find};
use crate::env::Env;
use crate::pool::Pool;
use crate::rule::{Rule, RuleKind};
use crate::term::{Term, TermKind};
use asm_sign::Signature;
use std::alloc::AllocError;
use std::rc::Rc;

/// A well-formed machine: its signature, its terms and its rules, which are nodes of its pool.
#[derive(Drop)]
pub struct Model {
    signature: Signature,
    pool: Pool,
    main: Rc<Rule>,
    invariants: Terms,
    initial_terms: InitialTerms,
    definitions: Definitions,
    rules: Rules,
    ghost well_formed: { ∥ IsWellFormed (machine_from signature main invariants initial_terms definitions rules) ∥₁ },
    ghost nodes: { AreNodes pool main invariants initial_terms definitions rules },
}

impl Model {
    ghost use Rattle.std.specs.Prelude.{◌≡◌, ◌++◌, ◌∷◌, [], map, length, slice_get, option_map, option_copied, All, IfOk, OnErr};
    ghost use Rattle.asm_node.specs.Env.{places_of};
    ghost use Rattle.asm_node.specs.Tree.{plain};
    ghost use Rattle.asm_node.specs.RuleTree.{plain_rule};
    ghost use Rattle.asm_node.specs.Machine.{definition_of};
    ghost use Rattle.asm_node.specs.Model.{defined_by, macro_by, machine_of, DiffersInPool};
    ghost use Rattle.asm_node.specs.Pool.{terms_of, rules_of, HasRule, HasTerm, HasTerms, HasParts, TermsAreBefore, PartsAreBefore, HasGrown, HasFurther};
    ghost use Rattle.asm_node.specs.Term.{World, value_of, calls_of, unbound, val, close};

    /// The model of these parts, which are well formed and nodes of the pool. It takes no memory.
    pub fn new(
        signature: Signature,
        pool: Pool,
        main: Rc<Rule>,
        invariants: Terms,
        initial_terms: InitialTerms,
        definitions: Definitions,
        rules: Rules,
    ) -> Model
        requires well_formed { IsWellFormed (machine_from signature main invariants initial_terms definitions rules) }
        requires nodes { AreNodes pool main invariants initial_terms definitions rules }
        ensures signature { (machine_of result).signature ≡ signature }
        ensures main { (machine_of result).main ≡ plain_rule main.value }
        ensures invariants { (machine_of result).invariants ≡ map (λ t. plain t.value) invariants }
        ensures initial_terms { (machine_of result).initial_terms ≡ map defined_by initial_terms }
        ensures definitions { (machine_of result).definitions ≡ map defined_by definitions }
        ensures rules { (machine_of result).rules ≡ map macro_by rules }
    {
        Model {
            signature,
            pool,
            main,
            invariants,
            initial_terms,
            definitions,
            rules,
        }
    }

    /// The domains, functions and locations.
    pub fn signature(&self) -> &Signature
        ensures { result.now ≡ (machine_of self.now).signature }
    {
        &self.signature
    }

    /// The main rule.
    pub fn main(&self) -> &Rc<Rule>
        ensures { plain_rule result.now.value ≡ (machine_of self.now).main }
    {
        &self.main
    }

    /// The invariants in load order.
    pub fn invariants(&self) -> &Terms
        ensures { map (λ t. plain t.value) result.now ≡ (machine_of self.now).invariants }
    {
        &self.invariants
    }

    /// The terms of the initial values.
    pub fn initial_terms(&self) -> &InitialTerms
        ensures { map defined_by result.now ≡ (machine_of self.now).initial_terms }
    {
        &self.initial_terms
    }

    /// The macro rules in load order.
    pub fn rules(&self) -> &Rules
        ensures { map macro_by result.now ≡ (machine_of self.now).rules }
    {
        &self.rules
    }

    /// The definition of a function, where it has one.
    pub fn definition(&self, function: u32) -> Option<&Definition>
        ensures { option_map defined_by (option_copied result) ≡ definition_of (machine_of self.now).definitions function }
    {
        find(self.definitions.slice(), function)
    }

    /// The term of the initial values of a function, where it has one.
    pub fn initial_term(&self, function: u32) -> Option<&Definition>
        ensures { option_map defined_by (option_copied result) ≡ definition_of (machine_of self.now).initial_terms function }
    {
        find(self.initial_terms.slice(), function)
    }

    /// The nodes that were made for the model.
    pub fn pool(&self) -> &Pool
        ensures { result.now ≡ self.now.pool }
    {
        &self.pool
    }

    /// Takes a pool that has further nodes after those of the model in the place of the model's own.
    pub fn grow_to(&mut self, pool: Pool)
        requires { HasFurther self.old.pool pool }
        ensures pool { self.new.pool ≡ pool }
        ensures others { DiffersInPool self.old self.new }
    {
        self.pool = pool;
    }

    /// A new node for a term in the model's pool.
    pub fn term_node(&mut self, kind: TermKind) -> Result<Rc<Term>, AllocError>
        requires children { HasTerms (terms_of self.old.pool) kind }
        ensures node { IfOk result (λ t. t.value ≡ record { id = length (terms_of self.old.pool); kind = kind }) }
        ensures terms { IfOk result (λ t. terms_of self.new.pool ≡ terms_of self.old.pool ++ t.value ∷ []) }
        ensures rules { rules_of self.new.pool ≡ rules_of self.old.pool }
        ensures before { IfOk result (λ t. TermsAreBefore t.value.id t.value.kind) }
        ensures err { OnErr result (terms_of self.new.pool ≡ terms_of self.old.pool) }
        ensures others { DiffersInPool self.old self.new }
    {
        self.pool.term(kind)
    }

    /// A new node for a rule in the model's pool.
    pub fn rule_node(&mut self, kind: RuleKind) -> Result<Rc<Rule>, AllocError>
        requires children { HasParts (terms_of self.old.pool) (rules_of self.old.pool) kind }
        ensures node { IfOk result (λ r. r.value ≡ record { id = length (rules_of self.old.pool); kind = kind }) }
        ensures rules { IfOk result (λ r. rules_of self.new.pool ≡ rules_of self.old.pool ++ r.value ∷ []) }
        ensures terms { terms_of self.new.pool ≡ terms_of self.old.pool }
        ensures before { IfOk result (λ r. PartsAreBefore r.value.id r.value.kind) }
        ensures err { OnErr result (rules_of self.new.pool ≡ rules_of self.old.pool) }
        ensures others { DiffersInPool self.old self.new }
    {
        self.pool.rule(kind)
    }

    /// The term with closed terms in the places of its variables, made in the model's pool.
    pub fn closed(&mut self, term: &Rc<Term>, env: &Env) -> Result<Rc<Term>, AllocError>
        ensures node { IfOk result (λ t. HasTerm (terms_of self.new.pool) t.value) }
        ensures term { IfOk result (λ t. plain t.value ≡ close (places_of env.now) (plain term.now.value)) }
        ensures value { IfOk result (λ t. (w : World) → value_of w (calls_of w) unbound (plain t.value) ≡ val w (places_of env.now) (plain term.now.value)) }
        ensures pool { HasGrown self.old.pool self.new.pool }
        ensures others { DiffersInPool self.old self.new }
    {
        close(&mut self.pool, term, env)
    }

    /// The macro rule of a number, where there is one.
    pub fn rule(&self, number: u32) -> Option<&MacroRule>
        ensures { option_map macro_by (option_copied result) ≡ slice_get (machine_of self.now).rules number }
    {
        self.rules.item(number as usize)
    }
}
