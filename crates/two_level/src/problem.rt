//! What is decided by circuits: cases, and answers that meet them.
ghost use Rattle.std.specs.Prelude.{◌≡◌, ℕ, ◌<◌, ◌≤◌, List, IfOk, IfErr};
ghost use Rattle.cnf_base.specs.Clauses.{IsSatisfied};
ghost use Rattle.cnf_gate.specs.Circuit.{Drawn};
ghost use Rattle.cnf_search.specs.Lines.{choices};
ghost use Rattle.two_level.specs.Asking.{AreBelow, is_named, formula_of, IsRefuted, Posed, Tried, Tells, IsRival, Refuses, Gives};
ghost use Rattle.two_level.specs.declared.problem.EncError.TheVariants.{Memory};
ghost use Rattle.two_level.specs.declared.problem.EncError.{EncError as Refusal};

use cnf_base::Assignment;
use cnf_gate::Circuit;
use std::alloc::{AllocError, Global};

/// Why a question is not made.
#[derive(Clone, Copy, Debug, PartialEq, Eq)]
pub enum EncError {
    TooLarge,
    TooWide,
    TooManyAnswers,
    Memory,
}

impl From<AllocError> for EncError {
    ghost from_gives = { λ _ e. e ≡ Memory };

    fn from(_: AllocError) -> Self {
        EncError::Memory
    }
}

/// Cases, and answers by number, each of which may meet a case.
pub trait Problem: Drop {
    /// What a problem is made with. No call changes it.
    ghost Made: { Type 0 };

    /// What a case is.
    ghost Case: { Type 0 };

    ghost made: { Self → Made };

    /// The cases.
    ghost is_case: { Made → Case → Type 0 };

    /// The number of answers.
    ghost count: { Made → ℕ };

    /// Which answer meets which case.
    ghost meets: { Made → ℕ → Case → Type 0 };

    /// Which circuits ask for these answers.
    ghost asks: { Made → List ℕ → Drawn → Type 0 };

    /// No product of the group sizes of a circuit passes it.
    ghost most: { Made → ℕ };

    /// The refusals that may be given, beside want of memory.
    ghost may_refuse: { Made → Refusal → Type 0 };

    /// The question that was given last, and the case that each assignment stands for by it. Only `question` changes it.
    ghost posed: { Self → Posed Case };

    /// The rival that was given last, and the case of its candidate. Only `rival` changes it.
    ghost tried: { Self → Tried Case };

    /// The number of answers.
    fn answers(&self) -> u32
        ensures { result ≡ count (made self.now) };

    /// A circuit that asks for these answers. Its solutions are the cases that none of them meets.
    fn question(&mut self, alloc: Global, answers: &[u32]) -> Result<Circuit, EncError>
        requires { AreBelow (count (made self.old)) answers.now }
        ensures made { made self.new ≡ made self.old }
        ensures tried { tried self.new ≡ tried self.old }
        ensures asks { IfOk result (λ c. asks (made self.new) answers.now c) }
        ensures posed { IfOk result (λ c. (posed self.new).formula ≡ formula_of c) }
        ensures few { IfOk result (λ c. choices c.groups ≤ most (made self.new)) }
        ensures cases { IfOk result (λ c. Tells (is_case (made self.new)) (meets (made self.new)) answers.now c (posed self.new).case_of) }
        ensures refuses { IfErr result (Refuses (may_refuse (made self.new))) };

    /// The rival of the case that a solution of the last question stands for. Its solutions are the answers that meet the case.
    fn rival(&mut self, alloc: Global, candidate: &Assignment) -> Result<Circuit, EncError>
        requires { IsSatisfied ((posed self.old).formula) candidate.now }
        ensures made { made self.new ≡ made self.old }
        ensures posed { posed self.new ≡ posed self.old }
        ensures tried { IfOk result (λ c. (tried self.new).formula ≡ formula_of c) }
        ensures case { IfOk result (λ c. (tried self.new).case ≡ (posed self.old).case_of candidate.now) }
        ensures few { IfOk result (λ c. choices c.groups ≤ most (made self.new)) }
        ensures solved { IfOk result (λ c. IsRival (count (made self.new)) (meets (made self.new)) ((posed self.old).case_of candidate.now) c) }
        ensures refuses { IfErr result (Refuses (may_refuse (made self.new))) };

    /// The answer that a solution of the last rival stands for. It meets the case of that rival's candidate.
    fn answer_of(&self, solution: &Assignment) -> u32
        requires { IsSatisfied ((tried self.now).formula) solution.now }
        ensures below { result < count (made self.now) }
        ensures meets { meets (made self.now) result (tried self.now).case };

    /// Where nothing satisfies a circuit that asks for answers, one of them meets each case.
    ghost refuted_meets: { (m : Made) (ns : List ℕ) (c : Drawn) → asks m ns c → IsRefuted c → (k : Case) → is_case m k → Gives (meets m) ns k };
}
