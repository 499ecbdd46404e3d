//! The calls that read a term or a rule from a token on.

ghost use Rattle.std.specs.Prelude.{◌≡◌, ◌≢◌, ℕ, ◌^◌, ◌<◌, ◌≤◌, length, drop, Ok, IfOk, IfErr};
ghost use Rattle.asm_grammar.specs.Text.{OneTree};
ghost use Rattle.asm_lex.specs.Cut.{cut};
ghost use Rattle.asm_tree.specs.Language.{models};
ghost use Rattle.asm_tree.specs.Rules as rules;
ghost use Rattle.asm_tree.specs.Spelling.{limit, token_texts};
ghost use Rattle.asm_tree.specs.Terms as terms;
ghost use Rattle.asm_tree.specs.declared.error.ParseError.{ParseError};
ghost use Rattle.asm_tree.specs.declared.error.ParseError.TheVariants.{Memory};
ghost use Rattle.asm_tree.specs.declared.rule.RawRule.{RawRule};
ghost use Rattle.asm_tree.specs.declared.term.RawTerm.{RawTerm};
ghost use Rattle.asm_body.specs.Fronts.{AgreesWith, Counts, Explains, IsAt, RefusesWith, error_of};
ghost use Rattle.asm_body.specs.Seen.{all_seen};

use crate::lexeme::Lexeme;
use crate::reading::begins;
use crate::rule_reader::read_rule;
use crate::taking::lexemes;
use crate::term_reader::read_term;
use asm_grammar::Stop;
use asm_lex::Token;
use asm_tree::ParseError;
use asm_tree::class::Class;
use asm_tree::rule::RawRule;
use asm_tree::term::RawTerm;
use std::alloc::{AllocError, Global};

/// The greatest nesting.
const LIMIT: usize = 64;

/// Why reading these tokens, the last of so many, stopped.
#[tactic(auto, using(crate::proofs::Parsing::stops))]
fn explained(lexemes: &[Lexeme], stop: Stop, tokens: usize) -> ParseError
    requires counts { Counts (length lexemes.now) stop }
    requires within { length lexemes.now ≤ tokens }
    requires few { tokens < 2 ^ 31 }
    ensures { result ≡ error_of (all_seen lexemes.now) tokens stop }
{
    match stop {
        Stop::Memory => ParseError::Memory,
        Stop::Syntax(left) => {
            if begins(&lexemes[lexemes.len() - left..], Class::Unsupported) {
                ParseError::Unsupported((tokens - left) as u32)
            } else {
                ParseError::Syntax((tokens - left) as u32)
            }
        }
        Stop::TooDeep(left) => ParseError::TooDeep((tokens - left) as u32),
    }
}

/// The tokens of the text from this one on.
fn lexemes_on(
    alloc: Global,
    text: &[u8],
    tokens: &[Token],
    from: u32,
) -> Result<Vec<Lexeme>, AllocError>
    requires together { cut text.now ≡ Ok tokens.now }
    requires place { from ≤ length tokens.now }
    ensures { IfOk result (λ xs. all_seen xs.items ≡ token_texts text.now (drop from tokens.now)) }
{
    lexemes(alloc, text, &tokens[from as usize..])
}

/// The longest term from this token on, and the place of the token after it. So many things are open around it. Where
/// `script` is true, the words of scenarios are reserved.
pub fn term(
    alloc: Global,
    text: &[u8],
    tokens: &[Token],
    from: u32,
    nest: u32,
    script: bool,
) -> Result<(RawTerm, u32), ParseError>
    requires together { cut text.now ≡ Ok tokens.now }
    requires small { length text.now < 2 ^ 31 }
    requires place { from ≤ length tokens.now }
    requires nested { nest ≤ limit }

    // What is read is spelled up to that token, none of its tokens nests too deep, and no term goes on with the next.
    ensures found { IfOk result (λ x. IsAt script (terms.term script) text.now tokens.now from nest x.0 x.1) }
    // What is spelled so is read, unless memory runs out.
    ensures only { (y : RawTerm) (k : ℕ) → IsAt script (terms.term script) text.now tokens.now from nest y k → AgreesWith y k result }
    // An error is at the first token that nests too deep, or at the first with which no term goes on where those before it are none.
    ensures refused { IfErr result (λ e. Explains script (terms.term script) text.now tokens.now from nest e) }
    // Where there is such a token, that is the error, unless memory runs out.
    ensures refuses { (e : ParseError) → e ≢ Memory → Explains script (terms.term script) text.now tokens.now from nest e → RefusesWith e result }
{
    let lexemes = lexemes_on(alloc, text, tokens, from)?;
    let listed = lexemes.as_slice();
    match read_term(alloc, listed, LIMIT - nest as usize, script) {
        Ok((term, rest)) => Ok((term, (tokens.len() - rest.len()) as u32)),
        Err(stop) => Err(explained(listed, stop, tokens.len())),
    }
}

/// The longest rule from this token on, and the place of the token after it, as `term` reads terms.
pub fn rule(
    alloc: Global,
    text: &[u8],
    tokens: &[Token],
    from: u32,
    nest: u32,
    script: bool,
) -> Result<(RawRule, u32), ParseError>
    requires together { cut text.now ≡ Ok tokens.now }
    requires small { length text.now < 2 ^ 31 }
    requires place { from ≤ length tokens.now }
    requires nested { nest ≤ limit }

    // What is read is spelled up to that token, none of its tokens nests too deep, and no rule goes on with the next.
    ensures found { IfOk result (λ x. IsAt script (rules.rule script) text.now tokens.now from nest x.0 x.1) }
    // What is spelled so is read, unless memory runs out.
    ensures only { (y : RawRule) (k : ℕ) → IsAt script (rules.rule script) text.now tokens.now from nest y k → AgreesWith y k result }
    // An error is at the first token that nests too deep, or at the first with which no rule goes on where those before it are none.
    ensures refused { IfErr result (λ e. Explains script (rules.rule script) text.now tokens.now from nest e) }
    // Where there is such a token, that is the error, unless memory runs out.
    ensures refuses { (e : ParseError) → e ≢ Memory → Explains script (rules.rule script) text.now tokens.now from nest e → RefusesWith e result }
{
    let lexemes = lexemes_on(alloc, text, tokens, from)?;
    let listed = lexemes.as_slice();
    match read_rule(alloc, listed, LIMIT - nest as usize, script) {
        Ok((rule, rest)) => Ok((rule, (tokens.len() - rest.len()) as u32)),
        Err(stop) => Err(explained(listed, stop, tokens.len())),
    }
}

/// The tokens of a term, or of a rule, have at most one tree, and they determine how deep each nests.
#[tactic(auto, using(crate::proofs::CheckedFronts::one_term, crate::proofs::CheckedFronts::one_rule))]
pub fn one_tree(script: bool)
    ensures term { OneTree models (rules.body script) (terms.term script) }
    ensures rule { OneTree models (rules.body script) (rules.rule script) }
{
    let _script = script;
}
