//! The trees that the texts of terms and rules begin with.

ghost use Rattle.std.specs.Prelude.{◌≡◌, ◌^◌, ◌<◌, ◌≤◌, length, Ok};
ghost use Rattle.asm_lex.specs.Cut.{cut};
ghost use Rattle.asm_tree.specs.Spelling.{limit};

use asm_body::{one_tree, rule, term};
use asm_lex::{Token, lex};
use asm_list::Boxed;
use asm_tree::ParseError;
use std::alloc::{AllocError, Global};
use std::test::Fail;

/// Where the term that the tokens begin with ends.
fn term_end(
    alloc: Global,
    text: &[u8],
    tokens: &[Token],
    nest: u32,
    script: bool,
) -> Result<u32, ParseError>
    requires together { cut text.now ≡ Ok tokens.now }
    requires small { length text.now < 2 ^ 31 }
    requires nested { nest ≤ limit }
{
    let (tree, end) = term(alloc, text, tokens, 0, nest, script)?;
    let _tree = Boxed::new(alloc, tree)?;
    Ok(end)
}

/// Where the rule that the tokens begin with ends.
fn rule_end(
    alloc: Global,
    text: &[u8],
    tokens: &[Token],
    nest: u32,
    script: bool,
) -> Result<u32, ParseError>
    requires together { cut text.now ≡ Ok tokens.now }
    requires small { length text.now < 2 ^ 31 }
    requires nested { nest ≤ limit }
{
    let (tree, end) = rule(alloc, text, tokens, 0, nest, script)?;
    let _tree = Boxed::new(alloc, tree)?;
    Ok(end)
}

/// Where the term, or else the rule, that the text begins with ends.
fn front(
    alloc: Global,
    text: &str,
    nest: u32,
    script: bool,
    is_term: bool,
) -> Result<u32, ParseError> {
    if text.len() > 1048576 || nest > 64 {
        return Err(ParseError::Memory);
    }
    let bytes = text.as_bytes();
    match lex(alloc, bytes) {
        Ok(tokens) if is_term => term_end(alloc, bytes, tokens.slice(), nest, script),
        Ok(tokens) => rule_end(alloc, bytes, tokens.slice(), nest, script),
        Err(_) => Err(ParseError::Memory),
    }
}

#[test]
fn terms_of_texts(rt: HostRuntime) -> Result<(), Fail> {
    let read = [
        ("1 + 2 = 3 = 4", 0u32, Ok(5u32)),
        ("not a and - b implies c", 0, Ok(7)),
        ("(exist unique $x in D with f($x)) f", 0, Ok(12)),
        (
            "if a then 1 else switch b case 1 : 2 endswitch endif",
            0,
            Ok(13),
        ),
        ("let ($x = minus(1, 2)) in $x endlet", 0, Ok(14)),
        ("f(1", 0, Err(ParseError::Syntax(3))),
        ("1 while", 0, Ok(1)),
        ("a + while", 0, Err(ParseError::Unsupported(2))),
        ("(1)", 63, Ok(3)),
        ("(1)", 64, Err(ParseError::TooDeep(0))),
        ("1 + (2)", 63, Err(ParseError::TooDeep(2))),
        ("step", 0, Ok(1)),
    ];
    for (text, nest, end) in read.iter() {
        assert_eq!(rt; front(rt.alloc(), text, *nest, false, true), *end);
    }
    assert_eq!(rt;
        front(rt.alloc(), "step", 0, true, true),
        Err(ParseError::Syntax(0))
    );
    one_tree(false);
    Ok(())
}

#[test]
fn rules_of_texts(rt: HostRuntime) -> Result<(), Fail> {
    let read = [
        (
            "choose $x in D do choose $y in E do skip ifnone skip",
            Ok(13u32),
        ),
        ("par f(1) := 2 seq r_a[] r_b[1, 2] endseq endpar", Ok(19)),
        ("if a then skip else skip endif skip", Ok(7)),
        ("switch a case 1 : skip otherwise skip endswitch", Ok(9)),
        ("let ($x = 1) in forall $y in D do skip endlet", Ok(14)),
        ("par skip", Err(ParseError::Syntax(2))),
        ("par endpar", Err(ParseError::Syntax(1))),
        ("while", Err(ParseError::Unsupported(0))),
    ];
    for (text, end) in read.iter() {
        assert_eq!(rt; front(rt.alloc(), text, 0, false, false), *end);
    }
    Ok(())
}
