//! The tokens of a text with their classes.

ghost use Rattle.std.specs.Prelude.{◌≡◌, ◌≤◌, IfOk};
ghost use Rattle.asm_lex.specs.Cut.{IsIn, AreIn};
ghost use Rattle.asm_lex.proofs.Small.{IsSmall, AreSmall};
ghost use Rattle.std.specs.Str.Parse.{digits_value};
ghost use Rattle.asm_lex.specs.Cut.{greatest_number};
ghost use Rattle.asm_tree.specs.Words.{kind_of, class_of};
ghost use Rattle.asm_tree.specs.declared.class.Class.TheVariants as class_is;
ghost use Rattle.asm_tree.specs.Spelling.{token_text, token_texts};
ghost use Rattle.asm_body.specs.Seen.{seen, all_seen};

use crate::class::{class_of, is};
use crate::lexeme::Lexeme;
use crate::number::value_of;
use asm_lex::Token;
use asm_list::Name;
use asm_tree::class::Class;
use std::alloc::{AllocError, Global};
use std::str;

/// The text of the token.
fn text_of<'t>(text: &'t [u8], token: &Token) -> &'t str
    requires { IsIn text.now token.now }
    ensures { result.now ≡ (token_text text.now token.now).text }
{
    str::from_utf8(&text[token.from as usize..token.to as usize]).unwrap()
}

/// The value of a number, and 0 for another token.
fn value_in(class: Class, text: &str) -> u32
    requires class { kind_of class ≡ kind_of (class_of text.now) }
    requires small { kind_of (class_of text.now) ≡ kind_of class_is.Number → digits_value 10 text.now ≤ greatest_number }
    ensures { kind_of class ≡ kind_of class_is.Number → result ≡ digits_value 10 text.now }
{
    if is(class, Class::Number) {
        value_of(text.as_bytes())
    } else {
        0
    }
}

fn lexeme(alloc: Global, text: &[u8], token: &Token) -> Result<Lexeme, AllocError>
    requires place { IsIn text.now token.now }
    requires small { IsSmall text.now token.now }
    ensures { IfOk result (λ x. seen x ≡ token_text text.now token.now) }
{
    let word = text_of(text, token);
    let class = class_of(token.kind, word);
    Ok(Lexeme {
        class,
        at: token.from,
        text: Name::of(alloc, word)?,
        value: value_in(class, word),
    })
}

/// The tokens of the text, in their order.
pub fn lexemes(alloc: Global, text: &[u8], tokens: &[Token]) -> Result<Vec<Lexeme>, AllocError>
    requires places { AreIn text.now tokens.now }
    requires small { AreSmall text.now tokens.now }
    ensures { IfOk result (λ xs. all_seen xs.items ≡ token_texts text.now tokens.now) }
{
    let mut lexemes = Vec::new(alloc);
    'tokens: for token in tokens {
        lexemes.push(lexeme(alloc, text, token)?)?;
    }
    Ok(lexemes)
}
