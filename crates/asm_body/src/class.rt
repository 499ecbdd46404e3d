//! The class of a token's text.

ghost use Rattle.std.specs.Prelude.{◌≡◌, [], ◌∷◌, map, Some};
ghost use Rattle.std.specs.List.{list_all};
ghost use Rattle.asm_lex.specs.Cut.{piece};
ghost use Rattle.asm_lex.specs.declared.piece.Piece.TheVariants as piece_of;
ghost use Rattle.asm_grammar.specs.Grammar.{has};
ghost use Rattle.asm_tree.specs.Words as words;
ghost use Rattle.asm_tree.specs.Language as language;

use asm_lex::Kind;
use asm_tree::class::{Class, WORDS, kind};

/// Whether both are the same class.
pub fn is(class: Class, wanted: Class) -> bool
    ensures { result ≡ has (words.kind_of class) (words.kind_of wanted ∷ []) }
{
    kind(class) == kind(wanted)
}

/// Whether the class is one of these.
pub fn is_among(class: Class, wanted: &[Class]) -> bool
    ensures { result ≡ has (words.kind_of class) (map words.kind_of wanted.now) }
{
    'classes: for other in wanted {
        if is(class, *other) {
            return true;
        }
    }
    false
}

/// Whether tokens of the class are words.
#[tactic(auto, using(crate::proofs::WordKinds::all_words))]
pub fn is_word(class: Class) -> bool
    ensures { result ≡ has (words.kind_of class) language.words }
{
    kind(class) <= kind(Class::CapitalName)
}

#[tactic(auto, using(crate::proofs::Tables::rows))]
fn class_in(table: &[(&str, Class)], text: &str) -> Option<Class>
    ensures { result ≡ words.class_in (map (λ row. (row.0.now, row.1)) table.now) text.now }
{
    'rows: for (word, class) in table {
        if *word == text {
            return Some(*class);
        }
    }
    None
}

fn begins_lower(text: &[u8]) -> bool
    ensures { result ≡ words.begins_lower text.now }
{
    matches!(text, [b'a'..=b'z', ..])
}

/// Whether all are upper-case letters, digits or `_`.
fn all_in_element(text: &[u8]) -> bool
    ensures { result ≡ list_all words.in_element text.now }
{
    text.iter()
        .all(|byte| matches!(*byte, b'A'..=b'Z' | b'0'..=b'9' | b'_'))
}

fn is_element(text: &[u8]) -> bool
    ensures { result ≡ words.is_element text.now }
{
    match text {
        [] | [_] => false,
        [_, _, ..] => all_in_element(text),
    }
}

/// The class of a word that isn't in the table.
fn name_class(text: &[u8]) -> Class
    ensures { result ≡ words.name_class text.now }
{
    if text.starts_with(b"r_") {
        Class::RuleName
    } else if text.starts_with(b"inv_") {
        Class::InvariantName
    } else if begins_lower(text) {
        Class::FunctionName
    } else if is_element(text) {
        Class::ElementName
    } else {
        Class::CapitalName
    }
}

/// The class of a token of this kind and text.
#[tactic(auto, using(crate::proofs::TokenKinds::kinds), unfolding(asm_tree::specs::Words::class_of))]
pub fn class_of(kind: Kind, text: &str) -> Class
    requires { piece text.now ≡ Some (piece_of.Token kind) }
    ensures { result ≡ words.class_of text.now }
{
    match (class_in(&WORDS, text), kind) {
        (Some(class), _) => class,
        (None, Kind::Word) => name_class(text.as_bytes()),
        (None, Kind::Variable) => Class::Variable,
        (None, Kind::Number) => Class::Number,
        (None, Kind::Symbol) => Class::Other,
    }
}
