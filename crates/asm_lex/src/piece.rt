//! The piece with which a text begins.

ghost use Rattle.std.specs.Prelude.{◌≡◌, ◌+◌, ◌^◌, ◌<◌, ◌≤◌, ◌∷◌, drop, length, nat_lt, true, false, ◌==◌, IfSome, IfOk, Ok};
ghost use Rattle.std.specs.List.{list_all};
ghost use Rattle.std.specs.Str.Parse.{digits_value};
ghost use Rattle.std.specs.Char.{digit_value};
ghost use Rattle.asm_lex.specs.Cut as cut;

use crate::error::LexError;
use crate::token::Kind;

/// The greatest number that a token writes, 2 to the power 31.
const GREATEST_NUMBER: u64 = 2_147_483_648;

/// What stands between tokens, or a token.
#[derive(Clone, Copy, Debug, PartialEq, Eq)]
pub enum Piece {
    Gap,
    Token(Kind),
}

/// Pieces that go on while their bytes are of one sort.
#[derive(Clone, Copy, Debug, PartialEq, Eq)]
pub enum Run {
    Word,
    Number,
    /// A comment up to the end of its line.
    Line,
}

fn is_letter(byte: u8) -> bool
    ensures { result ≡ cut.is_letter byte }
{
    matches!(byte, b'a'..=b'z' | b'A'..=b'Z')
}

fn is_digit(byte: u8) -> bool
    ensures { result ≡ cut.is_digit byte }
{
    matches!(byte, b'0'..=b'9')
}

fn in_word(byte: u8) -> bool
    ensures { result ≡ cut.in_word byte }
{
    is_letter(byte) || is_digit(byte) || byte == b'_'
}

fn is_blank(byte: u8) -> bool
    ensures { result ≡ cut.is_blank byte }
{
    matches!(byte, b' ' | b'\t' | b'\r' | b'\n')
}

fn is_sign(byte: u8) -> bool
    ensures { result ≡ cut.is_sign byte }
{
    matches!(
        byte,
        b'{' | b'}'
            | b'('
            | b')'
            | b'['
            | b']'
            | b','
            | b':'
            | b';'
            | b'='
            | b'<'
            | b'>'
            | b'+'
            | b'-'
            | b'*'
            | b'/'
            | b'.'
            | b'|'
    )
}

fn is_pair(first: u8, second: u8) -> bool
    ensures { result ≡ cut.is_pair first second }
{
    match first {
        b':' | b'!' | b'<' | b'>' => second == b'=',
        b'-' => second == b'>',
        b'.' => second == b'.',
        _ => false,
    }
}

fn begins_pair(first: u8, rest: &[u8]) -> bool
    ensures { result ≡ cut.begins_pair first rest.now }
{
    match rest {
        [second, ..] => is_pair(first, *second),
        [] => false,
    }
}

fn goes_on(run: Run, byte: u8) -> bool
    ensures { result ≡ cut.goes_on run byte }
{
    match run {
        Run::Word => in_word(byte),
        Run::Number => is_digit(byte),
        Run::Line => byte != b'\n',
    }
}

/// How many bytes at the front go on with the run.
#[tactic(auto, using(crate::proofs::Words::runs))]
fn run_length(run: Run, bytes: &[u8]) -> usize
    ensures counted { result ≡ cut.run_of (cut.goes_on run) bytes.now }
    ensures within { result ≤ length bytes.now }
{
    'bytes: for (index, byte) in bytes.iter().enumerate() {
        if !goes_on(run, *byte) {
            return index;
        }
    }
    bytes.len()
}

fn begins_close(bytes: &[u8]) -> bool
    ensures { result ≡ cut.begins_close bytes.now }
{
    matches!(bytes, [b'*', b'/', ..])
}

/// How many bytes at the front reach to the end of the first `*/`.
#[tactic(auto, using(crate::proofs::Words::closings))]
fn up_to_close(bytes: &[u8]) -> Option<usize>
    requires { length bytes.now < 2 ^ 63 }
    ensures first { result ≡ cut.up_to_close bytes.now }
    ensures within { IfSome result (λ n. n ≤ length bytes.now) }
{
    'bytes: for index in 0..bytes.len() {
        if begins_close(&bytes[index..]) {
            return Some(index + 2);
        }
    }
    None
}

/// The value of a digit.
fn value_of(digit: u8) -> u64
    requires { cut.is_digit digit ≡ true }
    ensures value { result ≡ digit_value digit }
    ensures small { result < 10 }
{
    (digit - b'0') as u64
}

/// Whether the number of these digits is above the greatest.
#[tactic(auto, using(crate::proofs::Numbers::values))]
fn is_too_big(first: u8, digits: &[u8]) -> bool
    requires first { cut.is_digit first ≡ true }
    requires others { list_all cut.is_digit digits.now ≡ true }
    ensures { result ≡ nat_lt cut.greatest_number (digits_value 10 (first ∷ digits.now)) }
{
    let mut value = value_of(first);
    'digits: for digit in digits {
        value = 10 * value + value_of(*digit);
        if value > GREATEST_NUMBER {
            return true;
        }
    }
    false
}

#[tactic(auto, using(crate::proofs::Pieces::words))]
fn word_piece(at: u32, first: u8, rest: &[u8]) -> (usize, Piece)
    requires letter { cut.is_letter first ≡ true }
    requires short { length rest.now < 2 ^ 62 }
    ensures taken { Ok result ≡ cut.first_piece at (first ∷ rest.now) }
    ensures within { (0 < result.0) × (result.0 ≤ 1 + length rest.now) }
{
    (1 + run_length(Run::Word, rest), Piece::Token(Kind::Word))
}

#[tactic(auto, using(crate::proofs::Pieces::numbers))]
fn number_piece(at: u32, first: u8, rest: &[u8]) -> Result<(usize, Piece), LexError>
    requires no_letter { cut.is_letter first ≡ false }
    requires digit { cut.is_digit first ≡ true }
    requires short { length rest.now < 2 ^ 62 }
    ensures taken { result ≡ cut.first_piece at (first ∷ rest.now) }
    ensures within { IfOk result (λ p. (0 < p.0) × (p.0 ≤ 1 + length rest.now)) }
{
    let more = run_length(Run::Number, rest);
    if is_too_big(first, &rest[..more]) {
        return Err(LexError::NumberTooBig(at));
    }
    Ok((1 + more, Piece::Token(Kind::Number)))
}

/// The piece that begins with `$`.
#[tactic(auto, using(crate::proofs::Pieces::variables))]
fn variable_piece(at: u32, rest: &[u8]) -> Result<(usize, Piece), LexError>
    requires { length rest.now < 2 ^ 62 }
    ensures taken { result ≡ cut.first_piece at (36 ∷ rest.now) }
    ensures within { IfOk result (λ p. (0 < p.0) × (p.0 ≤ 1 + length rest.now)) }
{
    match rest {
        [] => Err(LexError::BadByte(at)),
        [first, more @ ..] => {
            if is_letter(*first) {
                Ok((
                    2 + run_length(Run::Word, more),
                    Piece::Token(Kind::Variable),
                ))
            } else {
                Err(LexError::BadByte(at))
            }
        }
    }
}

/// The piece that begins with `/` and the second byte.
#[tactic(auto, using(crate::proofs::Pieces::comments))]
fn comment_piece(at: u32, second: u8, more: &[u8]) -> Result<(usize, Piece), LexError>
    requires { length more.now < 2 ^ 62 }
    ensures taken { result ≡ cut.first_piece at (47 ∷ (second ∷ more.now)) }
    ensures within { IfOk result (λ p. (0 < p.0) × (p.0 ≤ 2 + length more.now)) }
{
    if second == b'/' {
        return Ok((2 + run_length(Run::Line, more), Piece::Gap));
    }
    if second != b'*' {
        return Ok((1, Piece::Token(Kind::Symbol)));
    }
    match up_to_close(more) {
        Some(length) => Ok((2 + length, Piece::Gap)),
        None => Err(LexError::OpenComment(at)),
    }
}

/// The piece that begins with `/`.
#[tactic(auto, using(crate::proofs::Pieces::comments))]
fn slash_piece(at: u32, rest: &[u8]) -> Result<(usize, Piece), LexError>
    requires { length rest.now < 2 ^ 62 }
    ensures taken { result ≡ cut.first_piece at (47 ∷ rest.now) }
    ensures within { IfOk result (λ p. (0 < p.0) × (p.0 ≤ 1 + length rest.now)) }
{
    match rest {
        [] => Ok((1, Piece::Token(Kind::Symbol))),
        [second, more @ ..] => comment_piece(at, *second, more),
    }
}

/// The piece that begins with a byte of no other sort.
#[tactic(auto, using(crate::proofs::Pieces::symbols))]
fn symbol_piece(at: u32, first: u8, rest: &[u8]) -> Result<(usize, Piece), LexError>
    requires no_letter { cut.is_letter first ≡ false }
    requires no_digit { cut.is_digit first ≡ false }
    requires no_blank { cut.is_blank first ≡ false }
    requires no_dollar { (first == 36) ≡ false }
    requires no_slash { (first == 47) ≡ false }
    ensures taken { result ≡ cut.first_piece at (first ∷ rest.now) }
    ensures within { IfOk result (λ p. (0 < p.0) × (p.0 ≤ 1 + length rest.now)) }
{
    if begins_pair(first, rest) {
        return Ok((2, Piece::Token(Kind::Symbol)));
    }
    if is_sign(first) {
        return Ok((1, Piece::Token(Kind::Symbol)));
    }
    Err(LexError::BadByte(at))
}

#[tactic(auto, using(crate::proofs::Pieces::blanks))]
fn piece_from(at: u32, first: u8, rest: &[u8]) -> Result<(usize, Piece), LexError>
    requires { length rest.now < 2 ^ 62 }
    ensures taken { result ≡ cut.first_piece at (first ∷ rest.now) }
    ensures within { IfOk result (λ p. (0 < p.0) × (p.0 ≤ 1 + length rest.now)) }
{
    if is_letter(first) {
        return Ok(word_piece(at, first, rest));
    }
    if is_digit(first) {
        return number_piece(at, first, rest);
    }
    if is_blank(first) {
        return Ok((1, Piece::Gap));
    }
    if first == b'$' {
        return variable_piece(at, rest);
    }
    if first == b'/' {
        return slash_piece(at, rest);
    }
    symbol_piece(at, first, rest)
}

/// The piece that is taken at the place, with its length.
pub fn piece_at(text: &[u8], at: usize) -> Result<(usize, Piece), LexError>
    requires small { length text.now ≤ 1048576 }
    requires inside { at < length text.now }
    ensures taken { result ≡ cut.first_piece at (drop at text.now) }
    ensures within { IfOk result (λ p. (0 < p.0) × (at + p.0 ≤ length text.now)) }
{
    piece_from(at as u32, text[at], &text[at + 1..])
}
