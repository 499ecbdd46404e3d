ghost use Rattle.std.specs.Fmt.{decimal, signed_decimal};
ghost use Rattle.asm_source.specs.Appends.{Appends};

use asm_list::Listed;
use std::alloc::AllocError;

/// The bytes of a file or of something that is printed.
pub type Text = Listed<u8>;

/// Appends the bytes of `words` in UTF-8.
pub fn append_str(text: &mut Text, words: &str) -> Result<(), AllocError>
    ensures { Appends text.old text.new words.now result }
{
    text.extend(words.as_bytes())
}

/// Appends a number in decimal digits, with no leading zero.
pub fn append_number(text: &mut Text, number: u64) -> Result<(), AllocError>
    ensures { Appends text.old text.new (decimal number) result }
{
    let digit = b'0' + (number % 10) as u8;
    if number < 10 {
        return text.push(digit);
    }
    append_number(text, number / 10)?;
    text.push(digit)
}

/// Appends a whole number in decimal digits, after `-` where it is below 0.
pub fn append_integer(text: &mut Text, number: i64) -> Result<(), AllocError>
    ensures { Appends text.old text.new (signed_decimal number) result }
{
    if number < 0 {
        append_str(text, "-")?;
    }
    append_number(text, number.unsigned_abs())
}
