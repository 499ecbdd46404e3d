//! The words of the process.
use asm_list::Name;
use std::alloc::{AllocError, Global};
use std::env::FillError;
use std::rt::Env;

/// The bytes of a word, in a buffer that is long enough; none past the last word.
fn word_bytes(alloc: Global, rt: &impl Env, place: usize) -> Result<Option<Vec<u8>>, AllocError> {
    let mut size = 256usize;
    for _ in 0..usize::BITS {
        let mut buffer = vec![in alloc; 0u8; size]?;
        match rt.arg(place, &mut buffer) {
            Ok(count) => {
                buffer.truncate(count);
                return Ok(Some(buffer));
            }
            Err(FillError::NotPresent) => return Ok(None),
            Err(FillError::TooLong) => size = size.saturating_mul(2),
        }
    }
    Err(AllocError)
}

/// The command's words without the program's name. A word that isn't UTF-8 is an empty one.
pub fn read_words(alloc: Global, rt: &impl Env) -> Result<Vec<Name>, AllocError> {
    let mut words = Vec::new(alloc);
    for place in 1..usize::MAX {
        let Some(bytes) = word_bytes(alloc, rt, place)? else {
            break;
        };
        words.push(Name::of(alloc, str::from_utf8(&bytes).unwrap_or(""))?)?;
    }
    Ok(words)
}
