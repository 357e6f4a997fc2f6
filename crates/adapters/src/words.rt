ghost use Rattle.std.specs.Prelude.{◌≡◌};
ghost use Rattle.adapters.specs.declared.words.WordFault.TheVariants.{OutOfMemory};

#[cfg(test)]
mod tests;

use std::alloc::{AllocError, Global};
use std::env::{Env, FillError};

/// Why the words of a command line were not read.
#[derive(Clone, Copy, Debug, PartialEq, Eq)]
pub enum WordFault {
    /// One is not UTF-8.
    NotText,
    OutOfMemory,
}

impl From<AllocError> for WordFault {
    ghost from_gives = { λ _ fault. fault ≡ OutOfMemory };

    fn from(_: AllocError) -> WordFault {
        WordFault::OutOfMemory
    }
}

/// The words behind the program's name, in order. The name is not read: it is a path, and need not
/// be text.
pub fn words_of<R: Env>(rt: &R, alloc: Global) -> Result<Vec<String>, WordFault> {
    let mut words = Vec::new(alloc);
    for i in 1..usize::MAX {
        match word_at(rt, alloc, i)? {
            Some(word) => push(&mut words, word)?,
            None => break,
        }
    }
    Ok(words)
}

fn push(words: &mut Vec<String>, word: String) -> Result<(), AllocError> {
    words.push(word)?;
    Ok(())
}

// The word of this number, if there is one. Room for it is doubled until it fits.
fn word_at<R: Env>(rt: &R, alloc: Global, i: usize) -> Result<Option<String>, WordFault> {
    let mut room: usize = 256;
    for _ in 0..usize::BITS {
        let mut bytes = vec![in alloc; 0; room]?;
        match rt.arg(i, &mut bytes) {
            Ok(length) => {
                bytes.truncate(length);
                return text_of(bytes);
            }
            Err(FillError::NotPresent) => return Ok(None),
            Err(FillError::TooLong) => room = room.saturating_mul(2),
        }
    }
    Err(WordFault::OutOfMemory)
}

fn text_of(bytes: Vec<u8>) -> Result<Option<String>, WordFault> {
    match String::from_utf8(bytes) {
        Ok(word) => Ok(Some(word)),
        Err(_) => Err(WordFault::NotText),
    }
}
