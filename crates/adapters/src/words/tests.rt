use super::{WordFault, words_of};
use std::alloc::{AllocError, Global};
use std::env::{Env, FillError};
use std::test::Fail;

// A command line, of whose words the first is the program's name.
#[derive(Drop)]
struct Line {
    alloc: Global,
    words: Vec<Vec<u8>>,
}

impl Line {
    fn new(alloc: Global) -> Line {
        Line {
            alloc,
            words: Vec::new(alloc),
        }
    }

    fn push(&mut self, word: &[u8]) -> Result<(), AllocError> {
        let word = word.to_vec(self.alloc)?;
        self.words.push(word)?;
        Ok(())
    }
}

impl Env for Line {
    fn arg(&self, i: usize, buf: &mut [u8]) -> Result<usize, FillError> {
        let Some(word) = self.words.get(i) else {
            return Err(FillError::NotPresent);
        };
        if word.len() > buf.len() {
            return Err(FillError::TooLong);
        }
        buf[..word.len()].copy_from_slice(word);
        Ok(word.len())
    }

    fn var(&self, _name: &str, _buf: &mut [u8]) -> Result<usize, FillError> {
        Err(FillError::NotPresent)
    }

    fn var_at(&self, _i: usize, _buf: &mut [u8]) -> Result<usize, FillError> {
        Err(FillError::NotPresent)
    }
}

// A line of these words.
fn line_of(alloc: Global, words: &[&[u8]]) -> Result<Line, AllocError> {
    let mut line = Line::new(alloc);
    for &word in words {
        line.push(word)?;
    }
    Ok(line)
}

// How many words are read.
fn count_of(line: &Line) -> Result<usize, WordFault> {
    words_of(line, line.alloc).map(|words| words.len())
}

// Longer than the first room for a word.
const LONG: &[u8] = &[b'x'; 1000];

#[test]
fn words_behind_the_name(rt: HostRuntime) -> Result<(), Fail> {
    let line = line_of(
        rt.alloc(),
        &[b"monitor".as_slice(), b"table".as_slice(), LONG],
    )?;
    let Ok(words) = words_of(&line, rt.alloc()) else {
        return Err(Fail::new("these words are text"));
    };
    assert_eq!(rt; words.len(), 2);
    assert_eq!(rt; words[0].as_str(), "table");
    assert_eq!(rt; words[1].len(), LONG.len());
    Ok(())
}

#[test]
fn no_words(rt: HostRuntime) -> Result<(), Fail> {
    let line = line_of(rt.alloc(), &[])?;
    assert_eq!(rt; count_of(&line), Ok(0));
    Ok(())
}

// The name is not read, so it need not be text; a word must be.
#[test]
fn words_that_are_no_text(rt: HostRuntime) -> Result<(), Fail> {
    let mut line = line_of(rt.alloc(), &[b"\xff/monitor".as_slice()])?;
    assert_eq!(rt; count_of(&line), Ok(0));
    line.push(b"\xff")?;
    assert_eq!(rt; count_of(&line), Err(WordFault::NotText));
    Ok(())
}
