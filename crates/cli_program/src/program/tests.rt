//! What no clause says: that the words behind the program's name are handed on, and that one that isn't UTF-8 has no meaning.
use super::*;
use std::env::FillError;

/// A command line.
#[derive(Drop)]
struct Given<'a> {
    words: &'a [&'a [u8]],
}

impl Env for Given<'_> {
    fn arg(&self, i: usize, buf: &mut [u8]) -> Result<usize, FillError> {
        let word = self.words.get(i).ok_or(FillError::NotPresent)?;
        let room = buf.get_mut(..word.len()).ok_or(FillError::TooLong)?;
        room.copy_from_slice(word);
        Ok(word.len())
    }

    fn var(&self, _name: &str, _buf: &mut [u8]) -> Result<usize, FillError> {
        Err(FillError::NotPresent)
    }

    fn var_at(&self, _i: usize, _buf: &mut [u8]) -> Result<usize, FillError> {
        Err(FillError::NotPresent)
    }
}

/// A command line, the words that are handed on, and whether all of it is text; else it is answered by Usage.
struct Row {
    line: [&'static [u8]; 3],
    words: [&'static str; 2],
    is_text: bool,
}

const ROWS: [Row; 2] = [
    Row {
        line: [b"eio-run", b"mock", b"--steps=3"],
        words: ["mock", "--steps=3"],
        is_text: true,
    },
    Row {
        line: [b"eio-run", b"mock", b"\xff"],
        words: ["mock", ""],
        is_text: false,
    },
];

/// Whether the row says so.
fn is_as_said(row: &Row, found: &Result<Vec<String>, Status>) -> bool {
    match found {
        Ok(words) => row.is_text
            && words
                .iter()
                .map(String::as_str)
                .eq(row.words.iter().copied()),
        Err(status) => !row.is_text && *status == Status::Usage,
    }
}

#[test]
fn words_behind_the_name(rt: HostRuntime) {
    for row in &ROWS {
        let found = words_of(&(Given { words: &row.line }, rt.alloc()));
        assert!(rt; is_as_said(row, &found));
    }
}
