//! The parts of a row.
//!
//! `{64 (mutex m@)}` stands for 64 pieces ` (mutex m0)`, ` (mutex m1)` and so on: the number behind the brace says how many, and `@`
//! stands for the number of each, from 0. Such braces may stand in one another. `^` stands for a line feed.

use crate::unanswered::Unanswered;
use std::alloc::{AllocError, Global};

/// The most pairs of braces that a row may have.
const MOST_BRACES: u32 = 64;

/// What stands before the bar of a row, and behind it.
pub(crate) fn split_at_bar(rest: &str) -> (&str, &str) {
    match rest.split_once('|') {
        Some((before, behind)) => (before.trim(), behind.strip_prefix(' ').unwrap_or(behind)),
        None => (rest.trim(), ""),
    }
}

/// How many pieces stand for what is in braces, and the piece.
fn count_and_piece(inside: &str) -> Option<(u32, &str)> {
    let piece = inside.trim_start_matches(|it: char| it.is_ascii_digit());
    let count = inside.strip_suffix(piece)?;
    Some((count.parse().ok()?, piece))
}

/// Puts a piece with its number behind a text.
fn push_piece(text: &mut String, number: u32, piece: &str) -> Result<(), AllocError> {
    match piece.split_once('@') {
        Some((before, behind)) => write!(text, "{before}{number}{behind}"),
        None => text.push_str(piece),
    }
}

/// Puts a row behind a text, the last pair of braces written out. Where the row has none, the answer is `false`.
fn push_written_out(text: &mut String, row: &str) -> Result<bool, Unanswered> {
    let Some((before, rest)) = row.rsplit_once('{') else {
        return Ok(false);
    };
    let (inside, behind) = rest.split_once('}').ok_or(Unanswered)?;
    let (count, piece) = count_and_piece(inside).ok_or(Unanswered)?;
    text.push_str(before)?;
    for number in 0..count {
        push_piece(text, number, piece)?;
    }
    text.push_str(behind)?;
    Ok(true)
}

/// A row with each pair of braces written out, and with its line feeds.
pub(crate) fn written_out(alloc: Global, row: &str) -> Result<String, Unanswered> {
    let mut text = row.replace(alloc, '^', "\n")?;
    for _ in 0..MOST_BRACES {
        let mut next = String::new(alloc);
        if !push_written_out(&mut next, &text)? {
            break;
        }
        text = next;
    }
    Ok(text)
}
