//! Runs: words and numbers. The theorem is the clause `tree` of [`parse_run`].

ghost use Rattle.std.specs.Prelude.{◌≡◌, ◌≤◌, ◌+◌, length, drop};
ghost use Rattle.std.specs.List.{take_while, list_all};
ghost use Rattle.std.specs.Str.Parse.{starts_with_minus};
ghost use Rattle.spec_script.specs.Bytes.{is_run_byte, is_digit, is_letter};
ghost use Rattle.spec_script.specs.Reading.{is_numeral, run_tree};
ghost use Rattle.script_tree.specs.Numbers.{number_of, is_signed_numeral};
ghost use Rattle.script_tree.specs.Views.{Gives, run_of};

use crate::fault::TreeFault;
use crate::tree::TreeNode;
use std::alloc::Global;

/// The most bytes of a word.
const MOST_WORD: usize = 32;

/// Whether a byte belongs to a run.
pub fn is_run_byte(byte: u8) -> bool
    ensures { result ≡ is_run_byte byte }
{
    matches!(byte, b'a'..=b'z' | b'0'..=b'9' | b'-' | b'_')
}

/// The length of the longest front of run bytes.
pub fn run_len(bytes: &[u8]) -> usize
    ensures { result ≡ length (take_while is_run_byte bytes.now) }
{
    bytes.iter().take_while(|byte| is_run_byte(**byte)).count()
}

/// Whether bytes are digits alone.
fn are_digits(bytes: &[u8]) -> bool
    ensures { result ≡ list_all is_digit bytes.now }
{
    bytes.iter().all(|byte| matches!(*byte, b'0'..=b'9'))
}

/// Whether bytes are digits that don't begin with 0, or 0 alone.
fn is_numeral(bytes: &[u8]) -> bool
    ensures { result ≡ is_numeral bytes.now }
{
    match bytes {
        [] => false,
        [digit] => matches!(*digit, b'0'..=b'9'),
        [first, others @ ..] => matches!(*first, b'1'..=b'9') && are_digits(others),
    }
}

fn is_signed_numeral(run: &[u8]) -> bool
    ensures { result ≡ is_signed_numeral run.now }
{
    match run {
        [b'-', digits @ ..] => is_numeral(digits),
        _ => is_numeral(run),
    }
}

fn is_letter(byte: u8) -> bool
    ensures { result ≡ is_letter byte }
{
    matches!(byte, b'a'..=b'z')
}

/// Whether bytes begin with `-`.
fn is_negative(run: &[u8]) -> bool
    ensures { result ≡ starts_with_minus run.now }
{
    matches!(run, [b'-', ..])
}

/// The number that a run is.
#[tactic(auto, using(crate::proofs::Numbers::nonzero_number, crate::proofs::Numbers::plain_number, crate::proofs::Numbers::minus_zero, crate::proofs::Numbers::too_large))]
fn parse_number(run: &[u8]) -> Option<i64>
    ensures { result ≡ number_of run.now }
{
    if !is_signed_numeral(run) {
        return None;
    }
    let Ok(text) = str::from_utf8(run) else {
        return None;
    };
    let Ok(number) = text.parse::<i64>() else {
        return None;
    };
    if number != 0 {
        return Some(number);
    }
    if is_negative(run) {
        return None;
    }
    Some(number)
}

/// A word or a number.
#[derive(Drop)]
pub enum Run {
    Word(Vec<u8>),
    Number(i64),
}

impl Run {
    ghost use Rattle.std.specs.Prelude.{◌≡◌};
    ghost use Rattle.script_tree.specs.Views.{run_of};
    ghost use Rattle.script_tree.specs.Pieces.{piece_of, leaf_of};

    /// The piece that it is, at its place.
    pub fn into_node(self, at: u32) -> TreeNode
        ensures { piece_of result ≡ leaf_of (run_of at self) }
    {
        match self {
            Run::Word(word) => TreeNode::Word { at, word },
            Run::Number(number) => TreeNode::Number { at, number },
        }
    }
}

/// What a run is that begins at a place.
#[tactic(auto, using(crate::proofs::Runs::run_empty, crate::proofs::Runs::run_long, crate::proofs::Runs::run_word, crate::proofs::Runs::run_underscore, crate::proofs::Runs::run_number, crate::proofs::Runs::run_no_number))]
pub fn parse_run(alloc: Global, run: &[u8], at: u32) -> Result<Run, TreeFault>
    ensures tree { Gives (run_of at) result (run_tree at run.now) }
{
    if run.is_empty() {
        return Err(TreeFault::Byte(at));
    }
    if is_letter(run[0]) {
        if run.len() > MOST_WORD {
            return Err(TreeFault::LongText(at));
        }
        let mut word = Vec::new(alloc);
        word.extend_from_slice(run)?;
        return Ok(Run::Word(word));
    }
    if run[0] == b'_' {
        return Err(TreeFault::Byte(at));
    }
    match parse_number(run) {
        Some(number) => Ok(Run::Number(number)),
        None => Err(TreeFault::Number(at)),
    }
}
