//! Reading an input to its end, or just past the longest one that is accepted.
//!
//! The loop keeps: the bytes in `input` are those that the source gave, at most 262,145 of them, and the source's count
//! of faults hasn't fallen. `read_input` says how much was read at each answer.
ghost use Rattle.std.specs.Prelude.{◌≡◌, ◌≤◌, IfOk};
ghost use Rattle.trace_out.specs.Outcome.{HasReadSome};
ghost use Rattle.trace_out.specs.Input.{ReadsInput, FailsByCause};

use crate::Source;
use std::alloc::Global;

/// The most bytes that are read: one more than an accepted input has.
const MOST_READ: usize = 262_145;

/// How many bytes are asked for at a time.
const PIECE: usize = 4096;

/// Why the input wasn't read.
#[derive(Clone, Copy, Debug)]
pub enum InputError {
    /// The source failed.
    Fault,
    /// Memory was refused.
    NoMemory,
}

/// Reads the whole input, or its first 262,145 bytes, one more than an accepted input has.
///
/// # Errors
/// `Fault` where the source failed, and `NoMemory` where memory was refused; a front of the input was read then.
pub fn read_input<S: Source>(alloc: Global, source: &mut S) -> Result<Vec<u8>, InputError>
    ensures input { IfOk result (λ input. ReadsInput (S.left source.old) (S.left source.new) input.items) }
    ensures some { HasReadSome (S.left source.old) (S.left source.new) }
    ensures later { S.faults source.old ≤ S.faults source.new }
    ensures fault { FailsByCause (S.faults source.old) (S.faults source.new) result }
{
    let mut input = Vec::new(alloc);
    let mut piece = [0u8; PIECE];
    'reading: while input.len() < MOST_READ {
        let room = (MOST_READ - input.len()).min(PIECE);
        let count = match source.read(&mut piece[..room]) {
            Ok(count) => count,
            Err(_) => return Err(InputError::Fault),
        };
        if count == 0 {
            return Ok(input);
        }
        if input.extend_from_slice(&piece[..count]).is_err() {
            return Err(InputError::NoMemory);
        }
    }
    Ok(input)
}
