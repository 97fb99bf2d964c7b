//! A copy of a table of texts. The theorem is the clause of [`copy_of`].
//!
//! The loop keeps: the copy has the first texts of the table, in order. Since no text stands in a table twice, each next one is new.

ghost use Rattle.std.specs.Prelude.{◌≡◌, IfOk};

use eio_value::{NoMemory, TextId, Texts};
use std::alloc::Global;

/// A table with the same texts under the same numbers.
///
/// # Errors
/// [`NoMemory`] where memory runs out, or the numbers of 32 bits.
pub(crate) fn copy_of(alloc: Global, texts: &Texts) -> Result<Texts, NoMemory>
    ensures { IfOk result (λ copy. copy ≡ texts.now) }
{
    let mut copy = Texts::new(alloc);
    let count = texts.len();
    if count >= u32::MAX as usize {
        return Err(NoMemory);
    }
    for number in 0..count {
        copy.intern(texts.bytes(TextId(number as u32)))?;
    }
    Ok(copy)
}
