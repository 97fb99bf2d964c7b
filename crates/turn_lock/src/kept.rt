//! What a locked value stands for, and the entries by which that grows.

ghost use Rattle.std.specs.Prelude.{ℕ, List, Option, None};

use std::marker::Brand;

/// A locked value stands for a list of entries.
pub trait Kept {
    type Entry;

    /// Of the value, the number of the first entry, which is 0 for a turn, and the entries, each beside the number of the
    /// pass that made it. By the number a meaning can be a recursion over the list, whose rest has a first entry of its own.
    ghost stands: { Self → ℕ → List (ℕ × Self.Entry) → Type 0 };
}

/// The entry that a call of `leave` adds. It takes no bytes: a call of a function that is generic in it passes [`Brand`],
/// and the proof of that call picks the entry, by the arguments of the call (`numbers::push` does so).
pub trait Names<E> {
    ghost entry: { Option E };
}

impl<E> Names<E> for Brand {
    ghost entry = { None };
}
