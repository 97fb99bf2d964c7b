//! Streams: queues of items with a capacity, between fibers that add and fibers that take.
//!
//! A [`Stream`] is seen as its row in `spec_parts`, with the number of cells beside it. Fibers in its lists may be dead, since their waits
//! were decided elsewhere; a call asks them in order through any `eio_value::Wake`, and drops the dead that it comes to. So one stream
//! serves a mocked domain and, behind a lock, domains on threads. The theorems are the clauses of the methods: each call gives what
//! the row's step gives on the row without those dead (`Meets`).
#![tactic(auto)]

mod stream;

pub use stream::Stream;
