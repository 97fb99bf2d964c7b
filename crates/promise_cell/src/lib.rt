//! Promises: an outcome that is set once, and the fibers that wait for it.
//!
//! A [`Promise`] is seen as its row in `spec_parts`, with the number of cells beside it. Fibers in its list may be dead, since their waits
//! were decided elsewhere; `next_wake` asks them in order through any `eio_value::Wake`, and drops the dead that it comes to. So one promise
//! serves a mocked domain and, behind a lock, domains on threads. The theorems are the clauses of the methods: each call gives what
//! the row's step gives on the row without those dead (`Meets`).
#![tactic(auto)]

mod promise;

pub use promise::Promise;
