//! What a run writes and ends with: the lines of its moves, their texts, and exit statuses.
//!
//! Nothing here reads or writes: the definitions of a run stand on this crate, and the devices on theirs. The theorem is the clauses of
//! [`render_trace`]; the definitions that they cite stand in specs/: `Exits` (statuses), `TraceTexts` (the lines of the trace that a
//! move writes), `HistoryTexts` (the lines of a history), `Names` (of what is declared).
#![tactic(auto)]

mod line;
mod render;
mod status;

pub use line::{Did, Line, Said2};
pub use render::render_trace;
pub use status::Status;
