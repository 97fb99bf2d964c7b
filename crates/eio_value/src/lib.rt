//! Values that every crate of the library speaks of.
//!
//! All of them are plain data: what a script holds (`Value`), what it raises (`Raised`), what its
//! fibers ask of shared objects and are answered (`Call`, `Answer`), and what one domain sends to
//! another (`Message`). Texts stand in a table and are named by their numbers (`TextId`), so nearly
//! all of these types are `Copy` and hold no memory.
//!
//! The traits [`Wake`], [`Objects`] and [`Extras`] stand between a domain, the objects that it calls, and what wakes their waiters.
//!
//! What two exceptions become together is `combine`. `Texts` is a table of texts, and `show`, `quote` and
//! `show_raised` write values and exceptions by it.
//!
//! The definitions that speak of them stand in specs/: `Values` (the text of a value), `Exceptions`
//! (the text of an exception), `Escapes` (how the bytes of a text are written), `Table` (the table of
//! texts), `Several` (exceptions that were raised together), `Joining` (what two exceptions become
//! together), `Directory` (what stands in a scripted directory), `Sending` and `Waking` (what a call on an object sends, and whom it
//! finds alive), `Fitting`, `Waits` and `Things` (what goes between a domain and its objects). They are run on worked rows in
//! proofs/Rows. `JoiningLaws` states what is proved of `combine` for all exceptions (src/laws.rt).
#![tactic(auto)]

mod bytes;
mod call;
mod entry;
mod escapes;
mod extras;
mod flow_step;
mod joining;
mod laws;
mod members;
mod message;
mod mock_call;
mod objects;
mod operands;
mod plain;
mod raised;
mod texts;
mod value;
mod wake;
mod writing;

pub use bytes::Bytes;
pub use call::{Answer, Answered, Call, Struck, Woken};
pub use entry::{Entries, Entry};
pub use extras::Extras;
pub use flow_step::FlowStep;
pub use joining::{combine, reason};
pub use laws::{
    cancelled_gives_way, combine_in_any_grouping, combine_is_held, combine_is_in_order,
    combine_with_itself,
};
pub use members::Members;
pub use message::{Job, Message, Waiter};
pub use mock_call::{Extra, MockCall, Said};
pub use objects::Objects;
pub use operands::Operands;
pub use plain::{Member, Misuse, PathFault, Plain};
pub use raised::{Outcome, Raised};
use std::alloc::{AllocError, AllocFailed};
pub use texts::Texts;
pub use value::{TextId, Value};
pub use wake::Wake;
pub use writing::{quote, show, show_raised};

/// Memory was refused.
///
/// The one error of a call that can fail for lack of memory alone, in every crate: `?` makes it of
/// std's two errors of an allocation, and drops the value that was not stored.
#[derive(Clone, Copy, Debug)]
pub struct NoMemory;

impl From<AllocError> for NoMemory {
    fn from(_refused: AllocError) -> NoMemory {
        NoMemory
    }
}

impl<T: Drop> From<AllocFailed<T>> for NoMemory {
    fn from(_refused: AllocFailed<T>) -> NoMemory {
        NoMemory
    }
}

/// A fixed number of places is in use, all of them.
#[derive(Clone, Copy, Debug)]
pub struct Full;
