//! What a fiber still has to do, by the numbers of the script's nodes.

ghost use Rattle.std.specs.Prelude.{◌≡◌, List, Some, None, IfSome};
ghost use Rattle.fiber_step.specs.Standing.{ask_of, Ends, failed_in, value_in, unlocked};
ghost use Rattle.fiber_step.specs.Stepping.{HasBodiesOf};
ghost use Rattle.fiber_step.specs.Unwinding.{stops};
ghost use Rattle.script_forms.specs.declared.node.Node.{Node};
ghost use Rattle.spec_fiber.specs.Asks as model;

use crate::ask::Ask;
use eio_value::{Outcome, Raised, Value};

/// An item of work that holds no variables. A mark at the end of a block has the number of slots that its end keeps.
#[derive(Clone, Copy)]
pub enum Mark {
    /// The statements from this node on, up to the end of their block.
    Run(u32),
    /// The end of a block that does nothing more.
    Cut {
        keep: usize,
    },
    /// The end of the first block of a `try`.
    Try {
        handler: u32,
        keep: usize,
    },
    /// A `let` whose form is under way.
    Bind {
        slot: usize,
    },
    /// The end of a turn of a `loop`.
    Loop {
        body: u32,
        keep: usize,
    },
    /// The end of a turn of a `repeat`, with the number of the next turn and how many are left.
    Repeat {
        turn: u64,
        left: u64,
        body: u32,
        keep: usize,
    },
    /// The end of a block of a context; `late` for a handler of a switch that had finished.
    Leave {
        context: u32,
        late: bool,
        keep: usize,
    },
    /// The end of a switch's body.
    Close {
        switch: u32,
        keep: usize,
    },
    /// The end of a handler of a switch that closes, with the value of the switch's body.
    Closing {
        switch: u32,
        kept: Value,
    },
    /// The end of the caller's branch.
    Join {
        group: u32,
        keep: usize,
    },
    ShutReader {
        reader: u32,
        keep: usize,
    },
    ShutWriter {
        writer: u32,
        keep: usize,
    },
    /// A block that begins once the mutex is had.
    Locking {
        mutex: u32,
        body: u32,
    },
    /// The end of that block.
    Unlock {
        mutex: u32,
        keep: usize,
    },
    /// A block that begins once a resource is had.
    Using {
        pool: u32,
        body: u32,
    },
    /// The end of that block.
    Put {
        pool: u32,
        resource: u32,
        keep: usize,
    },
    /// The end of a fiber that resolves a promise.
    Resolve {
        promise: u32,
    },
}

/// A call at an end of a block, and how many slots it keeps: all, where it doesn't say.
#[derive(Clone, Copy)]
pub struct End {
    pub call: Ask,
    pub keep: Option<usize>,
}

/// What a switch's end is given of what came to it: an exception, if it is one.
fn failed(came: &Outcome) -> Option<Raised>
    ensures { result ≡ failed_in came.now }
{
    match came {
        Outcome::Ok(_) => None,
        Outcome::Err(raised) => Some(*raised),
    }
}

/// The value that came, which is unit where none did.
fn given(came: &Outcome) -> Value
    ensures { result ≡ value_in came.now }
{
    match came {
        Outcome::Ok(value) => *value,
        Outcome::Err(_) => Value::Unit,
    }
}

/// The end of a block of a context.
fn leaving(context: u32, late: bool, came: &Outcome) -> Ask
    ensures call { (nodes : List Node) → ask_of nodes result ≡ model.Leave context late came.now }
    ensures bodies { (nodes : List Node) → HasBodiesOf nodes result }
{
    Ask::Leave {
        context,
        late,
        outcome: *came,
    }
}

/// The end of a switch, or of one of its handlers, with the value of the switch's body.
fn closing(switch: u32, came: &Outcome, kept: Value) -> Ask
    ensures call { (nodes : List Node) → ask_of nodes result ≡ model.Close switch (failed_in came.now) kept }
    ensures bodies { (nodes : List Node) → HasBodiesOf nodes result }
{
    Ask::Close {
        switch,
        failed: failed(came),
        kept,
    }
}

/// The end of a block that ran with a resource.
fn putting(pool: u32, resource: u32, came: &Outcome) -> Ask
    ensures call { (nodes : List Node) → ask_of nodes result ≡ model.PutEnd pool resource came.now }
    ensures bodies { (nodes : List Node) → HasBodiesOf nodes result }
{
    Ask::PutEnd {
        pool,
        resource,
        outcome: *came,
    }
}

/// The end of a block that ran with a mutex.
fn unlocking(mutex: u32, came: &Outcome) -> Ask
    ensures call { (nodes : List Node) → ask_of nodes result ≡ unlocked mutex came.now }
    ensures bodies { (nodes : List Node) → HasBodiesOf nodes result }
{
    match came {
        Outcome::Ok(value) => Ask::UnlockEnd {
            mutex,
            value: *value,
        },
        Outcome::Err(raised) => Ask::PoisonEnd {
            mutex,
            raised: *raised,
        },
    }
}

impl End {
    /// A call that keeps so many slots.
    fn keeping(keep: usize, call: Ask) -> Option<End>
        ensures { result ≡ Some (record { call = call; keep = Some keep }) }
    {
        Some(End {
            call,
            keep: Some(keep),
        })
    }

    /// A call that keeps all slots.
    fn keeping_all(call: Ask) -> Option<End>
        ensures { result ≡ Some (record { call = call; keep = None }) }
    {
        Some(End { call, keep: None })
    }
}

impl Mark {
    /// The end of a block of a context, which keeps so many slots.
    pub(crate) fn leaving(context: u32, late: bool, keep: usize) -> Mark
        ensures { result ≡ Mark.Leave context late keep }
    {
        Mark::Leave {
            context,
            late,
            keep,
        }
    }

    /// The call that is made where an end mark is come to with a value or an exception. Other items make none at once.
    #[tactic(auto, using(crate::proofs::Ends::makes_none, crate::proofs::Ends::leave_ends, crate::proofs::Ends::close_ends, crate::proofs::Ends::closing_ends, crate::proofs::Ends::join_ends, crate::proofs::Ends::reader_ends, crate::proofs::Ends::writer_ends, crate::proofs::Ends::unlock_ends, crate::proofs::Ends::put_ends, crate::proofs::Ends::resolve_ends, crate::proofs::Ends::has_none))]
    pub fn end(&self, came: &Outcome) -> Option<End>
        ensures ends { Ends self.now came.now result }
        ensures bodies { IfSome result (λ end. (nodes : List Node) → HasBodiesOf nodes end.call) }
    {
        let outcome = *came;
        match *self {
            Mark::Leave {
                context,
                late,
                keep,
            } => End::keeping(keep, leaving(context, late, came)),
            Mark::Close { switch, keep } => {
                End::keeping(keep, closing(switch, came, given(came)))
            }
            Mark::Closing { switch, kept } => End::keeping_all(closing(switch, came, kept)),
            Mark::Join { group, keep } => End::keeping(
                keep,
                Ask::Join {
                    group,
                    own: Some(outcome),
                },
            ),
            Mark::ShutReader { reader, keep } => {
                End::keeping(keep, Ask::ShutReader { reader, outcome })
            }
            Mark::ShutWriter { writer, keep } => {
                End::keeping(keep, Ask::ShutWriter { writer, outcome })
            }
            Mark::Unlock { mutex, keep } => End::keeping(keep, unlocking(mutex, came)),
            Mark::Put {
                pool,
                resource,
                keep,
            } => End::keeping(keep, putting(pool, resource, came)),
            Mark::Resolve { promise } => End::keeping_all(Ask::ResolveEnd { promise, outcome }),
            _ => None,
        }
    }

    /// Whether an exception goes no further than to this item: a `try` catches it, and an end makes its call with it.
    pub fn stops(&self) -> bool
        ensures { result ≡ stops self.now }
    {
        matches!(
            self,
            Mark::Try { .. }
                | Mark::Leave { .. }
                | Mark::Close { .. }
                | Mark::Closing { .. }
                | Mark::Join { .. }
                | Mark::ShutReader { .. }
                | Mark::ShutWriter { .. }
                | Mark::Unlock { .. }
                | Mark::Put { .. }
                | Mark::Resolve { .. }
        )
    }
}
