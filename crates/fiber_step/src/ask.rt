//! The calls of a fiber, with their operands evaluated.

ghost use Rattle.std.specs.Prelude.{◌≡◌};

use eio_value::{Operands, Outcome, Raised, TextId, Value};
use script_forms::{Forking, Group, ObjectCall, ObjectCallWith, PathCall, ReaderCall};

/// A directory: a declared one, or the one that an opening answered, by its number.
#[derive(Clone, Copy)]
pub enum DirectoryRef {
    Declared(u32),
    Opened(u64),
}

/// What a fiber calls, with evaluated operands.
///
/// A block is named by the number of its first node. What is declared is named by its number, and what a slot stands for by
/// the number that the slot holds.
#[derive(Clone, Copy)]
pub enum Ask {
    Trace(Operands),
    Yield,
    Check,
    AwaitCancel,
    /// A turn of a loop begins.
    Turn,
    Sub {
        body: u32,
    },
    Protect {
        body: u32,
    },
    Cancel {
        context: u32,
        text: TextId,
    },
    Switch {
        body: u32,
    },
    Fork {
        forking: Forking,
        switch: u32,
        body: u32,
    },
    Fail {
        switch: u32,
        text: TextId,
    },
    OnRelease {
        switch: u32,
        handler: u32,
    },
    /// The blocks are those of the form at this node, of which there is at least one; the caller runs the last.
    Branches {
        group: Group,
        form: u32,
    },
    OnObject {
        call: ObjectCall,
        object: u32,
    },
    OnObjectWith {
        call: ObjectCallWith,
        object: u32,
        operand: Value,
    },
    Use {
        pool: u32,
    },
    Submit {
        executor: u32,
        /// In hundredths of a worker.
        weight: u8,
        given: Operands,
        job: u32,
    },
    Sleep(i64),
    Now,
    OpenReader {
        flow: u32,
        /// In bytes.
        limit: u32,
        body: u32,
    },
    OnReader {
        call: ReaderCall,
        reader: u64,
    },
    TakeBytes {
        reader: u64,
        count: i64,
    },
    Copy {
        from: u32,
        to: u32,
    },
    OpenWriter {
        flow: u32,
        body: u32,
    },
    PutText {
        writer: u64,
        text: TextId,
    },
    OpenDirectory {
        place: DirectoryRef,
        path: TextId,
        body: u32,
    },
    OnPath {
        call: PathCall,
        place: DirectoryRef,
        path: TextId,
    },
    Save {
        only_new: bool,
        place: DirectoryRef,
        path: TextId,
        content: TextId,
    },
    /// The end of a block of a context; `late` where a switch had finished, whose handler the block is.
    Leave {
        context: u32,
        late: bool,
        outcome: Outcome,
    },
    /// The end of a switch, or of one of its handlers.
    Close {
        switch: u32,
        failed: Option<Raised>,
        kept: Value,
    },
    Join {
        group: u32,
        own: Option<Outcome>,
    },
    ShutReader {
        reader: u32,
        outcome: Outcome,
    },
    ShutWriter {
        writer: u32,
        outcome: Outcome,
    },
    UnlockEnd {
        mutex: u32,
        value: Value,
    },
    PoisonEnd {
        mutex: u32,
        raised: Raised,
    },
    PutEnd {
        pool: u32,
        resource: u32,
        outcome: Outcome,
    },
    ResolveEnd {
        promise: u32,
        outcome: Outcome,
    },
    /// The end of the fiber.
    End(Outcome),
}

impl Ask {
    /// A fork into a switch.
    pub(crate) fn forking(forking: Forking, switch: u32, body: u32) -> Ask
        ensures { result ≡ Ask.Fork forking switch body }
    {
        Ask::Fork {
            forking,
            switch,
            body,
        }
    }

    /// A call on an object with an operand.
    pub(crate) fn on_object(call: ObjectCallWith, object: u32, operand: Value) -> Ask
        ensures { result ≡ Ask.OnObjectWith call object operand }
    {
        Ask::OnObjectWith {
            call,
            object,
            operand,
        }
    }

    /// A job for an executor, given the values of what it captures.
    pub(crate) fn submitting(executor: u32, weight: u8, given: Operands, job: u32) -> Ask
        ensures { result ≡ Ask.Submit executor weight given job }
    {
        Ask::Submit {
            executor,
            weight,
            given,
            job,
        }
    }

    /// A file that is written whole.
    pub(crate) fn saving(only_new: bool, place: DirectoryRef, path: TextId, content: TextId) -> Ask
        ensures { result ≡ Ask.Save only_new place path content }
    {
        Ask::Save {
            only_new,
            place,
            path,
            content,
        }
    }
}
