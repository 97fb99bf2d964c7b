//! The nodes of a script: each statement, each expression, and the end of each block, in reading order.
//!
//! A node's expressions stand right behind it, in order, and its blocks behind these. A block is named by the number of its
//! first node; `after` is the number of the node behind a statement and all that belongs to it.

ghost use Rattle.std.specs.Prelude.{◌≡◌};

use eio_value::TextId;
use std::marker::Model;

/// What is computed of two values.
#[derive(Clone, Copy)]
pub enum Operator {
    Plus,
    Minus,
    Same,
    Less,
}

/// A call on a declared object.
#[derive(Clone, Copy)]
pub enum ObjectCall {
    Take,
    TakeNonblocking,
    Length,
    Await,
    Acquire,
    Release,
    Lock,
    TryLock,
    Unlock,
}

/// A call on a declared object with an operand.
#[derive(Clone, Copy)]
pub enum ObjectCallWith {
    Add,
    Resolve,
    TryResolve,
}

/// A call on a reader.
#[derive(Clone, Copy)]
pub enum ReaderCall {
    Line,
    TakeAll,
    Char,
    AtEnd,
}

/// A call on a path that has no other operand.
#[derive(Clone, Copy)]
pub enum PathCall {
    Load,
    Mkdir,
    ReadDir,
    Unlink,
    Rmdir,
    Kind,
}

/// A form with branches.
#[derive(Clone, Copy)]
pub enum Group {
    Both,
    All,
    First,
    Any,
}

/// How a fiber is forked onto a switch.
#[derive(Clone, Copy)]
pub enum Forking {
    Plain,
    Daemon,
    /// Its end resolves the promise of this number.
    Promising(u32),
}

/// A directory.
#[derive(Clone, Copy)]
pub enum Directory {
    /// The declared one of this number.
    Declared(u32),
    /// The one that the capability in this slot stands for.
    Opened(u32),
}

/// Numbers on the heap, seen as their list.
#[derive(Drop)]
pub struct Numbers {
    list: Vec<u32>,
}

impl Model for Numbers {
    ghost use Rattle.std.specs.Prelude.{ℕ, List};

    ghost Value = { List ℕ };

    ghost view = { λ inside. inside.list.items };
}

impl Numbers {
    /// These numbers.
    pub fn new(list: Vec<u32>) -> Numbers
        ensures { result ≡ list.items }
    {
        Numbers { list }
    }

    /// The numbers, in order.
    pub fn as_slice(&self) -> &[u32]
        ensures { result.now ≡ self.now }
    {
        self.list.as_slice()
    }
}

/// One statement, one expression, or the end of a block.
///
/// Variables, contexts, switches, readers and writers are named by their slots, and what is declared by its number.
#[derive(Drop)]
pub enum Node {
    /// The end of a block.
    End,
    Number(i64),
    Text(TextId),
    Variable(u32),
    Unit,
    Operation(Operator),
    Let,
    /// The form that gives the value is the next node.
    LetForm,
    If {
        then_block: u32,
        else_block: u32,
        after: u32,
    },
    Give,
    Raise(TextId),
    Try {
        tried: u32,
        handler: u32,
        after: u32,
    },
    Repeat {
        body: u32,
        after: u32,
    },
    Loop {
        body: u32,
        after: u32,
    },
    /// So many expressions are traced.
    Trace(u8),
    Yield,
    Check,
    AwaitCancel,
    Sub {
        body: u32,
        after: u32,
    },
    Protect {
        body: u32,
        after: u32,
    },
    Cancel {
        context: u32,
        text: TextId,
    },
    Switch {
        body: u32,
        after: u32,
    },
    Fork {
        forking: Forking,
        switch: u32,
        body: u32,
        after: u32,
    },
    Fail {
        switch: u32,
        text: TextId,
    },
    OnRelease {
        switch: u32,
        handler: u32,
        after: u32,
    },
    Branches {
        group: Group,
        blocks: Numbers,
        after: u32,
    },
    OnObject {
        call: ObjectCall,
        object: u32,
    },
    OnObjectWith {
        call: ObjectCallWith,
        object: u32,
    },
    UseRw {
        mutex: u32,
        body: u32,
        after: u32,
    },
    UsePool {
        pool: u32,
        body: u32,
        after: u32,
    },
    Submit {
        executor: u32,
        /// In hundredths of a worker.
        weight: u8,
        /// The slots of the variables that the job takes with it.
        captured: Numbers,
        job: u32,
        after: u32,
    },
    Sleep,
    Now,
    BufRead {
        flow: u32,
        /// In bytes.
        limit: u32,
        body: u32,
        after: u32,
    },
    OnReader {
        call: ReaderCall,
        reader: u32,
    },
    TakeBytes {
        reader: u32,
    },
    Copy {
        from: u32,
        to: u32,
    },
    BufWrite {
        flow: u32,
        body: u32,
        after: u32,
    },
    Put {
        writer: u32,
    },
    OpenDir {
        directory: Directory,
        body: u32,
        after: u32,
    },
    OnPath {
        call: PathCall,
        directory: Directory,
    },
    Save {
        only_new: bool,
        directory: Directory,
    },
}
