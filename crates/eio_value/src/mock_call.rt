//! Calls on scripted flows and directories, and their answers.

use crate::{Raised, TextId, Value};

/// A call on a flow, a reader, a writer or a directory of a mocked domain.
///
/// A declared flow or directory is named by its number in order of declaration; a reader, a writer or
/// a directory that was opened is named by the number that its opening answered.
#[derive(Clone, Copy)]
pub enum MockCall {
    /// The next line of a reader, without its end.
    Line(u32),
    /// This many bytes of a reader; a number below 0 counts as 0.
    TakeBytes(u32, i64),
    /// All bytes of a reader up to the end of its flow.
    TakeAll(u32),
    /// The next byte of a reader.
    Char(u32),
    /// Whether a reader is at the end of its flow.
    AtEnd(u32),
    /// Copies all that a flow gives to another: the first to the second.
    Copy(u32, u32),
    /// Opens a reader over a flow, which buffers at most so many bytes.
    OpenReader(u32, u32),
    /// Opens a writer over a flow.
    OpenWriter(u32),
    /// Hands a text to a writer.
    PutBytes(u32, TextId),
    /// The move of a writer's copier: it writes all that is pending.
    Carry(u32),
    /// The end of the block of a reader or a writer, and whether it ended with an exception.
    Shut(u32, bool),
    /// Opens a directory below a directory.
    OpenDir(u32, TextId),
    /// The content of a file.
    Load(u32, TextId),
    /// Writes the file at this path, new or old, with this content.
    Save(u32, TextId, TextId),
    /// Writes a new file at this path, with this content.
    SaveNew(u32, TextId, TextId),
    /// Makes a directory.
    Mkdir(u32, TextId),
    /// The names in a directory.
    ReadDir(u32, TextId),
    /// Removes a file or a link.
    Unlink(u32, TextId),
    /// Removes an empty directory.
    Rmdir(u32, TextId),
    /// What stands at a path.
    Kind(u32, TextId),
}

/// What the trace says of a call on a flow.
#[derive(Clone, Copy)]
pub enum Said {
    Nothing,
    /// These bytes were read from a flow.
    Read(u32, TextId),
    /// These bytes were written to a flow.
    Wrote(u32, TextId),
    /// These bytes were copied from the first flow to the second.
    Copied(u32, u32, TextId),
}

/// What a call on a flow, a reader, a writer or a directory answers.
#[derive(Clone, Copy)]
pub enum Extra {
    Done(Value, Said),
    /// One read or one write was made, and the call goes on with the fiber's next move.
    More(Said),
    /// The fiber goes to the back of the ready list, and the call goes on with its next move.
    Back,
    /// The fiber waits.
    Waits,
    Raised(Raised, Said),
}
