//! What was read of a flow and isn't given yet. Clauses see it as a reader of the definitions that isn't shut.
//!
//! Each call answers as the definition does by the bytes that are there (`Answers`). No byte is searched for LF twice, and
//! what is given leaves the front without moving the rest each time: that is kept by `SearchedBytes` and `ByteQueue`. That the
//! answers don't depend on how the bytes were cut is the law [`crate::cuts_alike`].
ghost use Rattle.std.specs.Prelude.{◌≡◌, ◌<◌, ◌≤◌, None, length, take, drop, pos, OnOk, OnErr, MatchBool};
ghost use Rattle.spec_parts.specs.BytesToCome.{Line, TakeBytes, TakeAll, Char, AtEnd, line_end};
ghost use Rattle.spec_parts.specs.Readers.{new_reader, feed, finish};

use crate::line::line_len;
use crate::searched::SearchedBytes;
use eio_value::{Bytes, NoMemory};
use std::alloc::Global;
use std::marker::Model;

/// What a call of a reader answers.
#[derive(Drop)]
pub enum Item {
    /// These bytes, which the reader holds no longer.
    Bytes(Bytes),
    Flag(bool),
    /// The bytes that are there don't decide the call.
    NeedMore,
    /// More is asked for than comes.
    EndOfFile,
    /// More is asked for than the reader may buffer.
    BufferLimit,
    /// There is no memory for the bytes of the answer; they are still there.
    NoMemory,
}

/// The bytes that were read of a flow and aren't given yet.
#[derive(Drop)]
pub struct BufRead {
    alloc: Global,
    bytes: SearchedBytes,
    /// The most bytes that an answer may have.
    most: u32,
    /// Whether no more bytes come.
    over: bool,
}

impl Model for BufRead {
    ghost use Rattle.spec_parts.specs.Readers.{Reader};

    ghost Value = { Reader };

    ghost use Rattle.buf_flow.specs.BufReadInside.{reader_of};

    ghost view = { reader_of };
}

impl BufRead {
    ghost use Rattle.buf_flow.specs.Items.{Answers, GivesOrNoMemory};

    /// Nothing was read yet, and an answer has at most so many bytes.
    pub fn new(alloc: Global, most: u32) -> BufRead
        ensures { result ≡ new_reader most }
    {
        BufRead {
            alloc,
            bytes: SearchedBytes::new(alloc),
            most,
            over: false,
        }
    }

    /// These bytes were read.
    pub fn feed(&mut self, bytes: &[u8]) -> Result<(), NoMemory>
        ensures ok { OnOk result (self.new ≡ feed bytes.now self.old) }
        ensures err { OnErr result (self.new ≡ self.old) }
        ensures needs_bytes { OnErr result (0 < length bytes.now) }
    {
        self.bytes.put(bytes)
    }

    /// The end was read: no more bytes come.
    pub fn finish(&mut self)
        ensures { self.new ≡ finish self.old }
    {
        self.over = true;
    }

    /// The next line, without its end: LF, or CR and LF. At the end of the flow it is all that is left.
    pub fn line(&mut self) -> Item
        ensures { Answers Line result self.old self.new }
    {
        match self.bytes.find_line_feed(self.most as usize + 1) {
            Some(place) => {
                let count = line_len(&self.bytes.as_slice()[..place]);
                self.give(count, place + 1)
            }
            None => self.unended_line(),
        }
    }

    /// The next bytes, so many.
    pub fn take(&mut self, count: u32) -> Item
        ensures { Answers (TakeBytes (pos count)) result self.old self.new }
    {
        let wanted = count as usize;
        if self.most < count {
            Item::BufferLimit
        } else if self.bytes.as_slice().len() < wanted {
            self.too_few()
        } else {
            self.give(wanted, wanted)
        }
    }

    /// All bytes up to the end of the flow.
    pub fn take_all(&mut self) -> Item
        ensures { Answers TakeAll result self.old self.new }
    {
        let all = self.bytes.as_slice().len();
        if (self.most as usize) < all {
            Item::BufferLimit
        } else if self.over {
            self.give(all, all)
        } else {
            Item::NeedMore
        }
    }

    /// The next byte.
    pub fn char(&mut self) -> Item
        ensures { Answers Char result self.old self.new }
    {
        if self.bytes.as_slice().is_empty() {
            self.too_few()
        } else {
            self.give(1, 1)
        }
    }

    /// Whether the end of the flow is all that comes.
    pub fn at_end(&self) -> Item
        ensures { Answers AtEnd result self.now self.now }
    {
        match (self.bytes.as_slice().is_empty(), self.over) {
            (false, _) => Item::Flag(false),
            (true, true) => Item::Flag(true),
            (true, false) => Item::NeedMore,
        }
    }

    /// The answer to a line whose LF isn't among the bytes that a line may have.
    fn unended_line(&mut self) -> Item
        requires { line_end self.old.most self.old.bytes ≡ None }
        ensures { Answers Line result self.old self.new }
    {
        let count = self.bytes.as_slice().len();
        if (self.most as usize) < count {
            Item::BufferLimit
        } else if self.over && count > 0 {
            self.give(count, count)
        } else {
            self.too_few()
        }
    }

    /// The answer where more is asked for than is there.
    fn too_few(&self) -> Item
        ensures { MatchBool self.now.over (result ≡ Item.EndOfFile) (result ≡ Item.NeedMore) }
    {
        if self.over {
            Item::EndOfFile
        } else {
            Item::NeedMore
        }
    }

    /// Gives the first `count` bytes, and holds the first `used` no longer.
    fn give(&mut self, count: usize, used: usize) -> Item
        requires given { count ≤ used }
        requires used { used ≤ length self.old.bytes }
        ensures { GivesOrNoMemory result (take count self.old.bytes) (drop used self.old.bytes) self.old self.new }
    {
        match self.bytes.as_slice()[..count].to_vec(self.alloc) {
            Ok(given) => {
                self.bytes.drop_front(used);
                Item::Bytes(Bytes::new(given))
            }
            Err(_) => Item::NoMemory,
        }
    }
}
