//! Bytes in which the ends of lines are searched.
//!
//! How many bytes at the front were searched is kept, and none of them is LF: so a search goes on where the last one
//! stopped, also when bytes have come or left in between. This is the invariant of `SearchedBytes`.
ghost use Rattle.std.specs.Prelude.{◌≡◌, ◌==◌, ◌-◌, ◌<◌, ◌≤◌, [], ◌++◌, length, max, min, take, drop, position, OnOk, OnErr, IfSome, MatchOption};
ghost use Rattle.buf_flow.specs.LineFeeds.{HasNoLineFeed};

use crate::queue::ByteQueue;
use eio_value::NoMemory;
use std::alloc::Global;
use std::marker::Model;

/// A queue of bytes that knows how many at its front are not LF.
#[derive(Drop)]
pub(crate) struct SearchedBytes {
    bytes: ByteQueue,
    /// So many bytes at the front were searched, and none of them is LF.
    searched: usize,
}

impl Model for SearchedBytes {
    ghost use Rattle.std.specs.Prelude.{◌≤◌, length};
    ghost use Rattle.buf_flow.specs.LineFeeds.{HasNoLineFeed, Searched};

    ghost Value = { Searched };

    ghost view = { λ inside. record { bytes = inside.bytes; searched = inside.searched } };

    ghost invariant = { λ inside. (inside.searched ≤ length inside.bytes) × HasNoLineFeed inside.searched inside.bytes };
}

impl SearchedBytes {
    /// No bytes yet.
    pub(crate) fn new(alloc: Global) -> SearchedBytes
        ensures { result ≡ record { bytes = []; searched = 0 } }
    {
        SearchedBytes {
            bytes: ByteQueue::new(alloc),
            searched: 0,
        }
    }

    /// The bytes, in order.
    pub(crate) fn as_slice(&self) -> &[u8]
        ensures { result.now ≡ self.now.bytes }
    {
        self.bytes.as_slice()
    }

    /// These bytes come, behind the others.
    pub(crate) fn put(&mut self, bytes: &[u8]) -> Result<(), NoMemory>
        ensures ok { OnOk result (self.new ≡ record self.old { bytes = self.old.bytes ++ bytes.now }) }
        ensures err { OnErr result (self.new ≡ self.old) }
        ensures needs_bytes { OnErr result (0 < length bytes.now) }
    {
        self.bytes.put(bytes)
    }

    /// So many bytes leave; what was searched behind them need not be searched again.
    pub(crate) fn drop_front(&mut self, count: usize)
        requires { count ≤ length self.old.bytes }
        ensures { self.new ≡ record { bytes = drop count self.old.bytes; searched = self.old.searched - count } }
    {
        self.bytes.drop_front(count);
        self.searched = self.searched.saturating_sub(count);
    }

    /// The place of the first LF among the first `most` bytes. Those before it, else all of them, are then searched.
    pub(crate) fn find_line_feed(&mut self, most: usize) -> Option<usize>
        ensures first { result ≡ position (λ b. b == 10) (take most self.old.bytes) }
        ensures bytes { self.new.bytes ≡ self.old.bytes }
        ensures kept { self.old.searched ≤ self.new.searched }
        ensures searched { MatchOption result (self.new.searched ≡ max self.old.searched (min (length self.old.bytes) most)) (λ place. self.new.searched ≡ place) }
    {
        let bytes = self.bytes.as_slice();
        let end = bytes.len().min(most);
        let found = line_feed(&bytes[..end], self.searched.min(end));
        self.searched = found.unwrap_or(self.searched.max(end));
        found
    }
}

/// The place of the first LF, where none is among the first `from` bytes. Only the bytes behind them are looked at.
fn line_feed(bytes: &[u8], from: usize) -> Option<usize>
    requires within { from ≤ length bytes.now }
    requires searched { HasNoLineFeed from bytes.now }
    ensures first { result ≡ position (λ b. b == 10) bytes.now }
    ensures none { MatchOption result (HasNoLineFeed (length bytes.now) bytes.now) (λ place. HasNoLineFeed place bytes.now) }
    ensures behind { IfSome result (λ place. from ≤ place) }
    ensures found { IfSome result (λ place. place < length bytes.now) }
{
    for place in from..bytes.len() {
        if bytes[place] == b'\n' {
            return Some(place);
        }
    }
    None
}
