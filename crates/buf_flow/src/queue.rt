//! Bytes that come at the back and leave at the front.
//!
//! What has left is not moved out at once: the queue knows how many bytes at the front of its memory have left, at
//! most as many as are still there, and moves the rest down once it would be more. So each byte that leaves pays for
//! the move of at most one byte. This is the invariant of `ByteQueue`.
ghost use Rattle.std.specs.Prelude.{◌≡◌, ◌+◌, ◌<◌, ◌≤◌, [], ◌++◌, length, drop, OnOk, OnErr};

use eio_value::NoMemory;
use std::alloc::Global;
use std::marker::Model;

/// A queue of bytes.
#[derive(Drop)]
pub(crate) struct ByteQueue {
    /// The bytes that have left and lie here still, and behind them those of the queue.
    bytes: Vec<u8>,
    /// How many have left: at most half.
    left: usize,
}

impl Model for ByteQueue {
    ghost use Rattle.std.specs.Prelude.{ℕ, ◌+◌, ◌≤◌, List, length, drop};

    ghost Value = { List ℕ };

    ghost view = { λ queue. drop queue.left queue.bytes.items };

    ghost invariant = { λ queue. queue.left + queue.left ≤ length queue.bytes.items };
}

impl ByteQueue {
    /// No bytes yet.
    pub(crate) fn new(alloc: Global) -> ByteQueue
        ensures { result ≡ [] }
    {
        ByteQueue {
            bytes: Vec::new(alloc),
            left: 0,
        }
    }

    /// The bytes, in order.
    pub(crate) fn as_slice(&self) -> &[u8]
        ensures { result.now ≡ self.now }
    {
        &self.bytes[self.left..]
    }

    /// These bytes come, behind the others.
    pub(crate) fn put(&mut self, bytes: &[u8]) -> Result<(), NoMemory>
        ensures ok { OnOk result (self.new ≡ self.old ++ bytes.now) }
        ensures err { OnErr result (self.new ≡ self.old) }
        ensures needs_bytes { OnErr result (0 < length bytes.now) }
    {
        self.bytes.extend_from_slice(bytes)?;
        Ok(())
    }

    /// So many bytes leave.
    pub(crate) fn drop_front(&mut self, count: usize)
        requires { count ≤ length self.old }
        ensures { self.new ≡ drop count self.old }
    {
        let left = self.left + count;
        let rest = self.bytes.len() - left;
        if left <= rest {
            self.left = left;
        } else {
            self.bytes.copy_within(left.., 0);
            self.bytes.truncate(rest);
            self.left = 0;
        }
    }
}
