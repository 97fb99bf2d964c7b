//! What was put and isn't written yet. Clauses see it as these bytes.
ghost use Rattle.std.specs.Prelude.{◌≡◌, ◌<◌, ◌≤◌, [], ◌++◌, length, OnOk, OnErr};
ghost use Rattle.spec_parts.specs.Writers.{took};

use crate::queue::ByteQueue;
use eio_value::NoMemory;
use std::alloc::Global;
use std::marker::Model;

/// The bytes that were put less those that were taken to be written.
#[derive(Drop)]
pub struct BufWrite {
    pending: ByteQueue,
}

impl Model for BufWrite {
    ghost use Rattle.std.specs.Prelude.{ℕ, List};

    ghost Value = { List ℕ };

    ghost view = { λ writer. writer.pending };
}

impl BufWrite {
    /// Nothing is pending.
    pub fn new(alloc: Global) -> BufWrite
        ensures { result ≡ [] }
    {
        BufWrite {
            pending: ByteQueue::new(alloc),
        }
    }

    /// Puts these bytes behind those that are pending.
    pub fn put(&mut self, bytes: &[u8]) -> Result<(), NoMemory>
        ensures ok { OnOk result (self.new ≡ self.old ++ bytes.now) }
        ensures err { OnErr result (self.new ≡ self.old) }
        ensures needs_bytes { OnErr result (0 < length bytes.now) }
    {
        self.pending.put(bytes)
    }

    /// The bytes that are pending, in order.
    pub fn pending(&self) -> &[u8]
        ensures { result.now ≡ self.now }
    {
        self.pending.as_slice()
    }

    /// The first of the pending bytes, so many, were written.
    pub fn took(&mut self, count: usize)
        requires { count ≤ length self.old }
        ensures { self.new ≡ took count self.old }
    {
        self.pending.drop_front(count);
    }
}
