//! A source in memory, which fails at the calls that it is told to.
ghost use Rattle.std.specs.Prelude.{◌≡◌, ◌<◌, ◌≤◌, ◌↔◌, min, [], length, take, drop, Some, IfOk, OnOk, OnErr, is_err};
ghost use Rattle.std.specs.Io.{ReadsAtMost};
ghost use Rattle.std.specs.Io.KnownBytes.{ReadConsumes};
ghost use Rattle.trace_out.specs.Causes.{HasCause};
ghost use Rattle.trace_out.specs.Devices.{next_count, is_among};

use crate::{Failed, Source};

/// A source in memory. A read gives the least of `most`, the room in the buffer and what is left; it
/// fails where its number stands in `failing`. It takes no memory.
#[derive(Drop)]
pub struct MemSource {
    /// The bytes that are left.
    pub left: Vec<u8>,
    /// The most bytes that one call gives, at least 1.
    pub most: usize,
    /// The numbers of the calls that fail, counted from 1.
    pub failing: Vec<u64>,
    /// How many calls there were, up to the greatest number.
    pub calls: u64,
    /// How many of them failed, up to the greatest number.
    pub faults: u64,
    ghost gives_some: { 1 ≤ most },
}

impl Source for MemSource {
    ghost left = { λ s. Some s.left.items };

    ghost faults = { λ s. s.faults };

    fn read(&mut self, buf: &mut [u8]) -> Result<usize, Failed>
        requires { 0 < length buf.old }
        // What every source promises.
        ensures within { ReadsAtMost result buf.new }
        ensures bytes { ReadConsumes (Some self.old.left.items) (Some self.new.left.items) result buf.new }
        ensures end { IfOk result (λ n. (n ≡ 0) ↔ (self.old.left.items ≡ [])) }
        ensures kept { OnErr result (self.new.left.items ≡ self.old.left.items) }
        ensures cause { HasCause self.old.faults self.new.faults result }

        // When it fails, and what it gives else.
        ensures fails { is_err result ≡ is_among self.old.failing.items (next_count self.old.calls) }
        ensures count { IfOk result (λ n. n ≡ min self.old.most (min (length buf.old) (length self.old.left.items))) }
        ensures given { IfOk result (λ n. take n buf.new ≡ take n self.old.left.items) }
        ensures left { IfOk result (λ n. self.new.left.items ≡ drop n self.old.left.items) }
        ensures rest { IfOk result (λ n. drop n buf.new ≡ drop n buf.old) }
        ensures untouched { OnErr result (buf.new ≡ buf.old) }

        // The counts, and what stays.
        ensures calls { self.new.calls ≡ next_count self.old.calls }
        ensures fault { OnErr result (self.new.faults ≡ next_count self.old.faults) }
        ensures no_fault { OnOk result (self.new.faults ≡ self.old.faults) }
        ensures most { self.new.most ≡ self.old.most }
        ensures failing { self.new.failing.items ≡ self.old.failing.items }
    {
        self.calls = self.calls.saturating_add(1);
        if self.failing.contains(&self.calls) {
            self.faults = self.faults.saturating_add(1);
            return Err(Failed);
        }
        let count = self.most.min(buf.len().min(self.left.len()));
        buf[..count].copy_from_slice(&self.left[..count]);
        drop(self.left.drain(..count));
        Ok(count)
    }
}
