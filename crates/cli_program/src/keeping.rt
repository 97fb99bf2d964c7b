//! A source and a sink that keep what passed through them, so that the place of a refusal can be shown.
//!
//! They read and write what the source and the sink inside do, and meet what every source and sink promises. Memory that is
//! refused to what is kept changes nothing else: then `is_whole` is false, and no more is kept.
ghost use Rattle.std.specs.Prelude.{◌≡◌, ◌<◌, ◌≤◌, ◌↔◌, [], ◌++◌, length, take, IfOk, OnErr, IfSome, IsTrue};
ghost use Rattle.std.specs.Io.{ReadsAtMost};
ghost use Rattle.std.specs.Io.KnownBytes.{ReadConsumes, WriteAppends, Keeps};
ghost use Rattle.trace_out.specs.Causes.{HasCause};

use trace_out::{Failed, Sink, Source};

/// A source that keeps what was read.
#[derive(Drop)]
pub(crate) struct KeepingSource<S: Source + Drop> {
    pub source: S,
    /// What was read.
    pub kept: Vec<u8>,
    /// Whether all of it was kept.
    pub is_whole: bool,
}

impl<S: Source + Drop> Source for KeepingSource<S> {
    ghost left = { λ s. S.left s.source };

    ghost faults = { λ s. S.faults s.source };

    fn read(&mut self, buf: &mut [u8]) -> Result<usize, Failed>
        requires { 0 < length buf.old }
        // What every source promises.
        ensures within { ReadsAtMost result buf.new }
        ensures bytes { ReadConsumes (S.left self.old.source) (S.left self.new.source) result buf.new }
        ensures end { IfSome (S.left self.old.source) (λ bytes. IfOk result (λ n. (n ≡ 0) ↔ (bytes ≡ []))) }
        ensures kept { OnErr result (Keeps (S.left self.old.source) (S.left self.new.source)) }
        ensures cause { HasCause (S.faults self.old.source) (S.faults self.new.source) result }

        // What is kept.
        ensures whole { IsTrue self.new.is_whole → IfOk result (λ n. self.new.kept.items ≡ self.old.kept.items ++ take n buf.new) }
    {
        let count = self.source.read(buf)?;
        if self.is_whole {
            self.is_whole = self.kept.extend_from_slice(&buf[..count]).is_ok();
        }
        Ok(count)
    }
}

/// How many bytes of what is written are kept: more than the line of a refusal has.
const FRONT: usize = 64;

/// A sink that keeps the front of what was written, at most 64 bytes.
#[derive(Drop)]
pub(crate) struct KeepingSink<K: Sink + Drop> {
    pub sink: K,
    /// The front of what was written.
    pub kept: Vec<u8>,
}

impl<K: Sink + Drop> Sink for KeepingSink<K> {
    ghost held = { λ s. K.held s.sink };

    ghost faults = { λ s. K.faults s.sink };

    fn write(&mut self, piece: &[u8]) -> Result<usize, Failed> {
        let count = self.sink.write(piece)?;
        if self.kept.len() < FRONT {
            let front = count.min(FRONT - self.kept.len());
            // Where memory is refused, the line isn't shown.
            let _ = self.kept.extend_from_slice(&piece[..front]);
        }
        Ok(count)
    }
}
