//! Sources and sinks over std's readers and writers, as standard input and output.
//!
//! As sources and sinks they tell no bytes, since no contract can say what a terminal or a file gives or
//! takes. What passes is the reader's and the writer's, byte for byte, and each `Failed` is counted, and
//! nothing else. When one comes is up to the reader or the writer, so no clause says it.
ghost use Rattle.std.specs.Prelude.{◌≡◌, ◌<◌, ◌≤◌, length, None, IfOk, OnOk, OnErr};
ghost use Rattle.std.specs.Io.{ReadsAtMost};
ghost use Rattle.std.specs.Io.KnownBytes.{ReadConsumes, WriteAppends};
ghost use Rattle.trace_out.specs.Causes.{HasCause};
ghost use Rattle.trace_out.specs.Devices.{next_count};

use crate::{Failed, Sink, Source};
use std::io::{Read, Write};

/// A source over a reader.
#[derive(Drop)]
pub struct StdSource<R: Read> {
    /// Where the bytes come from.
    pub from: R,
    /// How often it failed, up to the greatest number.
    pub faults: u64,
}

impl<R: Read> Source for StdSource<R> {
    ghost left = { λ _. None };

    ghost faults = { λ s. s.faults };

    fn read(&mut self, buf: &mut [u8]) -> Result<usize, Failed>
        requires { 0 < length buf.old }
        // What every source promises.
        ensures within { ReadsAtMost result buf.new }
        ensures cause { HasCause self.old.faults self.new.faults result }

        // The bytes are the reader's, and each failure counts.
        ensures reader { ReadConsumes (R.remaining self.old.from) (R.remaining self.new.from) result buf.new }
        ensures fault { OnErr result (self.new.faults ≡ next_count self.old.faults) }
        ensures no_fault { OnOk result (self.new.faults ≡ self.old.faults) }
    {
        match self.from.read(buf) {
            Ok(count) => Ok(count),
            Err(_) => {
                self.faults = self.faults.saturating_add(1);
                Err(Failed)
            }
        }
    }
}

/// A sink over a writer.
#[derive(Drop)]
pub struct StdSink<W: Write> {
    /// Where the bytes go.
    pub to: W,
    /// How often it failed or took nothing, up to the greatest number.
    pub faults: u64,
}

impl<W: Write> Sink for StdSink<W> {
    ghost held = { λ _. None };

    ghost faults = { λ s. s.faults };

    fn write(&mut self, piece: &[u8]) -> Result<usize, Failed>
        requires { 0 < length piece.now }
        // What every sink promises.
        ensures some { IfOk result (λ n. 0 < n) }
        ensures within { IfOk result (λ n. n ≤ length piece.now) }
        ensures cause { HasCause self.old.faults self.new.faults result }

        // The bytes go to the writer, and each failure counts.
        ensures writer { WriteAppends (W.contents self.old.to) (W.contents self.new.to) result piece.now }
        ensures fault { OnErr result (self.new.faults ≡ next_count self.old.faults) }
        ensures no_fault { OnOk result (self.new.faults ≡ self.old.faults) }
    {
        match self.to.write(piece) {
            Ok(count) if 0 < count => Ok(count),
            _ => {
                self.faults = self.faults.saturating_add(1);
                Err(Failed)
            }
        }
    }
}
