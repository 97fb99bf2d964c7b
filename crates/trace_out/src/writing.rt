//! Writing all bytes to a sink that may take them in pieces.
//!
//! The loop keeps: what was written so far is the front `bytes[..at]`, and the count of faults has not
//! fallen. `write_all` says what the sink holds after either answer.
ghost use Rattle.std.specs.Prelude.{◌+◌, ◌<◌, OnOk, OnErr};
ghost use Rattle.std.specs.Io.KnownBytes.{Appends};
ghost use Rattle.trace_out.specs.Causes.{HasCause, AppendsFront};

use crate::{Failed, Sink};

/// Why not all bytes were written.
#[derive(Clone, Copy, Debug)]
pub enum WriteAll {
    /// The sink failed.
    WriteFault,
}

/// Writes all bytes; at the sink's first failure a front of them stays written.
pub fn write_all<K: Sink>(sink: &mut K, bytes: &[u8]) -> Result<(), WriteAll>
    ensures ok { OnOk result (Appends (K.held sink.old) (K.held sink.new) bytes.now) }
    ensures err { OnErr result (AppendsFront (K.held sink.old) (K.held sink.new) bytes.now) }
    ensures cause { HasCause (K.faults sink.old) (K.faults sink.new) result }
{
    let mut at = 0;
    'writing: while at < bytes.len() {
        match sink.write(&bytes[at..]) {
            Ok(count) => at += count,
            Err(Failed) => return Err(WriteAll::WriteFault),
        }
    }
    Ok(())
}
