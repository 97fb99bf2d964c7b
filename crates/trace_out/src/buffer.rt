//! A buffer between a run and its sink, so that short pieces don't cost a write each.
//!
//! It holds back at most 4,096 bytes, for which [`Out::new`] reserves memory, so no later call takes any. What the sink was given, followed
//! by what is held back, is what was put: [`Out::put`] says so by `PassesOn`. std's `BufWriter` does the same over a writer that it owns;
//! this one leaves the sink with its caller, whose contract tells what the sink holds.
ghost use Rattle.std.specs.Prelude.{◌≡◌, ◌+◌, ◌≤◌, List, [], ◌++◌, length, OnOk, OnErr, IfOk};
ghost use Rattle.std.specs.Io.KnownBytes.{Appends};
ghost use Rattle.trace_out.specs.Causes.{HasCause, AppendsFront};
ghost use Rattle.trace_out.specs.Passing.{PassesOn, most_pending};

use crate::{Sink, WriteAll, write_all};
use eio_value::NoMemory;
use std::alloc::Global;
use std::marker::Model;

/// How many bytes are held back at most.
const ROOM: usize = 4096;

/// Bytes on their way to a sink, at most 4,096. It is seen as the bytes that it holds back.
///
/// Who drops it loses them: call [`Out::flush`] at the end.
#[derive(Drop)]
pub struct Out {
    pending: Vec<u8>,
}

impl Model for Out {
    ghost use Rattle.std.specs.Prelude.{ℕ, List};

    ghost Value = { List ℕ };

    ghost use Rattle.trace_out.specs.OutInside.{IsReserved};

    ghost view = { λ s. s.pending.items };

    ghost invariant = { IsReserved };
}

impl Out {
    /// A buffer that holds nothing back.
    pub fn new(alloc: Global) -> Result<Out, NoMemory>
        ensures { IfOk result (λ out. out ≡ []) }
    {
        let pending = Vec::with_capacity(alloc, ROOM)?;
        Ok(Out { pending })
    }

    /// Puts bytes behind those held back, and writes these whenever there are 4,096 of them and more come.
    ///
    /// # Errors
    /// `WriteFault` where the sink failed. It has taken a front of the bytes held back and these, and what is held back then is of no use.
    pub fn put<K: Sink>(&mut self, sink: &mut K, bytes: &[u8]) -> Result<(), WriteAll>
        ensures ok { OnOk result (PassesOn (K.held sink.old) (K.held sink.new) self.old bytes.now self.new) }
        ensures err { OnErr result (AppendsFront (K.held sink.old) (K.held sink.new) (self.old ++ bytes.now)) }
        ensures cause { HasCause (K.faults sink.old) (K.faults sink.new) result }
    {
        let mut at = 0;
        'filling: while self.free() < bytes.len() - at {
            let end = at + self.free();
            self.push(&bytes[at..end]);
            self.flush(sink)?;
            at = end;
        }
        self.push(&bytes[at..]);
        Ok(())
    }

    /// Writes all that is held back.
    ///
    /// # Errors
    /// `WriteFault` where the sink failed. It has taken a front of the bytes held back, and what is held back then is of no use.
    pub fn flush<K: Sink>(&mut self, sink: &mut K) -> Result<(), WriteAll>
        ensures ok { OnOk result (Appends (K.held sink.old) (K.held sink.new) self.old) }
        ensures empty { OnOk result (self.new ≡ []) }
        ensures err { OnErr result (AppendsFront (K.held sink.old) (K.held sink.new) self.old) }
        ensures cause { HasCause (K.faults sink.old) (K.faults sink.new) result }
    {
        write_all(sink, &self.pending)?;
        self.pending.clear();
        Ok(())
    }

    /// How many bytes more it can hold back.
    fn free(&self) -> usize
        ensures { result + length self.now ≡ most_pending }
    {
        ROOM - self.pending.len()
    }

    /// Holds these bytes back besides.
    fn push(&mut self, bytes: &[u8])
        requires { length self.old + length bytes.now ≤ most_pending }
        ensures { self.new ≡ self.old ++ bytes.now }
    {
        match self.pending.extend_from_slice(bytes) {
            Ok(()) => (),
            // Memory for all that it may hold back was reserved when it was made.
            Err(_) => unreachable!(),
        }
    }
}
