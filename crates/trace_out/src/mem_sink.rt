//! A sink in memory, which fails at the calls that it is told to and where its room is used up.
//!
//! Its bytes never outgrow the room that `new` reserved, so a write takes no memory.
ghost use Rattle.std.specs.Prelude.{◌≡◌, ◌+◌, ◌<◌, ◌≤◌, [], ◌++◌, length, take, Some, IfOk, OnErr, is_err};
ghost use Rattle.std.specs.Io.KnownBytes.{WriteAppends};
ghost use Rattle.trace_out.specs.Causes.{HasCause};
ghost use Rattle.trace_out.specs.Devices.{next_count, write_fails, write_count, is_refused};

use crate::{Failed, Sink};
use eio_value::NoMemory;
use std::alloc::Global;
use std::marker::Model;

/// A sink in memory. A write takes the least of `most`, the piece and the room that is left; it fails
/// where its number stands in `failing`, where `most` is 0 and where no room is left.
#[derive(Drop)]
pub struct MemSink {
    bytes: Vec<u8>,
    room: usize,
    most: usize,
    failing: Vec<u64>,
    calls: u64,
    faults: u64,
}

impl Model for MemSink {
    ghost use Rattle.trace_out.specs.Devices.{Memory};

    ghost Value = { Memory };

    ghost use Rattle.trace_out.specs.MemSinkInside.{memory_of, IsReserved};

    ghost view = { memory_of };

    ghost invariant = { IsReserved };
}

impl MemSink {
    /// An empty sink, for which it reserves `room` bytes. The numbers in `failing` count writes from 1.
    pub fn new(
        alloc: Global,
        room: usize,
        most: usize,
        failing: Vec<u64>,
    ) -> Result<MemSink, NoMemory>
        ensures { IfOk result (λ s. s ≡ record { held = []; room = room; most = most; failing = failing.items; calls = 0; faults = 0 }) }
    {
        let bytes = Vec::with_capacity(alloc, room)?;
        Ok(MemSink {
            bytes,
            room,
            most,
            failing,
            calls: 0,
            faults: 0,
        })
    }

    /// The bytes that were written.
    pub fn held(&self) -> &[u8]
        ensures { result.now ≡ self.now.held }
    {
        self.bytes.as_slice()
    }
}

/// Whether a write fails, by its number and by what the sink can take.
fn refuses(failing: &[u64], call: u64, most: usize, room: usize, held: usize) -> bool
    ensures { result ≡ is_refused failing.now call most room held }
{
    failing.contains(&call) || most == 0 || room <= held
}

impl Sink for MemSink {
    ghost held = { λ s. Some s.held };

    ghost faults = { λ s. s.faults };

    #[tactic(auto, unfolding(crate::specs::Devices::write_fails))]
    fn write(&mut self, piece: &[u8]) -> Result<usize, Failed>
        requires { 0 < length piece.now }
        // What every sink promises.
        ensures some { IfOk result (λ n. 0 < n) }
        ensures within { IfOk result (λ n. n ≤ length piece.now) }
        ensures bytes { WriteAppends (Some self.old.held) (Some self.new.held) result piece.now }
        ensures kept { OnErr result (self.new.held ≡ self.old.held) }
        ensures cause { HasCause self.old.faults self.new.faults result }

        // When it fails, how much it takes else, and what it is afterwards.
        ensures fails { is_err result ≡ write_fails self.old }
        ensures count { IfOk result (λ n. n ≡ write_count self.old piece.now) }
        ensures ok { IfOk result (λ n. self.new ≡ record self.old { held = self.old.held ++ take n piece.now; calls = next_count self.old.calls }) }
        ensures err { OnErr result (self.new ≡ record self.old { calls = next_count self.old.calls; faults = next_count self.old.faults }) }
    {
        let call = self.calls.saturating_add(1);
        self.calls = call;
        if refuses(&self.failing, call, self.most, self.room, self.bytes.len()) {
            self.faults = self.faults.saturating_add(1);
            return Err(Failed);
        }
        let free = self.room - self.bytes.len();
        let count = self.most.min(piece.len().min(free));
        match self.bytes.extend_from_slice(&piece[..count]) {
            Ok(()) => Ok(count),
            Err(_) => unreachable!(),
        }
    }
}
