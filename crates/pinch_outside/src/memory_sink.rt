//! A sink in memory, which tells everything and fails at the writes that it is told to fail at.
ghost use Rattle.std.specs.Prelude.{◌≡◌, ◌-◌, ◌<◌, ◌≤◌, ◌&&◌, not, nat_lt, min, [], length, Some, is_ok, IfOk, vec_len, vec_capacity};
ghost use Rattle.std.specs.Io.KnownBytes.{WriteAppends};
ghost use Rattle.pinch_outside.specs.Faults.{HasCause, counted, faults_after};
ghost use Rattle.pinch_outside.specs.Failing.{is_failing};
ghost use Rattle.pinch_outside.specs.Sink.{WritesSome};

use crate::counts::count_call;
use crate::{Sink, SinkFault};
use std::alloc::{AllocError, Global};

/// Bytes in memory, with room from the start. A write whose number is in `fails` fails, and so does one without room.
#[derive(Drop)]
pub struct MemorySink {
    pub written: Vec<u8>,
    /// How many bytes can be written in all.
    pub room: usize,
    /// How many writes there were; it stays at `u64::MAX`.
    pub calls: u64,
    /// The numbers, counted from 1, of the writes that fail.
    pub fails: Vec<u64>,
    /// The most bytes that one write appends, at least 1.
    pub piece: usize,
    /// How many writes failed; it stays at `u64::MAX`.
    pub faults: u64,
    ghost has_room: { room ≤ vec_capacity written },
    ghost has_piece: { 1 ≤ piece },
}

impl MemorySink {
    /// Takes all its room now.
    pub fn new(
        alloc: Global,
        room: usize,
        piece: usize,
        fails: Vec<u64>,
    ) -> Result<MemorySink, AllocError>
        requires { 1 ≤ piece }
        ensures written { IfOk result (λ sink. sink.written.items ≡ []) }
        ensures room { IfOk result (λ sink. sink.room ≡ room) }
        ensures piece { IfOk result (λ sink. sink.piece ≡ piece) }
        ensures fails { IfOk result (λ sink. sink.fails ≡ fails) }
        ensures calls { IfOk result (λ sink. sink.calls ≡ 0) }
        ensures faults { IfOk result (λ sink. sink.faults ≡ 0) }
    {
        Ok(MemorySink {
            written: Vec::with_capacity(alloc, room)?,
            room,
            calls: 0,
            fails,
            piece,
            faults: 0,
        })
    }
}

impl Sink for MemorySink {
    ghost written = { λ s. Some s.written.items };

    ghost faults = { λ s. s.faults };

    fn write(&mut self, bytes: &[u8]) -> Result<usize, SinkFault>
        requires { 0 < length bytes.now }
        ensures outcome { is_ok result ≡ (not (is_failing self.old.fails.items self.new.calls)
            && nat_lt (vec_len self.old.written) self.old.room) }
        ensures exact_count { IfOk result (λ n. n
            ≡ min (min self.old.piece (length bytes.now))
            (self.old.room - vec_len self.old.written)) }
        ensures calls { self.new.calls ≡ counted self.old.calls }
        ensures faults { self.new.faults ≡ faults_after self.old.faults result }
        ensures room { self.new.room ≡ self.old.room }
        ensures piece { self.new.piece ≡ self.old.piece }
        ensures fails { self.new.fails ≡ self.old.fails }

        // What every sink promises.
        ensures count { WritesSome result bytes.now }
        ensures written { WriteAppends (Some self.old.written.items)
            (Some self.new.written.items) result bytes.now }
        ensures cause { HasCause self.old.faults self.new.faults result }
    {
        let fails = count_call(&mut self.calls, &self.fails);
        let left = self.room.saturating_sub(self.written.len());
        if fails || left == 0 {
            self.faults = self.faults.saturating_add(1);
            return Err(SinkFault);
        }
        let count = self.piece.min(bytes.len()).min(left);
        self.written.extend_from_slice(&bytes[..count]).unwrap();
        Ok(count)
    }
}
