//! A sink in memory that fails by plan.
ghost use Rattle.std.specs.Prelude.{◌≡◌, ◌≤◌, ◌<◌, ◌+◌, ◌-◌, ◌^◌, ◌++◌, [], length, min, Some, IfOk, is_err, vec_len, vec_capacity};
ghost use Rattle.std.specs.Io.KnownBytes.{WriteAppends};
ghost use Rattle.timing_outside.specs.Causes.{HasCause};

use crate::plan::{WritePlan, is_among};
use crate::sink::Sink;
use crate::source::Failed;
use std::alloc::{AllocError as OutOfMemory, Global};

/// A sink that keeps the bytes written to it. All its memory is allocated when it is made.
#[derive(Drop)]
pub struct MemorySink {
    bytes: Vec<u8>,
    room: usize,
    piece: usize,
    fails: Vec<u32>,
    writes: u64,
    faults: u64,
    ghost holds: { vec_len bytes + room ≤ vec_capacity bytes },
    ghost some: { 1 ≤ piece },
}

impl MemorySink {
    ghost use Rattle.timing_outside.specs.MemorySinks.{bytes_of, room_of, piece_of, fails_of, IsNew, SameCounts};

    /// Returns a sink with room for this many bytes. It fails only if it is full, and a write takes
    /// all bytes that fit. Returns `Err` if memory runs out.
    pub fn new(alloc: Global, room: u64) -> Result<MemorySink, OutOfMemory>
        ensures new { IfOk result (λ s. IsNew s room) }
        ensures bytes { IfOk result (λ s. bytes_of s ≡ []) }
        ensures piece { IfOk result (λ s. piece_of s ≡ 2 ^ 64 - 1) }
        ensures fails { IfOk result (λ s. fails_of s ≡ []) }
    {
        MemorySink::made(alloc, room, usize::MAX, Vec::new(alloc))
    }

    /// Returns a sink with room for this many bytes. Its writes fail by this plan. Returns `Err` if
    /// memory runs out.
    pub fn with_plan(alloc: Global, room: u64, plan: WritePlan) -> Result<MemorySink, OutOfMemory>
        ensures new { IfOk result (λ s. IsNew s room) }
        ensures bytes { IfOk result (λ s. bytes_of s ≡ []) }
        ensures piece { IfOk result (λ s. piece_of s ≡ plan.piece) }
        ensures fails { IfOk result (λ s. fails_of s ≡ plan.fails.items) }
    {
        MemorySink::made(alloc, room, plan.piece as usize, plan.fails)
    }

    /// Returns an empty sink with this room, piece and plan. Returns `Err` if memory runs out.
    fn made(
        alloc: Global,
        room: u64,
        piece: usize,
        fails: Vec<u32>,
    ) -> Result<MemorySink, OutOfMemory>
        requires { 1 ≤ piece }
        ensures new { IfOk result (λ s. IsNew s room) }
        ensures bytes { IfOk result (λ s. bytes_of s ≡ []) }
        ensures piece { IfOk result (λ s. piece_of s ≡ piece) }
        ensures fails { IfOk result (λ s. fails_of s ≡ fails.items) }
    {
        let room = room as usize;
        Ok(MemorySink {
            bytes: Vec::with_capacity(alloc, room)?,
            room,
            piece,
            fails,
            writes: 0,
            faults: 0,
        })
    }

    /// Returns the bytes that were written.
    pub fn bytes(&self) -> &[u8]
        ensures { result.now ≡ bytes_of self.now }
    {
        &self.bytes
    }

    /// Appends bytes that fit into the room.
    fn append(&mut self, piece: &[u8])
        requires { length piece.now ≤ room_of self.old }
        ensures bytes { bytes_of self.new ≡ bytes_of self.old ++ piece.now }
        ensures room { room_of self.new + length piece.now ≡ room_of self.old }
        ensures counted { SameCounts self.old self.new }
    {
        let _appended = self.bytes.extend_from_slice(piece);
        self.room -= piece.len();
    }
}

impl Sink for MemorySink {
    ghost use Rattle.timing_outside.specs.MemorySinks.{bytes_of, room_of, faults_of, write_fails, taken, Counted};

    ghost written = { λ s. Some (bytes_of s) };

    ghost faults = { λ s. faults_of s };

    /// Appends as many bytes as the plan and the room allow. Returns `Failed` exactly if there is a
    /// byte to write and either the number of this write is in the plan or there is no room.
    fn write(&mut self, bytes: &[u8]) -> Result<usize, Failed>
        ensures bound { IfOk result (λ k. k ≤ length bytes.now) }
        ensures some { IfOk result (λ k. 0 < length bytes.now → 0 < k) }
        ensures bytes { WriteAppends (Some (bytes_of self.old)) (Some (bytes_of self.new))
            result bytes.now }
        ensures cause { HasCause (faults_of self.old) (faults_of self.new) result }

        ensures exact { is_err result ≡ write_fails self.old bytes.now }
        ensures taken { IfOk result (λ k. k ≡ taken self.old bytes.now) }
        ensures room { room_of self.new + (length (bytes_of self.new) - length (bytes_of self.old))
            ≡ room_of self.old }
        ensures counted { Counted self.old self.new bytes.now (is_err result) }
    {
        if bytes.is_empty() {
            return Ok(0);
        }
        self.writes = self.writes.saturating_add(1);
        if self.room == 0 || is_among(&self.fails, self.writes) {
            self.faults = self.faults.saturating_add(1);
            return Err(Failed);
        }
        let count = bytes.len().min(self.room).min(self.piece);
        self.append(&bytes[..count]);
        Ok(count)
    }
}
