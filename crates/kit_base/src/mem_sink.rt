//! Sinks in memory.

ghost use Rattle.std.specs.Prelude.{◌≡◌, ◌<◌, ◌≤◌, ◌-◌, ◌+◌, ◌++◌, [], length, take, min, Some, IfOk, OnErr, IsTrue, is_err, false, true};
ghost use Rattle.std.specs.Io.{WritesAtMost};
ghost use Rattle.std.specs.Io.KnownBytes.{WriteAppends};
ghost use Rattle.kit_base.specs.Causes.{HasCause};
ghost use Rattle.kit_base.specs.Memory.{fails_next, called, faulted, fresh, room_of, taken};

use crate::plan::Plan;
use crate::{Failed, NoMemory, Sink, Words};
use std::alloc::Global;
use std::marker::Model;

/// The room of a sink in memory, in octets. All of it is allocated when the sink is made.
const ROOM: usize = 16_777_216;

/// The octets that a sink in memory holds.
#[derive(Drop)]
struct Room {
    memory: Vec<u8>,
    len: usize,
}

impl Model for Room {
    ghost use Rattle.std.specs.Prelude.{◌≡◌, ◌≤◌, List, ℕ, take, length};

    ghost Value = { List ℕ };

    ghost view = { λ r. take r.len r.memory.items };

    ghost invariant = { λ r. (r.len ≤ length r.memory.items) × (length r.memory.items ≡ 16777216) };
}

impl Room {
    fn new(alloc: Global) -> Result<Room, NoMemory>
        ensures { IfOk result (λ r. r ≡ []) }
    {
        let memory = vec![in alloc; 0u8; ROOM]?;
        Ok(Room { memory, len: 0 })
    }

    fn octets(&self) -> &[u8]
        ensures { result.now ≡ self.now }
    {
        &self.memory.as_slice()[..self.len]
    }

    /// Takes as many octets of the piece as there is room for, and says how many.
    fn take(&mut self, piece: &[u8]) -> usize
        ensures count { result ≡ min (length piece.now) (room_of self.old) }
        ensures held { self.new ≡ self.old ++ take result piece.now }
    {
        let count = piece.len().min(self.memory.len() - self.len);
        let end = self.len + count;
        self.memory[self.len..end].copy_from_slice(&piece[..count]);
        self.len = end;
        count
    }
}

/// Holds what was written, and fails only where no room is left.
#[derive(Drop)]
pub struct SureSink {
    room: Room,
    faults: u64,
}

impl Model for SureSink {
    ghost use Rattle.kit_base.specs.Memory.{Held};

    ghost Value = { Held };

    ghost view = { λ s. record { held = s.room; faults = s.faults } };
}

impl SureSink {
    /// What was written so far.
    pub fn held(&self) -> &[u8]
        ensures { result.now ≡ self.now.held }
    {
        self.room.octets()
    }
}

impl Sink for SureSink {
    ghost held = { λ s. Some s.held };

    ghost faults = { λ s. s.faults };

    fn write(&mut self, piece: &[u8]) -> Result<usize, Failed>
        ensures bound { WritesAtMost result piece.now }
        ensures some { IfOk result (λ n. 0 < length piece.now → 0 < n) }
        ensures bytes { WriteAppends (Some self.old.held) (Some self.new.held) result piece.now }
        ensures cause { HasCause self.old.faults self.new.faults result }
        ensures size { IfOk result (λ n. n ≡ min (length piece.now) (room_of self.old.held)) }
        ensures full { OnErr result (room_of self.old.held ≡ 0) }
    {
        let count = self.room.take(piece);
        if count == 0 && piece.len() > 0 {
            self.faults = self.faults.saturating_add(1);
            return Err(Failed);
        }
        Ok(count)
    }
}

/// Holds what was written, takes at most a given number of octets at a call, and fails at listed
/// calls and where no room is left.
#[derive(Drop)]
pub struct MemSink {
    room: Room,
    most: usize,
    plan: Plan,
}

impl Model for MemSink {
    ghost use Rattle.std.specs.Prelude.{◌≤◌};
    ghost use Rattle.kit_base.specs.Memory.{Taken};

    ghost Value = { Taken };

    ghost view = { λ s. record { held = s.room; most = s.most; plan = s.plan } };

    ghost invariant = { λ s. 1 ≤ s.most };
}

impl MemSink {
    /// A sink that takes at most `most` octets at a call, and fails at the calls whose decimal
    /// numbers, from 1, are in `fails`, and where no room is left.
    pub fn new(alloc: Global, fails: Words, most: usize) -> Result<MemSink, NoMemory>
        requires { 1 ≤ most }
        ensures { IfOk result (λ s. s ≡ record { held = []; most = most; plan = fresh fails }) }
    {
        let room = Room::new(alloc)?;
        Ok(MemSink {
            room,
            most,
            plan: Plan::new(fails),
        })
    }

    /// A sink that fails only where no room is left.
    pub fn sure(alloc: Global) -> Result<SureSink, NoMemory>
        ensures { IfOk result (λ s. s ≡ record { held = []; faults = 0 }) }
    {
        let room = Room::new(alloc)?;
        Ok(SureSink { room, faults: 0 })
    }

    /// What was written so far.
    pub fn held(&self) -> &[u8]
        ensures { result.now ≡ self.now.held }
    {
        self.room.octets()
    }

    fn fails_now(&mut self) -> bool
        ensures listed { result ≡ fails_next self.old.plan }
        ensures after { self.new ≡ record self.old { plan = called self.old.plan result } }
    {
        self.plan.fails_now()
    }

    fn take(&mut self, piece: &[u8]) -> usize
        ensures count { result ≡ min (min self.old.most (length piece.now)) (room_of self.old.held) }
        ensures held { self.new ≡ record self.old { held = self.old.held ++ take result piece.now } }
        ensures most { 1 ≤ self.old.most }
    {
        let count = piece.len().min(self.most);
        self.room.take(&piece[..count])
    }

    fn fault(&mut self)
        ensures { self.new ≡ record self.old { plan = faulted self.old.plan } }
    {
        self.plan.fault();
    }
}

impl Sink for MemSink {
    ghost held = { λ s. Some s.held };

    ghost faults = { λ s. s.plan.faults };

    fn write(&mut self, piece: &[u8]) -> Result<usize, Failed>
        // What was taken.
        ensures bound { WritesAtMost result piece.now }
        ensures some { IfOk result (λ n. 0 < length piece.now → 0 < n) }
        ensures bytes { WriteAppends (Some self.old.held) (Some self.new.held) result piece.now }
        // When it fails, and how much is taken at once.
        ensures cause { HasCause self.old.plan.faults self.new.plan.faults result }
        ensures size { IfOk result
            (λ n. n ≡ min (min self.old.most (length piece.now)) (room_of self.old.held)) }
        ensures after { self.new ≡ taken self.old piece.now result }
        ensures listed { fails_next self.old.plan ≡ true → IsTrue (is_err result) }
        ensures full { OnErr result (fails_next self.old.plan ≡ false → room_of self.old.held ≡ 0) }
    {
        if self.fails_now() {
            return Err(Failed);
        }
        let count = self.take(piece);
        if count == 0 && piece.len() > 0 {
            self.fault();
            return Err(Failed);
        }
        Ok(count)
    }
}
