// A sink in memory, which fails at the puts that it is told to fail at.
ghost use Rattle.std.specs.Prelude.{◌↔◌, ◌≡◌, if◌then◌else◌, [], OnOk, IsErrOf, IsTrue};
ghost use Rattle.outer_files.specs.Outside.{TookPiece, FailedPiece, LackedMemory, one_more};
ghost use Rattle.outer_files.specs.Memory.{fails_at, known_of};

use crate::failing::fails;
use crate::{Sink, WriteFault};
use std::marker::Model;

/// A sink in memory. It tells what it took.
#[derive(Drop)]
pub struct MemorySink {
    taken: Vec<u8>,
    fail: Vec<u64>,
    calls: u64,
    faults: u64,
}

impl Model for MemorySink {
    ghost use Rattle.outer_files.specs.Memory.{SinkState};

    ghost Value = { SinkState };

    ghost view = { λ s. record { taken = s.taken.items; fail = s.fail.items; calls = s.calls; faults = s.faults } };
}

impl MemorySink {
    /// A sink that has taken nothing. The puts with the numbers in `fail`, counted from 0, will fail. What is taken is
    /// kept with the allocator of `fail`.
    pub fn new(fail: Vec<u64>) -> MemorySink
        ensures { result ≡ record { taken = []; fail = fail.items; calls = 0; faults = 0 } }
    {
        MemorySink {
            taken: Vec::new(*fail.allocator()),
            fail,
            calls: 0,
            faults: 0,
        }
    }

    /// The bytes taken so far.
    pub fn taken(&self) -> &[u8]
        ensures { result.now ≡ self.now.taken }
    {
        &self.taken
    }
}

impl Sink for MemorySink {
    ghost known = { known_of };

    fn put(&mut self, bytes: &[u8]) -> Result<(), WriteFault>
        ensures taken { OnOk result (TookPiece bytes.now (known_of self.old) (known_of self.new)) }
        ensures failed { IsErrOf result WriteFault.Failed → FailedPiece bytes.now (known_of self.old) (known_of self.new) }
        ensures memory { IsErrOf result WriteFault.NoMemory → LackedMemory (known_of self.old) (known_of self.new) }

        // It fails exactly at the puts that it was told to fail at, takes nothing then, and its count rises there alone.
        ensures fails { IsErrOf result WriteFault.Failed ↔ IsTrue (fails_at self.old.fail self.old.calls) }
        ensures nothing { IsErrOf result WriteFault.Failed → self.new.taken ≡ self.old.taken }
        ensures rises { self.new.faults ≡ (if fails_at self.old.fail self.old.calls then one_more self.old.faults else self.old.faults) }
        ensures fail { self.new.fail ≡ self.old.fail }
    {
        let call = self.calls;
        self.calls = self.calls.saturating_add(1);
        if fails(&self.fail, call) {
            self.faults = self.faults.saturating_add(1);
            return Err(WriteFault::Failed);
        }
        if self.taken.extend_from_slice(bytes).is_err() {
            return Err(WriteFault::NoMemory);
        }
        Ok(())
    }
}
