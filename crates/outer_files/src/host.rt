// The system's files, and its standard output. What they hold and took isn't told; their faults are counted.
ghost use Rattle.std.specs.Prelude.{◌≡◌, ◌≤◌, ◌<◌, ◌+◌, ℕ, None, Some, IfSome, IfOk, IsErrOf, OnOk, length, vec_len};
ghost use Rattle.std.specs.Io.KnownBytes.{Consumes, IsAtEnd};
ghost use Rattle.outer_files.specs.Outside.{Contents, WhereTold, Writes, WritesPrefix, IsLonger, Rose, one_more, TookPiece, FailedPiece, LackedMemory};
ghost use Rattle.outer_files.specs.Host.{TakesAtMost, known_of_counts};

use crate::{FileStore, ReadFault, Sink, WriteFault};
use std::alloc::Global;
use std::fs;
use std::io::Read;
use std::marker::Model;
use std::rt::Files;

// The most bytes that one call of the system is asked for.
const READ_SIZE: usize = 8192;

/// The system's files. What they hold isn't told. Each error of the system is a fault that is counted, up to the count's
/// last value. Contracts see it as that count.
#[derive(Drop)]
pub struct HostFiles<'a, R: Files> {
    rt: &'a R,
    faults: u64,
}

impl<'a, R: Files> Model for HostFiles<'a, R> {
    ghost Value = { ℕ };

    ghost view = { λ s. s.faults };
}

impl<'a, R: Files> HostFiles<'a, R> {
    /// The files of this runtime, with no fault so far.
    pub fn new(rt: &'a R) -> HostFiles<'a, R>
        ensures { result ≡ 0 }
    {
        HostFiles { rt, faults: 0 }
    }
}

impl<'a, R: Files> FileStore for HostFiles<'a, R> {
    ghost held = { λ _. None };

    ghost faults = { λ s. s };

    fn read_all(&mut self, alloc: Global, name: &str, limit: u64) -> Result<Vec<u8>, ReadFault>
        ensures bytes { IfOk result (λ bytes. IfSome {T = Contents} None (λ files. files name.now ≡ Some bytes.items)) }
        ensures within { IfOk result (λ bytes. vec_len bytes ≤ limit) }
        ensures too_long { IsErrOf result ReadFault.TooLong → IfSome {T = Contents} None (λ files. IsLonger limit (files name.now)) }
        ensures never_falls { self.old ≤ self.new }
        ensures failed { IsErrOf result ReadFault.Failed → Rose self.old self.new }
        ensures memory { IsErrOf result ReadFault.NoMemory → self.new ≡ self.old }

        // The count rises by one with each failure, and there alone.
        ensures rises { IsErrOf result ReadFault.Failed → self.new ≡ one_more self.old }
        ensures stands { ¬ IsErrOf result ReadFault.Failed → self.new ≡ self.old }
    {
        let read = match fs::open(self.rt, name) {
            Ok(mut file) => read_up_to(alloc, &mut file, limit),
            Err(_) => Err(ReadFault::Failed),
        };
        if let Err(ReadFault::Failed) = &read {
            self.faults = self.faults.saturating_add(1);
        }
        read
    }

    fn write_all(&mut self, name: &str, bytes: &[u8]) -> Result<(), WriteFault>
        ensures written { OnOk result (WhereTold {A = Contents} None None (Writes name.now bytes.now)) }
        ensures never_falls { self.old ≤ self.new }
        ensures failed { IsErrOf result WriteFault.Failed → Rose self.old self.new }
        ensures memory { IsErrOf result WriteFault.NoMemory → self.new ≡ self.old }

        // The count rises by one with each failure, and there alone. There is no other answer.
        ensures rises { IsErrOf result WriteFault.Failed → self.new ≡ one_more self.old }
        ensures stands { OnOk result (self.new ≡ self.old) }
        ensures no_memory { ¬ IsErrOf result WriteFault.NoMemory }
    {
        if fs::write(self.rt, name, bytes).is_err() {
            self.faults = self.faults.saturating_add(1);
            return Err(WriteFault::Failed);
        }
        Ok(())
    }
}

/// The standard output. What it took isn't told. Each error of the system is a fault that is counted, and each put is, up to
/// the counts' last value. Contracts see it as these two counts.
#[derive(Drop)]
pub struct HostSink<'a, R: Print> {
    rt: &'a R,
    puts: u64,
    faults: u64,
}

impl<'a, R: Print> Model for HostSink<'a, R> {
    ghost use Rattle.outer_files.specs.Host.{SinkCounts};

    ghost Value = { SinkCounts };

    ghost view = { λ s. record { puts = s.puts; faults = s.faults } };
}

impl<'a, R: Print> HostSink<'a, R> {
    /// The output of this runtime, with no put and no fault so far.
    pub fn new(rt: &'a R) -> HostSink<'a, R>
        ensures { result ≡ record { puts = 0; faults = 0 } }
    {
        HostSink {
            rt,
            puts: 0,
            faults: 0,
        }
    }
}

impl<'a, R: Print> Sink for HostSink<'a, R> {
    ghost known = { known_of_counts };

    fn put(&mut self, bytes: &[u8]) -> Result<(), WriteFault>
        ensures taken { OnOk result (TookPiece bytes.now (known_of_counts self.old) (known_of_counts self.new)) }
        ensures failed { IsErrOf result WriteFault.Failed → FailedPiece bytes.now (known_of_counts self.old) (known_of_counts self.new) }
        ensures memory { IsErrOf result WriteFault.NoMemory → LackedMemory (known_of_counts self.old) (known_of_counts self.new) }

        // The count of faults rises by one with each failure, and there alone. There is no other answer.
        ensures rises { IsErrOf result WriteFault.Failed → self.new.faults ≡ one_more self.old.faults }
        ensures stands { OnOk result (self.new.faults ≡ self.old.faults) }
        ensures no_memory { ¬ IsErrOf result WriteFault.NoMemory }
    {
        self.puts = self.puts.saturating_add(1);
        if self.rt.write_all(bytes).is_err() {
            self.faults = self.faults.saturating_add(1);
            return Err(WriteFault::Failed);
        }
        Ok(())
    }
}

// Reads to the end, or to the byte after the limit.
fn read_up_to<S: Read>(alloc: Global, source: &mut S, limit: u64) -> Result<Vec<u8>, ReadFault>
    ensures within { IfOk result (λ bytes. vec_len bytes ≤ limit) }
    ensures all { IfOk result (λ bytes. Consumes (S.remaining source.old) (S.remaining source.new) bytes.items) }
    ensures end { IfOk result (λ _. IsAtEnd (S.remaining source.new)) }
    ensures too_long { IsErrOf result ReadFault.TooLong → IfSome (S.remaining source.old) (λ bytes. limit < length bytes) }

    // No more than a byte past the limit is taken, whatever the answer.
    ensures taken { TakesAtMost (limit + 1) (S.remaining source.old) (S.remaining source.new) }
{
    let mut bytes = Vec::new(alloc);
    let mut buffer = [0u8; READ_SIZE];
    loop {
        let room = (limit - bytes.len() as u64).min(READ_SIZE as u64 - 1) as usize + 1;
        match source.read(&mut buffer[..room]) {
            Ok(0) => return Ok(bytes),
            Ok(count) => {
                if count as u64 > limit - bytes.len() as u64 {
                    return Err(ReadFault::TooLong);
                }
                if bytes.extend_from_slice(&buffer[..count]).is_err() {
                    return Err(ReadFault::NoMemory);
                }
            }
            Err(_) => return Err(ReadFault::Failed),
        }
    }
}
