// What a program asks of its files and of its sink, and how they answer.
ghost use Rattle.std.specs.Prelude.{◌≡◌, ◌≤◌, ℕ, Option, Some, IfSome, IfOk, OnOk, IsErrOf, vec_len};
ghost use Rattle.outer_files.specs.Outside.{Contents, WhereTold, Writes, WritesPrefix, IsLonger, Rose, Known, TookPiece, FailedPiece, LackedMemory};

use std::alloc::Global;
use thiserror::Error;

/// Why a file was not read.
#[derive(Clone, Copy, Debug, PartialEq, Eq, Error)]
pub enum ReadFault {
    /// The file is not held, or can't be read. The store's count of faults rose.
    #[error("the file can't be read")]
    Failed,
    /// The file is longer than the limit.
    #[error("the file is too long")]
    TooLong,
    /// There is no memory for its bytes.
    #[error("no memory")]
    NoMemory,
}

/// Why bytes were not written.
#[derive(Clone, Copy, Debug, PartialEq, Eq, Error)]
pub enum WriteFault {
    /// They can't be written. The count of faults rose, and some prefix of them may have been written.
    #[error("the bytes can't be written")]
    Failed,
    /// There is no memory for them. Nothing was written.
    #[error("no memory")]
    NoMemory,
}

/// Files by name. A store may not tell what it holds; what it tells of that no call changes.
pub trait FileStore {
    /// The bytes of each name, where the store tells them.
    ghost held: { Self → Option Contents };

    /// How often it has failed. A count at its last value, 2^64 - 1, counts as having risen.
    ghost faults: { Self → ℕ };

    /// All the bytes of a file of at most `limit` bytes. A file that is not held is a fault that is counted.
    fn read_all(&mut self, alloc: Global, name: &str, limit: u64) -> Result<Vec<u8>, ReadFault>
        ensures unchanged { held self.new ≡ held self.old }
        ensures bytes { IfOk result (λ bytes. IfSome (held self.old) (λ files. files name.now ≡ Some bytes.items)) }
        ensures within { IfOk result (λ bytes. vec_len bytes ≤ limit) }
        ensures too_long { IsErrOf result ReadFault.TooLong → IfSome (held self.old) (λ files. IsLonger limit (files name.now)) }

        ensures never_falls { faults self.old ≤ faults self.new }
        ensures failed { IsErrOf result ReadFault.Failed → Rose (faults self.old) (faults self.new) }
        ensures memory { IsErrOf result ReadFault.NoMemory → faults self.new ≡ faults self.old };

    /// Puts these bytes in the place of the file's, which is made if it is not held.
    fn write_all(&mut self, name: &str, bytes: &[u8]) -> Result<(), WriteFault>
        ensures written { OnOk result (WhereTold (held self.old) (held self.new) (Writes name.now bytes.now)) }
        ensures cut_short { IsErrOf result WriteFault.Failed → WhereTold (held self.old) (held self.new) (WritesPrefix name.now bytes.now) }
        ensures unchanged { IsErrOf result WriteFault.NoMemory → held self.new ≡ held self.old }

        ensures never_falls { faults self.old ≤ faults self.new }
        ensures failed { IsErrOf result WriteFault.Failed → Rose (faults self.old) (faults self.new) }
        ensures memory { IsErrOf result WriteFault.NoMemory → faults self.new ≡ faults self.old };
}

/// Takes bytes, one piece after the other. A sink may not tell what it took; what it tells of that no call changes.
pub trait Sink {
    /// What is known of it: the bytes taken and the pieces put, where it tells them, and how many puts and faults there were.
    ghost known: { Self → Known };

    /// Takes a piece, behind all that was taken before. A put is counted, whatever comes of it.
    fn put(&mut self, bytes: &[u8]) -> Result<(), WriteFault>
        ensures taken { OnOk result (TookPiece bytes.now (known self.old) (known self.new)) }
        ensures failed { IsErrOf result WriteFault.Failed → FailedPiece bytes.now (known self.old) (known self.new) }
        ensures memory { IsErrOf result WriteFault.NoMemory → LackedMemory (known self.old) (known self.new) };
}
