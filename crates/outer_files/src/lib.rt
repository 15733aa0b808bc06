//! The outside of a program: the files that it reads and writes, and the sink that it prints to. `FileStore` and `Sink`
//! say what each holds, what a call does to it, and when a call fails; `specs/Outside.antt` has the words for that.
//! There is a form in memory, which fails at the calls that it is told to fail at, and one over the system.
#![tactic(auto)]

mod failing;
mod host;
mod memory_files;
mod memory_sink;
mod outside;

pub use host::{HostFiles, HostSink};
pub use memory_files::MemoryFiles;
pub use memory_sink::MemorySink;
pub use outside::{FileStore, ReadFault, Sink, WriteFault};
