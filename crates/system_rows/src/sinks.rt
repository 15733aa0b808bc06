//! Puts of a sink in memory, of the system's output, and of an output that is closed.
use anyhow::Result;
use outer_files::{HostSink, MemorySink, Sink, WriteFault};
use std::fmt::Display;
use std::io;
use std::io::ErrorKind;

/// An output that is closed.
struct Closed;

impl Print for Closed {
    fn print<D: Display + Drop>(&self, _value: D) -> io::Result<()> {
        Err(io::Error::from(ErrorKind::BrokenPipe))
    }

    fn println<D: Display + Drop>(&self, _value: D) -> io::Result<()> {
        Err(io::Error::from(ErrorKind::BrokenPipe))
    }

    fn write_all(&self, _bytes: &[u8]) -> io::Result<()> {
        Err(io::Error::from(ErrorKind::BrokenPipe))
    }
}

/// The puts 1 and 2 of the sink in memory fail.
pub fn play(rt: &HostRuntime) -> Result<()> {
    let mut sink = MemorySink::new(vec![in rt.alloc(); 1, 2]?);
    for piece in ["ab", "cd", "", "", "ef"] {
        let came = sink.put(piece.as_bytes());
        let taken = str::from_utf8(sink.taken())?;
        println!(rt; "sink: put {piece}: {}, took {taken}", came_of(came))?;
    }
    let came = HostSink::new(&Closed).put(b"line\n");
    println!(rt; "closed output: {}", came_of(came))?;
    let mut out = HostSink::new(rt);
    let came = out.put(b"a line put\n");
    println!(rt; "output: {}", came_of(came))?;
    println!(rt; "output, no bytes: {}", came_of(out.put(b"")))?;
    Ok(())
}

fn came_of(came: Result<(), WriteFault>) -> &'static str {
    match came {
        Ok(()) => "taken",
        Err(WriteFault::Failed) => "Failed",
        Err(WriteFault::NoMemory) => "NoMemory",
    }
}
