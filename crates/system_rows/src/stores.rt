//! Calls of a store, one a line: `read NAME LIMIT`, `write NAME TEXT`, and `often NAME COUNT TEXT`, which writes the text so often.
//! Before them a store in memory has `file NAME TEXT`, a file that it begins with, and `fail N..`, the numbers of the calls that fail.
use anyhow::{Result, bail};
use outer_files::{FileStore, HostFiles, MemoryFiles};
use std::alloc::Global;

/// The first word of a line, and what stands behind it.
fn parted(line: &str) -> (&str, &str) {
    line.split_once(' ').unwrap_or((line, ""))
}

/// What came of a call, as text: the bytes that were read, how many where they are many, or the fault.
fn called<S: FileStore>(alloc: Global, store: &mut S, line: &str) -> Result<String> {
    let (word, rest) = parted(line);
    let (name, more) = parted(rest);
    match word {
        "read" => read(alloc, store, name, more.parse::<u64>()?),
        "write" => written(alloc, store, name, more.as_bytes()),
        "often" => {
            let (count, text) = parted(more);
            let bytes = repeated(alloc, count.parse::<u64>()?, text)?;
            written(alloc, store, name, &bytes)
        }
        _ => bail!("no call: {line}"),
    }
}

fn repeated(alloc: Global, count: u64, text: &str) -> Result<Vec<u8>> {
    let mut bytes = Vec::new(alloc);
    for _ in 0..count {
        bytes.extend_from_slice(text.as_bytes())?;
    }
    Ok(bytes)
}

fn read<S: FileStore>(alloc: Global, store: &mut S, name: &str, limit: u64) -> Result<String> {
    match store.read_all(alloc, name, limit) {
        Ok(bytes) => told(alloc, &bytes),
        Err(fault) => Ok(format!(in alloc; "{fault:?}")?),
    }
}

fn written<S: FileStore>(alloc: Global, store: &mut S, name: &str, bytes: &[u8]) -> Result<String> {
    match store.write_all(name, bytes) {
        Ok(()) => Ok(String::from_str(alloc, "written")?),
        Err(fault) => Ok(format!(in alloc; "{fault:?}")?),
    }
}

/// Bytes as text, or how many there are where they are many.
fn told(alloc: Global, bytes: &[u8]) -> Result<String> {
    if bytes.len() > 40 {
        return Ok(format!(in alloc; "{} bytes", bytes.len())?);
    }
    Ok(format!(in alloc; "\"{}\"", str::from_utf8(bytes)?)?)
}

/// Plays calls over a store in memory, and prints what came of each and what the file holds then.
pub fn play_memory(rt: &HostRuntime, lines: &str) -> Result<()> {
    let alloc = rt.alloc();
    let mut store = store_of(alloc, lines)?;
    for line in lines.lines() {
        let (word, rest) = parted(line);
        if word != "file" && word != "fail" {
            let came = called(alloc, &mut store, line)?;
            let (name, _) = parted(rest);
            let holds = match store.held(name) {
                Some(bytes) => told(alloc, bytes)?,
                None => String::from_str(alloc, "nothing")?,
            };
            println!(rt; "memory: {line}: {came}, holds {holds}")?;
        }
    }
    Ok(())
}

/// The store in memory of the lines `file` and `fail`.
fn store_of(alloc: Global, lines: &str) -> Result<MemoryFiles> {
    let mut files = Vec::new(alloc);
    let mut fail = Vec::new(alloc);
    for line in lines.lines() {
        let (word, rest) = parted(line);
        match word {
            "file" => {
                let (name, text) = parted(rest);
                let bytes = Vec::from_slice(alloc, text.as_bytes())?;
                files.push((String::from_str(alloc, name)?, bytes))?;
            }
            "fail" => {
                for number in rest.split_whitespace() {
                    fail.push(number.parse::<u64>()?)?;
                }
            }
            _ => {}
        }
    }
    Ok(MemoryFiles::new(files, fail))
}

/// Plays calls over the system's files, and prints what came of each.
pub fn play_host(rt: &HostRuntime, lines: &str) -> Result<()> {
    let mut store = HostFiles::new(rt);
    for line in lines.lines() {
        let came = called(rt.alloc(), &mut store, line)?;
        println!(rt; "host: {line}: {came}")?;
    }
    Ok(())
}
