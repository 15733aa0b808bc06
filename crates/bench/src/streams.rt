//! `streams HOW SEED COUNT TIMES` generates the modules of COUNT functions from the seed, and then writes the streams of each
//! module, its declarations and its bodies, TIMES times (`encode`), or writes them once and reads them TIMES times (`decode`).
//! It says how many bytes one writing has, and how many of its readings failed.
use crate::words::Words;
use anyhow::Result;
use gimple_ir::{Function, List, Module, NoMemory};
use module_stream::{BodyBounds, decode_body, decode_decls, encode_body, encode_decls};
use std::alloc::Global;

/// The streams of a module: its declarations, and each body with what it may name.
#[derive(Drop)]
struct Streams {
    declarations: Vec<u8>,
    bodies: Vec<(Vec<u8>, BodyBounds)>,
}

pub fn measure(rt: &HostRuntime, words: &mut Words) -> Result<()> {
    let how = words.text()?;
    let modules = words.modules(rt.alloc())?;
    let times = words.count()?;
    let (mut bytes, mut failed) = (0u64, 0u64);
    for module in modules.as_slice() {
        let (long, bad) = gone_over(rt.alloc(), how.as_str(), module, times)?;
        bytes = bytes.saturating_add(long);
        failed = failed.saturating_add(bad);
    }
    println!(rt; "{bytes} bytes, {failed} failed")?;
    Ok(())
}

/// Writes or reads the streams of a module so many times; gives how many bytes they have, and how many readings failed.
fn gone_over(
    alloc: Global,
    how: &str,
    source: &Module,
    times: u32,
) -> Result<(u64, u64), NoMemory> {
    let streams = written(alloc, source)?;
    let bytes = size_of_streams(&streams);
    if how == "decode" {
        return Ok((bytes, readings_failed(alloc, &streams, times)));
    }
    write_again(alloc, source, times)?;
    Ok((bytes, 0))
}

/// Small counts of a module that was generated.
fn count_of(len: usize) -> u32 {
    u32::try_from(len).unwrap_or(u32::MAX)
}

fn bounds_of(alloc: Global, source: &Module, function: &Function) -> Result<BodyBounds, NoMemory> {
    let mut types = List::new(alloc);
    for variable in function.variables.as_slice() {
        for ty in variable.types.as_slice() {
            types.push(*ty)?;
        }
    }
    Ok(BodyBounds {
        types,
        variables: count_of(function.variables.len()),
        labels: count_of(function.labels.len()),
        arrays: count_of(source.arrays.len()),
        functions: count_of(source.functions.len()),
    })
}

fn written(alloc: Global, source: &Module) -> Result<Streams, NoMemory> {
    let declarations = encode_decls(alloc, source)?;
    let mut bodies = Vec::new(alloc);
    for function in source.functions.as_slice() {
        let body = encode_body(alloc, function)?;
        let bounds = bounds_of(alloc, source, function)?;
        bodies.push((body, bounds))?;
    }
    Ok(Streams {
        declarations,
        bodies,
    })
}

fn size_of_streams(streams: &Streams) -> u64 {
    let mut bytes = streams.declarations.len() as u64;
    for (body, _) in streams.bodies.as_slice() {
        bytes = bytes.saturating_add(body.len() as u64);
    }
    bytes
}

fn write_again(alloc: Global, source: &Module, times: u32) -> Result<(), NoMemory> {
    for _ in 0..times {
        let _declarations = encode_decls(alloc, source)?;
        for function in source.functions.as_slice() {
            let _body = encode_body(alloc, function)?;
        }
    }
    Ok(())
}

/// How many of the streams failed to be read.
fn readings_failed(alloc: Global, streams: &Streams, times: u32) -> u64 {
    let mut failed = 0u64;
    for _ in 0..times {
        if decode_decls(alloc, &streams.declarations).is_err() {
            failed = failed.saturating_add(1);
        }
        for (body, bounds) in streams.bodies.as_slice() {
            if decode_body(alloc, body, bounds).is_err() {
                failed = failed.saturating_add(1);
            }
        }
    }
    failed
}
