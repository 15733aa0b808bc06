//! Rows of the streams of a module: bodies within the bounds of one example, and declarations.
use crate::parts::{copied, spelled};
use anyhow::{Result, bail};
use cursors::put_uleb;
use gimple_ir::{Function, Linkage, List, Name, ResultType, ScalarType, Statement};
use module_stream::{
    BodyBounds, StreamError, decode_body, decode_decls, encode_body, encode_decls,
};
use std::alloc::Global;

/// Three components, of `int`, `long unsigned int` and `unsigned int`; two variables, two labels, an array and a function.
fn bounds(alloc: Global) -> Result<BodyBounds> {
    let types = vec![in alloc;
        ScalarType::Int,
        ScalarType::LongUnsignedInt,
        ScalarType::UnsignedInt,
    ]?;
    Ok(BodyBounds {
        types: List::from_vec(types),
        variables: 2,
        labels: 2,
        arrays: 1,
        functions: 1,
    })
}

/// A function `int main ()` with these statements.
fn main_function(alloc: Global, body: List<Statement>) -> Result<Function> {
    let Some(name) = Name::read(alloc, b"main")? else {
        bail!("no name");
    };
    Ok(Function {
        name,
        linkage: Linkage::Strong,
        result: ResultType::Scalar(ScalarType::Int),
        parameters: 0,
        variables: List::new(alloc),
        labels: List::new(alloc),
        body,
    })
}

/// The answer of a row on a stream.
pub fn stream_row(alloc: Global, kind: &str, input: &str) -> Result<String> {
    match kind {
        "body" => body(alloc, &spelled(alloc, input)?),
        "declarations" => declarations(alloc, &spelled(alloc, input)?),
        _ => structure(alloc, input),
    }
}

/// The fault of a stream.
fn fault(alloc: Global, error: StreamError) -> Result<String> {
    match error {
        StreamError::BadStream { offset } => Ok(format!(in alloc; "BadStream {offset}")?),
        StreamError::NoMemory => bail!("out of memory"),
    }
}

/// The statements of a body, which are encoded again.
fn body(alloc: Global, bytes: &[u8]) -> Result<String> {
    let statements = match decode_body(alloc, bytes, &bounds(alloc)?) {
        Ok(statements) => statements,
        Err(error) => return fault(alloc, error),
    };
    let function = main_function(alloc, statements)?;
    let again = encode_body(alloc, &function)?;
    if again.as_slice() != bytes {
        return copied(alloc, "encoded otherwise");
    }
    let statements = function.body.as_slice();
    Ok(format!(in alloc; "{statements:?}")?)
}

/// The module of declarations, which are encoded again.
fn declarations(alloc: Global, bytes: &[u8]) -> Result<String> {
    let source = match decode_decls(alloc, bytes) {
        Ok(source) => source,
        Err(error) => return fault(alloc, error),
    };
    let again = encode_decls(alloc, &source)?;
    if again.as_slice() != bytes {
        return copied(alloc, "encoded otherwise");
    }
    Ok(format!(in alloc; "{source:?}")?)
}

/// The declarations of one struct, whose name has so many letters, with no fields: `read`, or their fault.
fn structure(alloc: Global, letters: &str) -> Result<String> {
    let letters = letters.parse::<u32>()?;
    let mut bytes = vec![in alloc; 1u8]?;
    put_uleb(&mut bytes, u64::from(letters))?;
    for _ in 0..letters {
        bytes.push(b'a')?;
    }
    bytes.extend_from_slice(b"\x00\x00\x00")?;
    match decode_decls(alloc, &bytes) {
        Ok(_) => copied(alloc, "read"),
        Err(error) => fault(alloc, error),
    }
}
