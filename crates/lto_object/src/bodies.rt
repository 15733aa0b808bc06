//! The bodies of a module's functions as one stream: of each function that has one, its length in bytes and the body.
ghost use Rattle.std.specs.Prelude.{◌≡◌, ◌++◌, ◌+◌, ◌<◌, ◌^◌, length, List, [], ◌∷◌, IfOk, OnOk, Ok};
ghost use Rattle.gimple_ir.specs.declared.types.Statement.{Statement};
ghost use Rattle.module_stream.specs.Readers.{Gives, GivesAll, GivesSeen, GivesAllSeen, IsWithin, in_turn, shifted};
ghost use Rattle.module_stream.specs.Bodies.{body_of};
ghost use Rattle.module_stream.specs.BodyReading.{read_body};
ghost use Rattle.lto_object.specs.Bounds.{HasBounds};
ghost use Rattle.lto_object.specs.BodyStream.{bodies_of, stored_body_of, bodies_bytes, FitBodies, stored_body_at, bodies_within, read_bodies};

use crate::bounds::{bounds_in, is_defined};
use cursors::ByteCursor;
use gimple_ir::{Function, List, Module, NoMemory, Statement};
use module_stream::{BodyBounds, StreamError, decode_body, encode_body, put_text, text};
use std::alloc::Global;
use std::marker::Model;

/// A body that was read, with the bytes that spell it, which are lent. Contracts see its statements.
#[derive(Drop)]
pub struct StoredBody<'a> {
    bytes: &'a [u8],
    statements: List<Statement>,
}

impl<'a> Model for StoredBody<'a> {
    ghost use Rattle.std.specs.Prelude.{◌≡◌, List as Seq};
    ghost use Rattle.gimple_ir.specs.declared.types.Statement.{Statement};
    ghost use Rattle.module_stream.specs.Bodies.{body_of};

    ghost Value = { Seq Statement };

    ghost view = { λ body. body.statements };

    ghost invariant = { λ body. body.bytes.now ≡ body_of body.statements };
}

impl<'a> StoredBody<'a> {
    /// The bytes that spell it.
    pub fn bytes(&self) -> &'a [u8]
        ensures { result.now ≡ body_of self.now }
    {
        self.bytes
    }

    /// The bytes that spell it, and its statements.
    pub fn into_parts(self) -> (&'a [u8], List<Statement>)
        ensures bytes { result.0.now ≡ body_of self.entry }
        ensures statements { result.1 ≡ self.entry }
    {
        (self.bytes, self.statements)
    }
}

// ---- writing

fn put_body(out: &mut Vec<u8>, alloc: Global, function: &Function) -> Result<(), NoMemory>
    ensures { OnOk result (out.new.items ≡ out.old.items ++ bodies_bytes (bodies_of (function.now ∷ []))) }
{
    if is_defined(function) {
        let body = encode_body(alloc, function)?;
        put_text(out, body.as_slice())?;
    }
    Ok(())
}

/// The one spelling of the bodies of these functions; those that are declared alone are left out.
pub fn encode_bodies(alloc: Global, functions: &[Function]) -> Result<Vec<u8>, NoMemory>
    ensures { IfOk result (λ bytes. bytes.items ≡ bodies_bytes (bodies_of functions.now)) }
{
    let mut out = Vec::new(alloc);
    for function in functions {
        put_body(&mut out, alloc, function)?;
    }
    Ok(out)
}

// ---- reading

// The statements of a body whose first byte stands at the offset `start` of the stream.
fn statements(
    alloc: Global,
    bytes: &[u8],
    bounds: &BodyBounds,
    start: u64,
) -> Result<List<Statement>, StreamError>
    requires { start + length bytes.now < 2 ^ 64 }
    ensures exact { GivesAll result (shifted start (read_body bounds.now bytes.now)) }
    ensures spelled { IfOk result (λ statements. bytes.now ≡ body_of statements) }
{
    match decode_body(alloc, bytes, bounds) {
        Ok(statements) => Ok(statements),
        Err(StreamError::NoMemory) => Err(StreamError::NoMemory),
        Err(StreamError::BadStream { offset }) => Err(StreamError::BadStream {
            offset: start + offset,
        }),
    }
}

#[tactic(auto, unfolding(crate::specs::BodyStream::stored_body_at))]
fn stored_body<'a>(
    alloc: Global,
    cursor: &mut ByteCursor<'a>,
    bounds: &BodyBounds,
) -> Result<StoredBody<'a>, StreamError>
    ensures { Gives result cursor.new (stored_body_at bounds.now cursor.old) }
{
    let bytes = text(cursor)?;
    let start = cursor.offset().saturating_sub(bytes.len() as u64);
    let statements = statements(alloc, bytes, bounds, start)?;
    Ok(StoredBody { bytes, statements })
}

fn stored_bodies<'a>(
    alloc: Global,
    cursor: &mut ByteCursor<'a>,
    bounds: &[BodyBounds],
) -> Result<Vec<StoredBody<'a>>, StreamError>
    ensures { GivesSeen (λ bodies. bodies.items) result cursor.new (in_turn stored_body_at bounds.now cursor.old) }
{
    let mut bodies = Vec::new(alloc);
    for own in bounds {
        let body = stored_body(alloc, cursor, own)?;
        bodies.push(body)?;
    }
    Ok(bodies)
}

#[tactic(auto, unfolding(crate::specs::BodyStream::bodies_within))]
fn all_bodies<'a>(
    alloc: Global,
    bytes: &'a [u8],
    bounds: &[BodyBounds],
) -> Result<Vec<StoredBody<'a>>, StreamError>
    ensures { GivesAllSeen (λ bodies. bodies.items) result (bodies_within bounds.now bytes.now) }
{
    let mut cursor = ByteCursor::new(bytes);
    let bodies = stored_bodies(alloc, &mut cursor, bounds)?;
    if !cursor.at_end() {
        return Err(StreamError::BadStream {
            offset: cursor.offset(),
        });
    }
    Ok(bodies)
}

fn declared_bodies<'a>(
    alloc: Global,
    bytes: &'a [u8],
    declared: &Module,
) -> Result<Vec<StoredBody<'a>>, StreamError>
    requires { HasBounds declared.now }
    ensures { GivesAllSeen (λ bodies. bodies.items) result (read_bodies declared.now bytes.now) }
{
    let bounds = bounds_in(alloc, declared)?;
    all_bodies(alloc, bytes, bounds.as_slice())
}

/// The bodies that the bytes spell, all of the bytes: one for each function of the declared module that has one, in order,
/// and with numbers that the module has. Each lends its bytes from these.
pub fn decode_bodies<'a>(
    alloc: Global,
    bytes: &'a [u8],
    declared: &Module,
) -> Result<Vec<StoredBody<'a>>, StreamError>
    requires { HasBounds declared.now }

    // What is read is spelled so, and its numbers are in range.
    ensures found { IfOk result (λ bodies. FitBodies declared.now bodies.items × (bytes.now ≡ bodies_bytes bodies.items)) }

    // What is spelled so is read, unless memory runs out.
    ensures only { (bodies : List (List Statement)) → FitBodies declared.now bodies → bytes.now ≡ bodies_bytes bodies → GivesAllSeen (λ found. found.items) result (Ok bodies) }

    // Which fault it is: the first from the left.
    ensures exact { GivesAllSeen (λ bodies. bodies.items) result (read_bodies declared.now bytes.now) }
    ensures within { IsWithin (length bytes.now) result }
{
    declared_bodies(alloc, bytes, declared)
}
