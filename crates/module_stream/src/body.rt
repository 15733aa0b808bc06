//! A function's body as bytes.
ghost use Rattle.std.specs.Prelude.{◌≡◌, ◌++◌, ℕ, List, length, IfOk, Ok};
ghost use Rattle.gimple_ir.specs.declared.types.Statement.{Statement};
ghost use Rattle.module_stream.specs.Readers.{GivesAll, IsWithin};
ghost use Rattle.module_stream.specs.Bodies.{body_of, FitsBody};
ghost use Rattle.module_stream.specs.BodyReading.{read_body};

use crate::bounds::BodyBounds;
use crate::decode::counted;
use crate::encode::put_counted;
use crate::fault::StreamError;
use crate::statements::Statements;
use cursors::ByteCursor;
use gimple_ir::{Function, List, NoMemory, Statement};
use std::alloc::Global;

/// The one spelling of a function's body: the count of its statements, and each of them.
pub fn encode_body(alloc: Global, function: &Function) -> Result<Vec<u8>, NoMemory>
    ensures { IfOk result (λ bytes. bytes.items ≡ body_of function.now.body) }
{
    let mut out = Vec::new(alloc);
    put_counted(&mut out, function.body.as_slice())?;
    Ok(out)
}

#[tactic(auto, unfolding(crate::specs::BodyReading::read_body))]
fn body(alloc: Global, bytes: &[u8], bounds: &BodyBounds) -> Result<List<Statement>, StreamError>
    ensures { GivesAll result (read_body bounds.now bytes.now) }
{
    let mut cursor = ByteCursor::new(bytes);
    let statements = counted(alloc, &mut cursor, &Statements { bounds })?;
    if !cursor.at_end() {
        return Err(StreamError::BadStream {
            offset: cursor.offset(),
        });
    }
    Ok(statements)
}

/// The statements that the bytes spell, all of the bytes. The numbers in them name what the bounds say is there; a case's
/// residue is read by the type of the operand that its switch is on.
pub fn decode_body(
    alloc: Global,
    bytes: &[u8],
    bounds: &BodyBounds,
) -> Result<List<Statement>, StreamError>
    // What is read is spelled so, and its numbers are in range.
    ensures found { IfOk result (λ statements. FitsBody bounds.now statements × (bytes.now ≡ body_of statements)) }

    // What is spelled so is read, unless memory runs out.
    ensures only { (statements : List Statement) → FitsBody bounds.now statements → bytes.now ≡ body_of statements → GivesAll result (Ok statements) }

    // Which fault it is: the first from the left.
    ensures exact { GivesAll result (read_body bounds.now bytes.now) }
    ensures within { IsWithin (length bytes.now) result }
{
    bounds.are_counts();
    body(alloc, bytes, bounds)
}

/// No spelling of a body begins another within the same bounds.
pub fn no_body_begins_another(bounds: &BodyBounds)
    ensures { (ss tt : List Statement) (x y : List ℕ) → FitsBody bounds.now ss → FitsBody bounds.now tt → body_of ss ++ x ≡ body_of tt ++ y → (ss ≡ tt) × (x ≡ y) }
{
    bounds.are_counts();
}
