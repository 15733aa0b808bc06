//! The summaries of a module's functions as one stream: one for each function that has a body, in order.
ghost use Rattle.std.specs.Prelude.{◌≡◌, ◌++◌, length, List, IfOk, OnOk, Ok};
ghost use Rattle.gimple_ir.specs.declared.summary.Summary.{Summary};
ghost use Rattle.module_stream.specs.Readers.{Gives, GivesAll, IsWithin, in_turn};
ghost use Rattle.lto_object.specs.Bounds.{HasBounds};
ghost use Rattle.lto_object.specs.SummaryStream.{summaries_bytes, FitSummaries, summary_at, summaries_within, read_summaries};

use crate::bounds::bounds_in;
use crate::summary_fields::{ArrayNumbers, Edges, Params, put_summary};
use cursors::ByteCursor;
use gimple_ir::{List, Module, NoMemory, Summary};
use module_stream::{BodyBounds, StreamError, counted, number_below};
use std::alloc::Global;

/// The one spelling of these summaries, with no count in front.
pub fn encode_summaries(alloc: Global, summaries: &[Summary]) -> Result<Vec<u8>, NoMemory>
    ensures { IfOk result (λ bytes. bytes.items ≡ summaries_bytes summaries.now) }
{
    let mut out = Vec::new(alloc);
    for summary in summaries {
        put_summary(&mut out, summary)?;
    }
    Ok(out)
}

#[tactic(auto, unfolding(crate::specs::SummaryStream::summary_at))]
fn summary(
    alloc: Global,
    cursor: &mut ByteCursor,
    bounds: &BodyBounds,
) -> Result<Summary, StreamError>
    ensures { Gives result cursor.new (summary_at bounds.now cursor.old) }
{
    let code_bound = number_below(cursor, 1 << 64)?;
    let params = counted(alloc, cursor, &Params)?;
    let arrays = counted(alloc, cursor, &ArrayNumbers { bounds })?;
    let edges = counted(alloc, cursor, &Edges { bounds })?;
    Ok(Summary {
        code_bound,
        params,
        arrays,
        edges,
    })
}

fn in_order(
    alloc: Global,
    cursor: &mut ByteCursor,
    bounds: &[BodyBounds],
) -> Result<List<Summary>, StreamError>
    ensures { Gives result cursor.new (in_turn summary_at bounds.now cursor.old) }
{
    let mut summaries = List::new(alloc);
    for own in bounds {
        let summary = summary(alloc, cursor, own)?;
        summaries.push(summary)?;
    }
    Ok(summaries)
}

#[tactic(auto, unfolding(crate::specs::SummaryStream::summaries_within))]
fn all_summaries(
    alloc: Global,
    bytes: &[u8],
    bounds: &[BodyBounds],
) -> Result<List<Summary>, StreamError>
    ensures { GivesAll result (summaries_within bounds.now bytes.now) }
{
    let mut cursor = ByteCursor::new(bytes);
    let summaries = in_order(alloc, &mut cursor, bounds)?;
    if !cursor.at_end() {
        return Err(StreamError::BadStream {
            offset: cursor.offset(),
        });
    }
    Ok(summaries)
}

fn declared_summaries(
    alloc: Global,
    bytes: &[u8],
    declared: &Module,
) -> Result<List<Summary>, StreamError>
    requires { HasBounds declared.now }
    ensures { GivesAll result (read_summaries declared.now bytes.now) }
{
    let bounds = bounds_in(alloc, declared)?;
    all_summaries(alloc, bytes, bounds.as_slice())
}

/// The summaries that the bytes spell, all of the bytes: one for each function of the declared module that has a body, in
/// order, and with numbers that the module has.
pub fn decode_summaries(
    alloc: Global,
    bytes: &[u8],
    declared: &Module,
) -> Result<List<Summary>, StreamError>
    requires { HasBounds declared.now }

    // What is read is spelled so, and its numbers are in range.
    ensures found { IfOk result (λ summaries. FitSummaries declared.now summaries × (bytes.now ≡ summaries_bytes summaries)) }

    // What is spelled so is read, unless memory runs out.
    ensures only { (summaries : List Summary) → FitSummaries declared.now summaries → bytes.now ≡ summaries_bytes summaries → GivesAll result (Ok summaries) }

    // Which fault it is: the first from the left.
    ensures exact { GivesAll result (read_summaries declared.now bytes.now) }
    ensures within { IsWithin (length bytes.now) result }
{
    declared_summaries(alloc, bytes, declared)
}
