// Reads the items of a text one by one: `specs/Streams.antt`.
ghost use Rattle.gimple_grammar.specs.Streams.{GivesItem, GivesOutline};

use crate::items::item_line;
use crate::outlines::outline_line;
use crate::syntax::ItemLine;
use crate::text::{SyntaxError, SyntaxFault};
use gimple_tokens::{Failure, Reader};
use std::alloc::Global;

/// Reads the next item of a text, whose other items are still to be read. `None` where the text ends.
pub fn next_item<'a>(
    alloc: Global,
    reader: &mut Reader<'a>,
) -> Result<Option<ItemLine<'a>>, SyntaxError>
    ensures { GivesItem result reader.old reader.new }
{
    if reader.is_end() {
        return Ok(None);
    }
    match item_line(alloc, reader) {
        Ok(item) => Ok(Some(item)),
        Err(Failure::NoMemory) => Err(SyntaxError::NoMemory),
        Err(Failure::Fault(kind)) => Err(SyntaxError::Fault(SyntaxFault {
            line: reader.line(),
            kind,
        })),
    }
}

/// Reads the next item of a text as `next_item` does, but of a function all but its body, which ends at the first brace that closes.
/// What it gives of tokens that are no text's is not said: `next_item` finds their fault.
pub fn next_outline<'a>(
    alloc: Global,
    reader: &mut Reader<'a>,
) -> Result<Option<ItemLine<'a>>, SyntaxError>
    ensures { GivesOutline result reader.old reader.new }
{
    if reader.is_end() {
        return Ok(None);
    }
    match outline_line(alloc, reader) {
        Ok(outline) => Ok(Some(outline)),
        Err(Failure::NoMemory) => Err(SyntaxError::NoMemory),
        Err(Failure::Fault(kind)) => Err(SyntaxError::Fault(SyntaxFault {
            line: reader.line(),
            kind,
        })),
    }
}
