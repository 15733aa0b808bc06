//! The items of a text without the bodies of its functions.
ghost use Rattle.std.specs.Prelude.{◌<◌, ◌≤◌, ◌+◌, ◌-◌, ◌^◌, length, IfOk};
ghost use Rattle.gimple_tokens.specs.Tokens.{tokens_of};
ghost use Rattle.gimple_syntax.specs.Passes.{AddsOutline, Outlined};

use gimple_grammar::{ItemLine, SyntaxError, next_outline};
use gimple_ir::{List, NoMemory};
use gimple_tokens::Reader;
use std::alloc::{AllocError, Global};

/// Reads the next item without its body, and adds it. Whether an item was left is told.
fn add_outline<'a>(
    alloc: Global,
    reader: &mut Reader<'a>,
    found: &mut List<ItemLine<'a>>,
) -> Result<bool, NoMemory>
    ensures { AddsOutline result found.old found.new reader.old reader.new }
{
    match next_outline(alloc, reader) {
        Ok(Some(next)) => {
            found.push(next)?;
            Ok(true)
        }
        Ok(None) => Ok(false),
        Err(SyntaxError::NoMemory) => Err(AllocError),
        Err(SyntaxError::Fault(_)) => Ok(false),
    }
}

/// The outlines of a text's items, if it is a text of items; else nothing is said of what is found. A text has at most as
/// many items as it has tokens, which bounds the turns where it is none.
pub fn outlines_of<'a>(alloc: Global, text: &'a [u8]) -> Result<List<ItemLine<'a>>, NoMemory>
    requires { length text.now < 2 ^ 32 - 1 }
    ensures given { IfOk result (λ found. Outlined text.now found) }
    ensures few { length (tokens_of text.now) ≤ length text.now + 1 }
{
    let mut reader = Reader::new(text);
    let mut found = List::new(alloc);
    let mut left = text.len() + 1;
    let mut more = true;
    'items: while more && left > 0 {
        more = add_outline(alloc, &mut reader, &mut found)?;
        left -= 1;
    }
    Ok(found)
}
