//! What can be read at a cursor, and as many of it as a count says.
ghost use Rattle.std.specs.Prelude.{◌≡◌, ◌<◌, ◌^◌, length, IfOk};
ghost use Rattle.module_stream.specs.Readers.{Gives, repeated, counted, after};

use crate::fault::StreamError;
use crate::fields::number_below;
use cursors::ByteCursor;
use gimple_ir::List;
use std::alloc::Global;

/// A field, or several in a row, that can be read at a cursor.
pub trait Decode {
    ghost use Rattle.std.specs.Prelude.{ℕ, Result};
    ghost use Rattle.cursors.specs.Cursor.{Cursor};

    type Value: Drop;

    /// The value and the place after it, or the offset of the first byte of the first field that is bad.
    ghost reads: { Self → Cursor → Result (Self.Value × Cursor) ℕ };

    /// Reads the value.
    fn decode(&self, alloc: Global, cursor: &mut ByteCursor) -> Result<Self::Value, StreamError>
        ensures { Gives result cursor.new (reads self.now cursor.old) };
}

/// Reads as many as the count says, and puts them after the items.
pub fn repeated_after<D: Decode>(
    alloc: Global,
    cursor: &mut ByteCursor,
    field: &D,
    count: u64,
    mut items: List<D::Value>,
) -> Result<List<D::Value>, StreamError>
    ensures { Gives result cursor.new (after items (repeated (D.reads field.now) count cursor.old)) }
{
    'more: for _ in 0..count {
        let item = field.decode(alloc, cursor)?;
        items.push(item)?;
    }
    Ok(items)
}

/// Reads as many as the count says.
pub fn repeated<D: Decode>(
    alloc: Global,
    cursor: &mut ByteCursor,
    field: &D,
    count: u64,
) -> Result<List<D::Value>, StreamError>
    ensures { Gives result cursor.new (repeated (D.reads field.now) count cursor.old) }
{
    repeated_after(alloc, cursor, field, count, List::new(alloc))
}

/// Reads a count and as many, and puts them after the items.
pub fn counted_after<D: Decode>(
    alloc: Global,
    cursor: &mut ByteCursor,
    field: &D,
    items: List<D::Value>,
) -> Result<List<D::Value>, StreamError>
    ensures { Gives result cursor.new (after items (counted (D.reads field.now) cursor.old)) }
{
    let count = number_below(cursor, 1 << 32)?;
    repeated_after(alloc, cursor, field, count, items)
}

/// Reads a count and as many.
pub fn counted<D: Decode>(
    alloc: Global,
    cursor: &mut ByteCursor,
    field: &D,
) -> Result<List<D::Value>, StreamError>
    ensures value { Gives result cursor.new (counted (D.reads field.now) cursor.old) }
    ensures count { IfOk result (λ items. length items < 2 ^ 32) }
{
    let count = number_below(cursor, 1 << 32)?;
    repeated(alloc, cursor, field, count)
}
