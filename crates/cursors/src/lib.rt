//! Numbers and lines read from bytes by their one spelling, and written so. `ByteCursor` reads fields of bytes, `TextCursor`
//! lines of a text. What a field's spelling is stands in `specs/Leb128.antt`, `specs/Fixed.antt`, `specs/Lines.antt` and
//! `specs/Decimals.antt`; what a read of it gives, with its faults, in `specs/Reading.antt`. Only the `put` calls allocate.
#![tactic(auto)]

mod cursor;
mod decimals;
mod fixed;
mod leb128;
mod lines;

pub use cursor::{ByteCursor, ReadError};
pub use decimals::{decimal, put_decimal};
pub use fixed::{put_le16, put_le32, put_le64};
pub use leb128::{no_spelling_begins_another, put_uleb, spelling_is_shortest};
pub use lines::TextCursor;

/// Want of memory.
pub use std::alloc::AllocError as NoMemory;
