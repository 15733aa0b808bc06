//! What has one spelling in bytes, and lists of it.
ghost use Rattle.std.specs.Prelude.{◌≡◌, ◌++◌, OnOk};
ghost use Rattle.module_stream.specs.Fields.{counted_of, text_of};

use cursors::put_uleb;
use gimple_ir::{Name, NoMemory};

/// What has one spelling in a stream.
pub trait Encode {
    ghost use Rattle.std.specs.Prelude.{List, ℕ};

    /// The bytes that spell it.
    ghost spelling: { Self → List ℕ };

    /// Writes the spelling at the end. After `NoMemory` a part of it may stand there.
    fn encode(&self, out: &mut Vec<u8>) -> Result<(), NoMemory>
        ensures { OnOk result (out.new.items ≡ out.old.items ++ spelling self.now) };
}

/// Writes the count of the items, and the spelling of each.
pub fn put_counted<T: Encode>(out: &mut Vec<u8>, items: &[T]) -> Result<(), NoMemory>
    ensures { OnOk result (out.new.items ≡ out.old.items ++ counted_of T.spelling items.now) }
{
    put_uleb(out, items.len() as u64)?;
    for item in items {
        item.encode(out)?;
    }
    Ok(())
}

/// Writes a length, and the bytes.
pub fn put_text(out: &mut Vec<u8>, bytes: &[u8]) -> Result<(), NoMemory>
    ensures { OnOk result (out.new.items ≡ out.old.items ++ text_of bytes.now) }
{
    put_uleb(out, bytes.len() as u64)?;
    out.extend_from_slice(bytes)
}

impl Encode for Name {
    ghost use Rattle.module_stream.specs.Fields.{text_of};

    ghost spelling = { text_of };

    fn encode(&self, out: &mut Vec<u8>) -> Result<(), NoMemory> {
        put_text(out, self.as_slice())
    }
}
