//! The words of a line.
ghost use Rattle.std.specs.Prelude.{◌≡◌, IfOk, IsTrue, map};
ghost use Rattle.text_lines.specs.Words.{is_name as is_name_of, name_of, words_of};

use gimple_ir::{Name, NoMemory};
use std::alloc::Global;

/// The parts between single spaces; an empty line has one empty word.
pub fn words(alloc: Global, line: &[u8]) -> Result<Vec<&[u8]>, NoMemory>
    ensures { IfOk result (λ words. map (λ w. w.now) words.items ≡ words_of line.now) }
{
    line.split(|byte| *byte == b' ').collect(alloc)
}

/// The name that a word is, or `None` where it is none.
pub fn name(alloc: Global, word: &[u8]) -> Result<Option<Name>, NoMemory>
    ensures { IfOk result (λ found. found ≡ name_of word.now) }
{
    match Name::read(alloc, word)? {
        Some(name) => Ok(Some(name)),
        None => Ok(None),
    }
}
