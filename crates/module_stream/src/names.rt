//! Names of items, fields, variables and labels.
ghost use Rattle.std.specs.Prelude.{◌≡◌, ◌||◌, true, IfOk};
ghost use Rattle.std.specs.List.{list_all, list_any};
ghost use Rattle.std.specs.Str.{bytes_eq};
ghost use Rattle.gimple_ir.specs.Names.{is_letter, is_digit, begins_with_letter, is_among, keywords, is_identifier};

use crate::decode::Decode;
use crate::fault::StreamError;
use crate::fields::text;
use cursors::ByteCursor;
use gimple_ir::{Name, NoMemory};
use std::alloc::Global;

static KEYWORDS: [&str; 16] = [
    "int", "unsigned", "long", "char", "struct", "static", "extern", "weak", "void", "if", "else",
    "goto", "switch", "case", "default", "return",
];

fn is_letter(byte: u8) -> bool
    ensures { result ≡ is_letter byte }
{
    byte.is_ascii_alphabetic() || byte == b'_'
}

fn begins_with_letter(bytes: &[u8]) -> bool
    ensures { result ≡ begins_with_letter bytes.now }
{
    match bytes {
        [first, ..] => is_letter(*first),
        [] => false,
    }
}

fn is_one_of(words: &[&str], bytes: &[u8]) -> bool
    ensures { result ≡ list_any (λ word. bytes_eq bytes.now word.now) words.now }
{
    words.iter().any(|word| bytes == word.as_bytes())
}

fn is_keyword(bytes: &[u8]) -> bool
    ensures { result ≡ is_among keywords bytes.now }
{
    is_one_of(&KEYWORDS, bytes)
}

// Letters, digits and underscores.
fn is_plain(bytes: &[u8]) -> bool
    ensures { result ≡ list_all (λ byte. is_letter byte || is_digit byte) bytes.now }
{
    bytes
        .iter()
        .all(|byte| is_letter(*byte) || byte.is_ascii_digit())
}

fn is_identifier(bytes: &[u8]) -> bool
    ensures { result ≡ is_identifier bytes.now }
{
    let begins = begins_with_letter(bytes);
    let plain = is_plain(bytes);
    let short = bytes.len() <= 255;
    let keyword = is_keyword(bytes);
    begins & plain & short & !keyword
}

fn name_of(alloc: Global, bytes: &[u8]) -> Result<Name, NoMemory>
    requires { is_identifier bytes.now ≡ true }
    ensures { IfOk result (λ name. name ≡ bytes.now) }
{
    match Name::read(alloc, bytes)? {
        Some(name) => Ok(name),
        None => unreachable!(),
    }
}

/// The name of an item, a field, a variable or a label.
#[derive(Drop)]
pub struct Names;

impl Decode for Names {
    ghost use Rattle.module_stream.specs.DeclarationReading.{name_at};

    type Value = Name;

    ghost reads = { λ _. name_at };

    #[tactic(auto, unfolding(crate::specs::DeclarationReading::name_at))]
    fn decode(&self, alloc: Global, cursor: &mut ByteCursor) -> Result<Name, StreamError> {
        let offset = cursor.offset();
        let bytes = text(cursor)?;
        if !is_identifier(bytes) {
            return Err(StreamError::BadStream { offset });
        }
        let name = name_of(alloc, bytes)?;
        Ok(name)
    }
}
