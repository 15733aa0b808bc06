// Reads a whole text: `specs/Texts.antt`.
ghost use Rattle.std.specs.Prelude.{◌≡◌, ◌+◌, ◌-◌, ◌<◌, ◌≤◌, ◌^◌, List as Seq, length, IfOk};
ghost use Rattle.gimple_tokens.specs.Tokens.{tokens_of};
ghost use Rattle.gimple_grammar.specs.Items.{module_text};
ghost use Rattle.gimple_grammar.specs.Texts.{Answer, GivesText, Spells, IsOrMemory, IfFault, IsFirstFault};
ghost use Rattle.gimple_grammar.specs.declared.syntax.ItemLine.{ItemLine as AnItem};

use crate::items::more_items;
use crate::syntax::ItemLine;
use gimple_ir::List;
use gimple_tokens::{Failure, Reader, TextKind};
use std::alloc::Global;
use thiserror::Error;

/// The first fault of a text: its kind, and the line of the byte or the token that cannot come, or of the text's end. A
/// line is 1 plus the count of newlines before it.
#[derive(Clone, Copy, Debug, PartialEq, Eq)]
pub struct SyntaxFault {
    pub line: u32,
    pub kind: TextKind,
}

/// Why a text gave no items.
#[derive(Clone, Copy, Debug, PartialEq, Eq, Error)]
pub enum SyntaxError {
    #[error("{0:?}")]
    Fault(SyntaxFault),
    #[error("out of memory")]
    NoMemory,
}

#[tactic(auto, unfolding(crate::specs::Items::module_text, gimple_tokens::specs::Stops::past))]
fn all<'a>(alloc: Global, text: &'a [u8]) -> Result<List<ItemLine<'a>>, SyntaxError>
    requires { length text.now < 2 ^ 32 - 1 }
    ensures exact { GivesText result (module_text.read (tokens_of text.now)) }
    ensures few { length (tokens_of text.now) ≤ length text.now + 1 }
{
    let mut reader = Reader::new(text);
    match more_items(alloc, &mut reader) {
        Ok(found) => Ok(found),
        Err(Failure::NoMemory) => Err(SyntaxError::NoMemory),
        Err(Failure::Fault(kind)) => Err(SyntaxError::Fault(SyntaxFault {
            line: reader.line(),
            kind,
        })),
    }
}

/// The items of a module's text, of at most 2^32 - 2 bytes. It is read in one pass.
pub fn read_text<'a>(alloc: Global, text: &'a [u8]) -> Result<List<ItemLine<'a>>, SyntaxError>
    requires { length text.now < 2 ^ 32 - 1 }
    // What is read is spelled so.
    ensures found { IfOk result (λ items. Spells (tokens_of text.now) items) }
    // What is spelled so is read, unless memory runs out.
    ensures only { (items : Seq AnItem) → Spells (tokens_of text.now) items → IsOrMemory result items }
    // A fault is that of the first token with which no text goes on.
    ensures first { IfFault result (λ fault. IsFirstFault (tokens_of text.now) fault) }
    ensures few { IfOk result (λ items. length items < 2 ^ 32) }
    // Which fault it is.
    ensures exact { GivesText result (module_text.read (tokens_of text.now)) }
{
    all(alloc, text)
}

/// What is true of each answer that gives what the grammar reads of a text of at most 2^32 - 2 bytes.
pub fn reading_laws(text: &[u8])
    requires { length text.now < 2 ^ 32 - 1 }
    ensures found { (answer : Answer) → GivesText answer (module_text.read (tokens_of text.now)) → IfOk answer (λ items. Spells (tokens_of text.now) items) }
    ensures only { (answer : Answer) (items : Seq AnItem) → GivesText answer (module_text.read (tokens_of text.now)) → Spells (tokens_of text.now) items → IsOrMemory answer items }
    ensures first { (answer : Answer) → GivesText answer (module_text.read (tokens_of text.now)) → IfFault answer (λ fault. IsFirstFault (tokens_of text.now) fault) }
    ensures few { (answer : Answer) → GivesText answer (module_text.read (tokens_of text.now)) → length (tokens_of text.now) ≤ length text.now + 1 → IfOk answer (λ items. length items < 2 ^ 32) }
{}
