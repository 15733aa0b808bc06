//! Reads a whole text: `specs/Reading.antt`.
ghost use Rattle.std.specs.Prelude.{◌≡◌, ◌+◌, ◌-◌, ◌<◌, ◌≤◌, ◌^◌, [], Ok, length, IfOk};
ghost use Rattle.gimple_ir.specs.declared.types.Module.{Module as AModule};
ghost use Rattle.gimple_tokens.specs.Tokens.{tokens_of};
ghost use Rattle.gimple_syntax.specs.Items.{module_of};
ghost use Rattle.gimple_syntax.specs.Passes.{items_read, read_as, GivesChecked, Outlined};
ghost use Rattle.gimple_syntax.specs.Reading.{read_of, check_fault, SpellsModule, HasFault, GivesModule, IsModuleOrMemory, IfFault};

use crate::lines::check_fault;
use crate::modules::module_of;
use crate::outlines::outlines_of;
use crate::text::{TextError, TextFault};
use gimple_checks::{ModuleError, check_module};
use gimple_grammar::{ItemLine, SyntaxError, read_text, reading_laws};
use gimple_ir::{Module, NoMemory, TypeFault};
use std::alloc::{AllocError, Global};

/// A fault of the checks with its line, for which the text is read once more.
fn fault_in(
    alloc: Global,
    text: &[u8],
    source: &Module,
    fault: TypeFault,
) -> Result<TextFault, NoMemory>
    requires short { length text.now < 2 ^ 32 - 1 }
    requires read { read_as module_of (items_read text.now) ≡ Ok (source.now, []) }
    ensures { IfOk result (λ found. read_as (λ items. check_fault items fault) (items_read text.now) ≡ Ok (found, [])) }
{
    match read_text(alloc, text) {
        Ok(items) => Ok(check_fault(items.as_slice(), source, fault)),
        Err(SyntaxError::NoMemory) => Err(AllocError),
        Err(SyntaxError::Fault(_)) => unreachable!(),
    }
}

/// The module of the text with these outlines, if the checks find nothing in it.
fn checked<'t>(
    alloc: Global,
    text: &'t [u8],
    outlines: &[ItemLine<'t>],
) -> Result<Module, TextError>
    requires short { length text.now < 2 ^ 32 - 1 }
    requires outlined { Outlined text.now outlines.now }
    requires few { length (tokens_of text.now) ≤ length text.now + 1 }
    ensures { GivesChecked result (items_read text.now) }
{
    reading_laws(text);
    let found = module_of(alloc, text, outlines)?;
    match check_module(alloc, &found) {
        Ok(()) => Ok(found),
        Err(ModuleError::NoMemory) => Err(TextError::NoMemory),
        Err(ModuleError::Fault(fault)) => {
            Err(TextError::Fault(fault_in(alloc, text, &found, fault)?))
        }
    }
}

fn read_and_checked(alloc: Global, text: &[u8]) -> Result<Module, TextError>
    requires { length text.now < 2 ^ 32 - 1 }
    ensures { GivesChecked result (items_read text.now) }
{
    let outlines = outlines_of(alloc, text)?;
    checked(alloc, text, outlines.as_slice())
}

/// The module that a text of at most 2^32 - 2 bytes spells, or its first fault: of bytes and syntax by place, and then of
/// the checks. A line is 1 plus the count of newlines before the byte, the token, the text's end, or the first token of the
/// item or statement.
///
/// The text is gone over twice, so that no more than one function's syntax stands in memory beside the module: first for the
/// names of all items, where bodies are passed over unread, and then for the functions.
pub fn read_module(alloc: Global, text: &[u8]) -> Result<Module, TextError>
    requires { length text.now < 2 ^ 32 - 1 }
    // What is read is spelled so.
    ensures found { IfOk result (λ found. SpellsModule text.now found) }
    // What is spelled so is read, unless memory runs out.
    ensures only { (m : AModule) → SpellsModule text.now m → IsModuleOrMemory result m }
    // A fault is the first, of the syntax or of the checks.
    ensures first { IfFault result (λ fault. HasFault text.now fault) }
    // Which fault it is.
    ensures exact { GivesModule result (read_of text.now) }
{
    reading_laws(text);
    read_and_checked(alloc, text)
}
