//! A module's declarations as bytes: its structs, arrays and functions, the functions without their bodies.
ghost use Rattle.std.specs.Prelude.{◌≡◌, ◌++◌, ◌+◌, ◌<◌, ◌^◌, length, ℕ, List, IfOk, Ok};
ghost use Rattle.gimple_ir.specs.declared.types.Module.{Module};
ghost use Rattle.module_stream.specs.Readers.{Gives, GivesAll, IsWithin};
ghost use Rattle.gimple_ir.specs.Programs.{IsStated};
ghost use Rattle.module_stream.specs.Declarations.{decls_of, AreDeclarations, HasCounts, without_bodies};
ghost use Rattle.module_stream.specs.DeclarationReading.{module_at, read_decls};

use crate::decode::counted;
use crate::encode::put_counted;
use crate::fault::StreamError;
use crate::functions::{Arrays, Functions, Structs};
use cursors::ByteCursor;
use gimple_ir::{Module, NoMemory};
use std::alloc::Global;

/// The one spelling of a module's declarations; bodies are left out. `decode_decls` reads it where the module is well formed,
/// its structs' numbers name structs and its counts fit a u32.
pub fn encode_decls(alloc: Global, source: &Module) -> Result<Vec<u8>, NoMemory>
    ensures { IfOk result (λ bytes. bytes.items ≡ decls_of source.now) }
{
    let mut out = Vec::new(alloc);
    put_counted(&mut out, source.structs.as_slice())?;
    put_counted(&mut out, source.arrays.as_slice())?;
    put_counted(&mut out, source.functions.as_slice())?;
    Ok(out)
}

#[tactic(auto, unfolding(crate::specs::DeclarationReading::module_at))]
fn items(alloc: Global, cursor: &mut ByteCursor) -> Result<Module, StreamError>
    ensures { Gives result cursor.new (module_at cursor.old) }
{
    let structs = counted(alloc, cursor, &Structs)?;
    let arrays = counted(alloc, cursor, &Arrays)?;
    let functions = counted(alloc, cursor, &Functions { structs: &structs })?;
    Ok(Module {
        structs,
        arrays,
        functions,
    })
}

#[tactic(auto, unfolding(crate::specs::DeclarationReading::read_decls))]
fn declarations(alloc: Global, bytes: &[u8]) -> Result<Module, StreamError>
    ensures { GivesAll result (read_decls bytes.now) }
{
    let mut cursor = ByteCursor::new(bytes);
    let source = items(alloc, &mut cursor)?;
    if !cursor.at_end() {
        return Err(StreamError::BadStream {
            offset: cursor.offset(),
        });
    }
    Ok(source)
}

/// The module that the bytes spell, all of the bytes; its bodies are empty.
pub fn decode_decls(alloc: Global, bytes: &[u8]) -> Result<Module, StreamError>
    // What is read is spelled so, and it is well formed.
    ensures found { IfOk result (λ source. AreDeclarations source × (bytes.now ≡ decls_of source)) }

    // What is spelled so is read, unless memory runs out.
    ensures only { (source : Module) → AreDeclarations source → bytes.now ≡ decls_of source → GivesAll result (Ok source) }

    // Which fault it is: the first from the left.
    ensures exact { GivesAll result (read_decls bytes.now) }
    ensures within { IsWithin (length bytes.now) result }
{
    declarations(alloc, bytes)
}

/// No spelling of declarations begins another.
pub fn no_declarations_begin_others()
    ensures { (m n : Module) (x y : List ℕ) → AreDeclarations m → AreDeclarations n → decls_of m ++ x ≡ decls_of n ++ y → (m ≡ n) × (x ≡ y) }
{}

/// What `encode_decls` writes of a well formed module with bodies, whose numbers are in range, is read as the module without
/// its bodies.
pub fn declarations_are_read_without_bodies()
    ensures spelled { (m : Module) → decls_of (without_bodies m) ≡ decls_of m }
    ensures well_formed { (m : Module) → IsStated m → HasCounts m → AreDeclarations (without_bodies m) }
{}

/// What `decode_decls` gives is well formed, once its structs, arrays and functions together have numbers below 2^32.
pub fn declarations_are_well_formed()
    ensures { (m : Module) → AreDeclarations m → length m.structs + length m.arrays + length m.functions < 2 ^ 32 → IsStated m }
{}
