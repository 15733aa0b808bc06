//! The symbols of a module as a stream: their count, and of each whether it is a function, its linkage and its name.
ghost use Rattle.std.specs.Prelude.{◌≡◌, ◌++◌, length, map, List, IfOk, OnOk, Ok};
ghost use Rattle.module_stream.specs.Readers.{Gives, GivesAll, IsWithin};
ghost use Rattle.elf_container.specs.Reading.{named};
ghost use Rattle.lto_object.specs.declared.symbols.StoredSymbol.{StoredSymbol};
ghost use Rattle.lto_object.specs.SymbolStream.{stored_of, symbols_bytes, FitSymbols, symbol_name_at, read_symbols};

use crate::symbol::Symbol;
use cursors::ByteCursor;
use gimple_ir::{Linkage, List, Name, NoMemory};
use module_stream::{Coded, Decode, Encode, StreamError, coded, counted, put_counted, text};
use std::alloc::Global;

/// What the stream has of a symbol.
#[derive(Drop)]
pub struct StoredSymbol {
    pub name: Name,
    /// Whether it is a function, and else an array.
    pub function: bool,
    pub linkage: Linkage,
}

impl Encode for Symbol {
    ghost use Rattle.lto_object.specs.SymbolStream.{stored_of, symbol_bytes};

    ghost spelling = { λ symbol. symbol_bytes (stored_of symbol) };

    fn encode(&self, out: &mut Vec<u8>) -> Result<(), NoMemory> {
        out.push(self.function.code())?;
        out.push(self.linkage.code())?;
        self.name.encode(out)
    }
}

/// The one spelling of these symbols; their places are left out.
pub fn encode_symbols(alloc: Global, symbols: &[Symbol]) -> Result<Vec<u8>, NoMemory>
    ensures { IfOk result (λ bytes. bytes.items ≡ symbols_bytes (map stored_of symbols.now)) }
{
    let mut out = Vec::new(alloc);
    put_counted(&mut out, symbols)?;
    Ok(out)
}

// The name that the bytes are.
fn named(alloc: Global, bytes: &[u8]) -> Result<Option<Name>, NoMemory>
    ensures { IfOk result (λ found. found ≡ named bytes.now) }
{
    Name::read(alloc, bytes)
}

// A name of 1 to 300 printable bytes.
#[tactic(auto, unfolding(crate::specs::SymbolStream::symbol_name_at))]
fn symbol_name(alloc: Global, cursor: &mut ByteCursor) -> Result<Name, StreamError>
    ensures { Gives result cursor.new (symbol_name_at cursor.old) }
{
    let offset = cursor.offset();
    let bytes = text(cursor)?;
    match named(alloc, bytes)? {
        None => Err(StreamError::BadStream { offset }),
        Some(name) => Ok(name),
    }
}

/// The symbols of a module.
#[derive(Drop)]
pub struct StoredSymbols;

impl Decode for StoredSymbols {
    ghost use Rattle.lto_object.specs.SymbolStream.{symbol_at};

    type Value = StoredSymbol;

    ghost reads = { λ _. symbol_at };

    #[tactic(auto, unfolding(crate::specs::SymbolStream::symbol_at))]
    fn decode(&self, alloc: Global, cursor: &mut ByteCursor) -> Result<StoredSymbol, StreamError> {
        let function = coded(cursor)?;
        let linkage = coded(cursor)?;
        let name = symbol_name(alloc, cursor)?;
        Ok(StoredSymbol {
            name,
            function,
            linkage,
        })
    }
}

#[tactic(auto, unfolding(crate::specs::SymbolStream::read_symbols))]
fn all_symbols(alloc: Global, bytes: &[u8]) -> Result<List<StoredSymbol>, StreamError>
    ensures { GivesAll result (read_symbols bytes.now) }
{
    let mut cursor = ByteCursor::new(bytes);
    let symbols = counted(alloc, &mut cursor, &StoredSymbols)?;
    if !cursor.at_end() {
        return Err(StreamError::BadStream {
            offset: cursor.offset(),
        });
    }
    Ok(symbols)
}

/// The symbols that the bytes spell, all of the bytes.
pub fn decode_symbols(alloc: Global, bytes: &[u8]) -> Result<List<StoredSymbol>, StreamError>
    // What is read is spelled so, and each name is one.
    ensures found { IfOk result (λ symbols. FitSymbols symbols × (bytes.now ≡ symbols_bytes symbols)) }

    // What is spelled so is read, unless memory runs out.
    ensures only { (symbols : List StoredSymbol) → FitSymbols symbols → bytes.now ≡ symbols_bytes symbols → GivesAll result (Ok symbols) }

    // Which fault it is: the first from the left.
    ensures exact { GivesAll result (read_symbols bytes.now) }
    ensures within { IsWithin (length bytes.now) result }
{
    all_symbols(alloc, bytes)
}
