//! What the symbols of each name come to, found by name.
ghost use Rattle.std.specs.Prelude.{◌≡◌, ◌++◌, ℕ, List, IfOk, OnOk, fold};
ghost use Rattle.symbol_resolution.specs.Symbols.{LinkSymbol, symbols_in, symbols_from, symbols_of_link};
ghost use Rattle.symbol_resolution.specs.Definitions.{with_symbol, kept, no_definitions, definitions_of};

use crate::definitions::{Definitions, SymbolPlace};
use gimple_ir::NoMemory;
use lto_object::{Object, Symbol};
use std::alloc::Global;
use std::collections::HashMap;

/// What the symbols of each name come to.
#[derive(Drop)]
pub struct NameTable<'a> {
    pub definitions: HashMap<&'a str, Definitions>,
}

impl<'a> NameTable<'a> {
    /// Where there are no symbols.
    pub fn new(alloc: Global) -> NameTable<'a>
        ensures { (name : List ℕ) → kept result.definitions name ≡ no_definitions }
    {
        NameTable {
            definitions: HashMap::new(alloc),
        }
    }

    /// What the symbols of a name come to.
    pub fn of(&self, name: &str) -> Definitions
        ensures { result ≡ kept self.now.definitions name.now }
    {
        match self.definitions.get(name) {
            Some(definitions) => *definitions,
            None => Definitions::none(),
        }
    }

    // With one more symbol.
    fn note(&mut self, at: SymbolPlace, symbol: &'a Symbol) -> Result<(), NoMemory>
        ensures { OnOk result ((name : List ℕ) → kept self.new.definitions name ≡ with_symbol name (kept self.old.definitions name) (record { at = at; symbol = symbol.now })) }
    {
        let name = symbol.name.as_str();
        let definitions = self.of(name).with(at, symbol.linkage);
        self.definitions.insert(name, definitions)?;
        Ok(())
    }

    /// With the symbols of one more object.
    pub fn note_all(&mut self, object: usize, symbols: &'a [Symbol]) -> Result<(), NoMemory>
        ensures { OnOk result ((name : List ℕ) → kept self.new.definitions name ≡ fold (with_symbol name) (kept self.old.definitions name) (symbols_in object 0 symbols.now)) }
    {
        for (place, symbol) in symbols.iter().enumerate() {
            self.note(SymbolPlace { object, place }, symbol)?;
        }
        Ok(())
    }

    /// What the symbols of all objects come to.
    pub fn of_link(alloc: Global, objects: &'a [Object<'_>]) -> Result<NameTable<'a>, NoMemory>
        ensures { IfOk result (λ table. (name : List ℕ) → kept table.definitions name ≡ definitions_of name (symbols_of_link objects.now)) }
    {
        let mut table = NameTable::new(alloc);
        for (object, item) in objects.iter().enumerate() {
            table.note_all(object, item.symbols().as_slice())?;
        }
        Ok(table)
    }
}
