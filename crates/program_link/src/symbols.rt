//! The symbols that arrays have in an image.
ghost use Rattle.std.specs.Prelude.{◌≡◌, codes, All, IfOk};
ghost use Rattle.gimple_ir.specs.Names.{IsName};
ghost use Rattle.program_link.specs.Known.{symbol_by, array_symbols, IsNumbered};

use gimple_ir::{List, Merged, Name, NoMemory};
use std::alloc::Global;

// NAME, `.a` and the number.
fn array_symbol(alloc: Global, name: &Name, number: u32) -> Result<Name, NoMemory>
    requires { IsName (symbol_by name.now (codes ".a") number) }
    ensures { IfOk result (λ symbol. symbol ≡ symbol_by name.now (codes ".a") number) }
{
    let mut text = String::from_str(alloc, name.as_str())?;
    text.push_str(".a")?;
    let digits = format!(in alloc; "{number}")?;
    text.push_str(digits.as_str())?;
    match Name::read(alloc, text.as_bytes())? {
        Some(symbol) => Ok(symbol),
        None => unreachable!(),
    }
}

/// The symbols of all arrays, by their numbers.
pub fn array_symbols(alloc: Global, merged: &Merged) -> Result<List<Name>, NoMemory>
    requires { IsNumbered merged.now }
    ensures { IfOk result (λ symbols. symbols ≡ array_symbols merged.now) }
{
    let mut symbols = List::new(alloc);
    for (number, array) in merged.arrays.as_slice().iter().enumerate() {
        symbols.push(array_symbol(alloc, &array.name, number as u32)?)?;
    }
    Ok(symbols)
}
