//! The symbols of versions.
ghost use Rattle.std.specs.Prelude.{◌≡◌, IfOk};
ghost use Rattle.gimple_ir.specs.Names.{IsName};
ghost use Rattle.ipa_plan.specs.Plans.{version_symbol};

use gimple_ir::{Name, NoMemory};
use std::alloc::Global;

/// NAME, `.` and a number.
pub fn version_symbol(alloc: Global, name: &Name, number: u32) -> Result<Name, NoMemory>
    requires { IsName (version_symbol name.now number) }
    ensures { IfOk result (λ symbol. symbol ≡ version_symbol name.now number) }
{
    let mut text = String::from_str(alloc, name.as_str())?;
    text.push_str(".")?;
    let digits = format!(in alloc; "{number}")?;
    text.push_str(digits.as_str())?;
    match Name::read(alloc, text.as_bytes())? {
        Some(symbol) => Ok(symbol),
        None => unreachable!(),
    }
}
