//! Identifiers: what items, fields, variables and labels of a text are called.
ghost use Rattle.std.specs.Prelude.{◌≡◌, IfOk};
ghost use Rattle.gimple_ir.specs.Programs.{IsIdentifier};

use gimple_ir::{Name, NoMemory};
use std::alloc::Global;
use std::marker::Model;

/// A name of 1 to 255 letters, digits and underscores that does not begin with a digit and is no keyword. It refers to the
/// text in which it stands.
#[derive(Debug, Drop)]
pub struct Identifier<'a> {
    bytes: &'a [u8],
}

impl<'a> Model for Identifier<'a> {
    ghost use Rattle.std.specs.Prelude.{List, ℕ};
    ghost use Rattle.gimple_ir.specs.Programs.{IsIdentifier};

    ghost Value = { List ℕ };

    ghost view = { λ identifier. identifier.bytes.now };

    ghost invariant = { λ identifier. IsIdentifier identifier.bytes.now };
}

fn name_of(alloc: Global, bytes: &[u8]) -> Result<Name, NoMemory>
    requires { IsIdentifier bytes.now }
    ensures { IfOk result (λ name. name ≡ bytes.now) }
{
    match Name::read(alloc, bytes)? {
        Some(name) => Ok(name),
        None => unreachable!(),
    }
}

impl<'a> Identifier<'a> {
    pub(crate) fn from_bytes(bytes: &'a [u8]) -> Identifier<'a>
        requires { IsIdentifier bytes.now }
        ensures { result ≡ bytes.now }
    {
        Identifier { bytes }
    }

    /// The bytes, in order.
    pub fn as_slice(&self) -> &'a [u8]
        ensures value { result.now ≡ self.now }
        ensures identifier { IsIdentifier self.now }
    {
        self.bytes
    }

    /// The identifier as a name.
    pub fn copy(&self, alloc: Global) -> Result<Name, NoMemory>
        ensures value { IfOk result (λ name. name ≡ self.now) }
        ensures identifier { IfOk result IsIdentifier }
    {
        name_of(alloc, self.bytes)
    }
}
