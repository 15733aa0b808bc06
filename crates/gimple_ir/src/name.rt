//! Names: what symbols, files and words of the formats are called.
ghost use Rattle.std.specs.Prelude.{◌≡◌, ◌<◌, ◌↔◌, length, slice_get, Some, IsTrue, IfOk, MatchOption, nat_eq};
ghost use Rattle.gimple_ir.specs.Names.{IsName};
ghost use Rattle.std.specs.Cmp.{nat_eq_equiv, partial_equiv_from_equiv};
ghost use Rattle.std.specs.Cmp.Lexicographic.{pointwise, lists_per, lists_equiv};

use crate::NoMemory;
use std::alloc::Global;
use std::marker::Model;

/// A name of 1 to 300 printable ASCII bytes.
#[derive(Debug, Drop)]
pub struct Name {
    text: String,
}

impl Model for Name {
    ghost use Rattle.std.specs.Prelude.{List, ℕ, string_bytes};
    ghost use Rattle.gimple_ir.specs.Names.{IsName};

    ghost Value = { List ℕ };

    ghost view = { λ name. string_bytes name.text };

    ghost invariant = { λ name. IsName (string_bytes name.text) };
}

fn is_name(bytes: &[u8]) -> bool
    ensures { IsTrue result ↔ IsName bytes.now }
{
    let printable = bytes.iter().all(|byte| 0x21 <= *byte && *byte <= 0x7e);
    1 <= bytes.len() && bytes.len() <= 300 && printable
}

fn as_text(bytes: &[u8]) -> &str
    requires { IsName bytes.now }
    ensures { result.now ≡ bytes.now }
{
    str::from_utf8(bytes).unwrap()
}

impl Name {
    /// The name with just these bytes, or None exactly where they are no name.
    pub fn read(alloc: Global, bytes: &[u8]) -> Result<Option<Name>, NoMemory>
        ensures { IfOk result (λ found. MatchOption found (¬ IsName bytes.now) (λ name. (name ≡ bytes.now) × IsName name)) }
    {
        if !is_name(bytes) {
            return Ok(None);
        }
        let text = String::from_str(alloc, as_text(bytes))?;
        Ok(Some(Name { text }))
    }

    /// The number of bytes.
    pub fn len(&self) -> usize
        ensures value { result ≡ length self.now }
        ensures name { IsName self.now }
    {
        self.text.len()
    }

    /// The byte at a place below `len`.
    pub fn get(&self, place: usize) -> u8
        requires { place < length self.now }
        ensures { slice_get self.now place ≡ Some result }
    {
        self.text.as_bytes()[place]
    }

    /// The bytes, in order.
    pub fn as_slice(&self) -> &[u8]
        ensures value { result.now ≡ self.now }
        ensures name { IsName self.now }
    {
        self.text.as_bytes()
    }

    /// The bytes as text; they are ASCII.
    pub fn as_str(&self) -> &str
        ensures value { result.now ≡ self.now }
        ensures name { IsName self.now }
    {
        self.text.as_str()
    }

    /// An equal name.
    pub fn copy(&self) -> Result<Name, NoMemory>
        ensures { IfOk result (λ name. name ≡ self.now) }
    {
        let text = self.text.clone()?;
        Ok(Name { text })
    }
}

impl PartialEq for Name {
    ghost eq = { pointwise nat_eq };

    ghost laws = { lists_per (partial_equiv_from_equiv nat_eq_equiv) };

    fn eq(&self, other: &Self) -> bool {
        self.as_slice() == other.as_slice()
    }
}

impl Eq for Name {
    ghost laws = { lists_equiv nat_eq_equiv };
}
