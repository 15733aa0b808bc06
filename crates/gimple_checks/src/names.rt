//! Names that stand twice, looked up in a map, and names that only the builtin functions have.
ghost use Rattle.std.specs.Prelude.{◌≡◌, ◌||◌, ℕ, List, map, IfOk, OnOk};
ghost use Rattle.std.specs.List.{list_any};
ghost use Rattle.std.specs.Str.{bytes_eq};
ghost use Rattle.gimple_ir.specs.Names.{is_builtin, repeats};
ghost use Rattle.gimple_checks.specs.Seen.{holds};

use gimple_ir::{Array, Field, Function, Name, NoMemory, StructDef, Variable};
use std::alloc::Global;
use std::collections::BTreeMap;

/// The names that were seen so far.
pub type Seen<'a> = BTreeMap<&'a str, ()>;

/// Adds a name, and tells whether it had been seen.
pub fn add<'a>(seen: &mut Seen<'a>, name: &'a Name) -> Result<bool, NoMemory>
    ensures found { IfOk result (λ found. found ≡ holds seen.old name.now) }
    ensures added { OnOk result ((q : List ℕ) → holds seen.new q ≡ (bytes_eq q name.now || holds seen.old q)) }
{
    let old = seen.insert(name.as_str(), ())?;
    Ok(old.is_some())
}

/// What has a name.
pub trait Named {
    ghost use Rattle.std.specs.Prelude.{List, ℕ};

    ghost name_of: { Self → List ℕ };

    fn name(&self) -> &Name
        ensures { result.now ≡ name_of self.now };
}

impl Named for Field {
    ghost name_of = { λ field. field.name };

    fn name(&self) -> &Name {
        &self.name
    }
}

impl Named for Variable {
    ghost name_of = { λ variable. variable.name };

    fn name(&self) -> &Name {
        &self.name
    }
}

impl Named for Name {
    ghost name_of = { λ name. name };

    fn name(&self) -> &Name {
        self
    }
}

/// Whether a name stands twice.
pub fn repeats<T: Named>(alloc: Global, items: &[T]) -> Result<bool, NoMemory>
    ensures { IfOk result (λ found. found ≡ repeats (map T.name_of items.now)) }
{
    let mut seen = BTreeMap::new(alloc);
    for item in items {
        if add(&mut seen, item.name())? {
            return Ok(true);
        }
    }
    Ok(false)
}

/// Whether the name begins as those of the builtin functions do.
pub fn is_builtin(name: &Name) -> bool
    ensures { result ≡ is_builtin name.now }
{
    name.as_slice().starts_with(b"__builtin_")
}

/// Whether such a name is among those of the items.
pub fn any_builtin<T: Named>(items: &[T]) -> bool
    ensures { result ≡ list_any (λ item. is_builtin (T.name_of item)) items.now }
{
    items.iter().any(|item| is_builtin(item.name()))
}
