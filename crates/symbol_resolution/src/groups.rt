//! Values under names, found by name.
ghost use Rattle.std.specs.Prelude.{◌≡◌, ℕ, List, [], IfOk, length, map, filter};
ghost use Rattle.std.specs.Option.{option_map_or};
ghost use Rattle.std.specs.Str.{bytes_eq};
ghost use Rattle.std.specs.HashMap.{get_by};
ghost use Rattle.symbol_resolution.specs.Groups.{named, of_name};

use gimple_ir::NoMemory;
use std::alloc::Global;
use std::collections::HashMap;
use std::marker::Model;

/// Values under names, of which those under one name are found together. Contracts see all of them, in order.
#[derive(Drop)]
pub struct NameGroups<'a, T: Copy> {
    entries: Vec<(&'a str, T)>,
    groups: HashMap<&'a str, Vec<T>>,
}

impl<'a, T: Copy> Model for NameGroups<'a, T> {
    ghost use Rattle.std.specs.Prelude.{◌≡◌, ℕ, List, []};
    ghost use Rattle.std.specs.Option.{option_map_or};
    ghost use Rattle.std.specs.Str.{bytes_eq};
    ghost use Rattle.std.specs.HashMap.{get_by};
    ghost use Rattle.symbol_resolution.specs.Groups.{named, of_name};

    ghost Value = { List (List ℕ × T) };

    ghost view = { λ t. named t.entries.items };

    ghost invariant = { λ t. (name : List ℕ) → option_map_or (λ g. g.items) (get_by (λ k. bytes_eq name k.now) t.groups) [] ≡ of_name name (named t.entries.items) };
}

// What stands under each name, in order.
fn groups_of<'a, T: Copy>(
    alloc: Global,
    entries: &[(&'a str, T)],
) -> Result<HashMap<&'a str, Vec<T>>, NoMemory>
    ensures { IfOk result (λ groups. (name : List ℕ) → option_map_or (λ g. g.items) (get_by (λ k. bytes_eq name k.now) groups) [] ≡ map (λ e. e.1) (filter (λ e. bytes_eq name e.0.now) entries.now)) }
{
    let mut groups: HashMap<&'a str, Vec<T>> = HashMap::new(alloc);
    for (name, value) in entries {
        groups.entry(*name)?.or_default().push(*value)?;
    }
    Ok(groups)
}

impl<'a, T: Copy> NameGroups<'a, T> {
    pub fn of(alloc: Global, entries: Vec<(&'a str, T)>) -> Result<NameGroups<'a, T>, NoMemory>
        ensures { IfOk result (λ table. table ≡ named entries.entry.items) }
    {
        let groups = groups_of(alloc, &entries)?;
        Ok(NameGroups { entries, groups })
    }

    /// How many values there are.
    pub fn len(&self) -> usize
        ensures { result ≡ length self.now }
    {
        self.entries.len()
    }

    /// What stands under one name, in order.
    pub fn group(&self, name: &str) -> &[T]
        ensures { result.now ≡ of_name name.now self.now }
    {
        match self.groups.get(name) {
            Some(group) => group.as_slice(),
            None => &[],
        }
    }
}
