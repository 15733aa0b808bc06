//! What a text makes that spells a module.
ghost use Rattle.std.specs.Prelude.{◌<◌, ◌-◌, ◌^◌, ℕ, List, length};
ghost use Rattle.gimple_ir.specs.declared.types.Module.{Module as AModule};
ghost use Rattle.gimple_ir.specs.Programs.{IsChecked};
ghost use Rattle.gimple_syntax.specs.Reading.{SpellsModule};

/// A module that a text of less than 2^32 - 1 bytes spells is checked: besides what the checks ask, its names are
/// identifiers, its values lie in range, its variables' types agree with their structs, and its declarations are bare.
pub fn read_is_checked()
    ensures checked { (text : List ℕ) (m : AModule) → length text < 2 ^ 32 - 1 → SpellsModule text m → IsChecked m }
{}
