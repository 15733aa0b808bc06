//! What a printed text spells.
ghost use Rattle.gimple_ir.specs.declared.types.Module.{Module as AModule};
ghost use Rattle.gimple_ir.specs.Programs.{IsChecked};
ghost use Rattle.gimple_print.specs.Canonical.{text_of};
ghost use Rattle.gimple_syntax.specs.Reading.{SpellsModule};

/// The canonical text of a checked module spells that module. So `read_module` reads what `print_module` wrote as the
/// module that was printed, unless memory runs out, where the text has at most 2^32 - 2 bytes.
pub fn printed_is_read()
    ensures spelled { (m : AModule) → IsChecked m → SpellsModule (text_of m) m }
{}
