// The object of a text, and the text of an object.
ghost use Rattle.std.specs.Prelude.{◌≡◌, ◌<◌, ◌≤◌, ◌-◌, ◌^◌, [], length, IfOk, IfErr};
ghost use Rattle.gimple_syntax.specs.Reading.{SpellsModule};
ghost use Rattle.lto_object.specs.Objects.{object_of as object_bytes};
ghost use Rattle.lto_object.specs.ObjectReading.{read_of, Fails};
ghost use Rattle.whopr_top.specs.Judgements.{Gives, show_by};

use gimple_ir::{Module, NoMemory};
use gimple_print::print_module;
use lto_object::{ObjectError, lgen, read_object};
use std::alloc::Global;
use text_laws::read_is_checked;

/// The object of a module that a text spells.
pub fn object_of(alloc: Global, text: &[u8], source: &Module) -> Result<Vec<u8>, NoMemory>
    requires short { length text.now < 2 ^ 32 - 1 }
    requires spelled { SpellsModule text.now source.now }
    ensures { IfOk result (λ bytes. bytes.items ≡ object_bytes source.now) }
{
    read_is_checked();
    lgen(alloc, source)
}

/// The canonical text of an object's module.
pub fn shown(alloc: Global, bytes: &[u8]) -> Result<Vec<u8>, ObjectError>
    requires { length bytes.now ≤ 2 ^ 32 - 2 }
    ensures gives { IfOk result (λ text. Gives [] text.items ≡ show_by (read_of bytes.now)) }
    ensures refused { IfErr result (λ e. Fails e (read_of bytes.now)) }
{
    let object = read_object(alloc, bytes)?;
    Ok(print_module(alloc, object.module())?)
}
