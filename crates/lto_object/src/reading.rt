//! Reading an object, up to its first fault.
ghost use Rattle.std.specs.Prelude.{◌≡◌, ◌≤◌, ◌^◌, ◌-◌, Ok, length, IfOk};
ghost use Rattle.gimple_ir.specs.declared.types.Module.{Module};
ghost use Rattle.gimple_ir.specs.Programs.{IsChecked};
ghost use Rattle.elf_container.specs.Offsets.{size_of};
ghost use Rattle.elf_container.specs.Layout.{layout_of};
ghost use Rattle.lto_object.specs.Objects.{object_of, IsObject};
ghost use Rattle.lto_object.specs.Forms.{IsForm, sections_fault};
ghost use Rattle.lto_object.specs.ObjectReading.{fault_by, unless, read_file, read_of, Gives, GivesSeen};

use crate::checks::checked;
use crate::fault::{ObjectError, ObjectFault};
use crate::form::sections_fault;
use crate::object::Object;
use crate::streams::read_streams;
use elf_container::{ElfError, ElfFault, ElfKind, RelView, read_rel};
use std::alloc::Global;

fn fault_by(fault: ElfFault) -> ObjectFault
    ensures { result ≡ fault_by fault.kind fault.offset }
{
    let offset = fault.offset;
    match fault.kind {
        ElfKind::NotElf => ObjectFault::NotElf { offset },
        ElfKind::WrongClass => ObjectFault::WrongClass { offset },
        ElfKind::WrongMachine => ObjectFault::WrongMachine { offset },
        ElfKind::Truncated => ObjectFault::Truncated { offset },
        ElfKind::Trailing => ObjectFault::Trailing { offset },
        ElfKind::Compressed => ObjectFault::Compressed { offset },
        ElfKind::BadLayout => ObjectFault::BadLayout { offset },
    }
}

/// The sections, where they are those of an object.
fn with_form(alloc: Global, view: RelView<'_>) -> Result<RelView<'_>, ObjectError>
    ensures exact { GivesSeen (λ ss. ss) result (unless (sections_fault view.entry) (Ok view.entry)) }
    ensures same { IfOk result (λ ss. ss ≡ view.entry) }
    ensures form { IfOk result IsForm }
{
    match sections_fault(alloc, &view)? {
        None => Ok(view),
        Some(fault) => Err(ObjectError::Fault(fault)),
    }
}

/// The sections of an object.
#[tactic(auto, unfolding(crate::specs::ObjectReading::read_file))]
fn read_file(alloc: Global, bytes: &[u8]) -> Result<RelView<'_>, ObjectError>
    ensures exact { GivesSeen (λ ss. ss) result (read_file bytes.now) }
    ensures form { IfOk result IsForm }
    ensures size { IfOk result (λ ss. size_of ss ≡ length bytes.now) }
    ensures laid { IfOk result (λ ss. bytes.now ≡ layout_of ss) }
{
    match read_rel(alloc, bytes) {
        Err(ElfError::NoMemory) => Err(ObjectError::NoMemory),
        Err(ElfError::Fault(fault)) => Err(ObjectError::Fault(fault_by(fault))),
        Ok(view) => with_form(alloc, view),
    }
}

#[tactic(auto, unfolding(crate::specs::ObjectReading::read_of))]
fn object(alloc: Global, bytes: &[u8]) -> Result<Object<'_>, ObjectError>
    requires { length bytes.now ≤ 2 ^ 32 - 2 }
    ensures exact { Gives result (read_of bytes.now) }
    ensures found { IfOk result (λ o. IsObject o × (bytes.now ≡ object_of o.source)) }
{
    let view = read_file(alloc, bytes)?;
    let streams = read_streams(alloc, &view)?;
    checked(alloc, streams)
}

/// The object that the bytes are, which lends the bytes of the bodies, or its first fault. It asks for at most 2^32 - 2 bytes.
pub fn read_object(alloc: Global, bytes: &[u8]) -> Result<Object<'_>, ObjectError>
    requires { length bytes.now ≤ 2 ^ 32 - 2 }

    // What is read is the object of a checked module, with its summaries, symbols and bodies.
    ensures found { IfOk result (λ o. IsObject o × (bytes.now ≡ object_of o.source)) }

    // The object of a checked module is read as that module, unless memory runs out.
    ensures only { (m : Module) → IsChecked m → bytes.now ≡ object_of m → Gives result (Ok m) }

    // Which fault it is: the first, in the order of the definition.
    ensures exact { Gives result (read_of bytes.now) }
{
    object(alloc, bytes)
}
