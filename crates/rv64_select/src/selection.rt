//! The code of a function in an object.
ghost use Rattle.std.specs.Prelude.{◌≡◌, ◌*◌, ◌≤◌, length, IfOk, true, false};
ghost use Rattle.elf_container.specs.Relocatable.{relocs_from, named_in_order};
ghost use Rattle.gimple_ir.specs.Names.{repeats};
ghost use Rattle.rv64_frame.specs.Frames.{frame_of};
ghost use Rattle.rv64_select.specs.Selected.{words_of_code, names_of_code, relocations_of_code};
ghost use Rattle.gimple_meaning.specs.Versioned.{IsVersioned, bound_of};

use crate::labels::label_offsets;
use crate::names::named;
use crate::references::references_of;
use crate::steps::assembly;
use crate::words::words_of;
use elf_container::Reloc;
use gimple_ir::{List, Name, NoMemory, VersionedFunction};
use rv64_frame::FrameLayout;
use std::alloc::Global;

/// The code of a function. The fields that relocations fill are 0 in its words; a relocation's symbol is a place in `names`.
#[derive(Drop)]
pub struct FunctionCode {
    pub words: List<u32>,
    /// By ascending offsets from the function's first byte.
    pub relocations: List<Reloc>,
    /// In the order of their first relocation.
    pub names: List<Name>,
}

/// The code of a version with its frame. It takes time and memory in proportion to its words, but for the names, which are found in
/// a map.
pub fn code(
    alloc: Global,
    function: &VersionedFunction,
    layout: &FrameLayout,
) -> Result<FunctionCode, NoMemory>
    // its numbers name what is there, its frame has few slots, and its code bound is in the limit
    requires versioned { IsVersioned function.now }
    requires layout { layout.now ≡ frame_of function.now }
    ensures words { IfOk result (λ code. code.words ≡ words_of_code function.now) }
    ensures relocations { IfOk result (λ code. code.relocations ≡ relocations_of_code function.now) }
    ensures names { IfOk result (λ code. code.names ≡ names_of_code function.now) }
    // each relocation is at a word that it may fill, one behind the other
    ensures fills { IfOk result (λ code. relocs_from 0 code.words code.relocations ≡ true) }
    // they name the names in their order, and all of them
    ensures named { IfOk result (λ code. named_in_order 0 (length code.names) code.relocations ≡ true) }
    // no name stands twice
    ensures once { IfOk result (λ code. repeats code.names ≡ false) }
    ensures bound { IfOk result (λ code. 4 * length code.words ≤ bound_of function.now) }
{
    let items = assembly(alloc, function, layout)?;
    let offsets = label_offsets(alloc, function.labels, &items)?;
    let words = words_of(alloc, &offsets, &items)?;
    let references = references_of(alloc, &items)?;
    let named = named(alloc, function, &references)?;
    Ok(FunctionCode {
        words: List::from_vec(words),
        relocations: named.relocations,
        names: named.names,
    })
}
