//! The canonical text of a module, item by item.
ghost use Rattle.std.specs.Prelude.{◌≡◌, ◌++◌, OnOk, IfOk};
ghost use Rattle.std.specs.List.{flat_map};
ghost use Rattle.gimple_print.specs.Canonical.{struct_text, array_text, function_text, text_of};

use crate::items::{put_array, put_function, put_struct};
use gimple_ir::{Array, Module, NoMemory, StructDef};
use std::alloc::Global;

fn put_structs(out: &mut Vec<u8>, structs: &[StructDef]) -> Result<(), NoMemory>
    ensures { OnOk result (out.new.items ≡ out.old.items ++ flat_map struct_text structs.now) }
{
    for def in structs {
        put_struct(out, def)?;
    }
    Ok(())
}

fn put_arrays(out: &mut Vec<u8>, arrays: &[Array]) -> Result<(), NoMemory>
    ensures { OnOk result (out.new.items ≡ out.old.items ++ flat_map array_text arrays.now) }
{
    for array in arrays {
        put_array(out, array)?;
    }
    Ok(())
}

fn put_functions(alloc: Global, out: &mut Vec<u8>, source: &Module) -> Result<(), NoMemory>
    ensures { OnOk result (out.new.items ≡ out.old.items ++ flat_map (function_text source.now) source.now.functions) }
{
    let functions = source.functions.as_slice();
    for function in functions {
        put_function(alloc, out, source, function)?;
    }
    Ok(())
}

/// The canonical text of the module: structs, arrays and functions, as C17 would have them but for `switch`, which is
/// written as GCC dumps it. Of a module that is not checked, a number that names nothing is left out.
pub fn print_module(alloc: Global, source: &Module) -> Result<Vec<u8>, NoMemory>
    ensures text { IfOk result (λ text. text.items ≡ text_of source.now) }
{
    let mut out = Vec::new(alloc);
    put_structs(&mut out, source.structs.as_slice())?;
    put_arrays(&mut out, source.arrays.as_slice())?;
    put_functions(alloc, &mut out, source)?;
    Ok(out)
}
