//! Whether the objects of a link are few enough to be merged.
ghost use Rattle.std.specs.Prelude.{◌↔◌, IsTrue};
ghost use Rattle.symbol_resolution.specs.Merging.{AreFew};

use lto_object::Object;

/// Whether the objects are so few that they can be merged: at most 256, with fewer than 2^26 functions and 2^31 arrays in all.
pub fn are_few(objects: &[Object<'_>]) -> bool
    ensures { IsTrue result ↔ AreFew objects.now }
{
    let mut functions = 0u64;
    let mut arrays = 0u64;
    for object in objects {
        let source = object.module();
        functions = functions.saturating_add(source.functions.len() as u64);
        arrays = arrays.saturating_add(source.arrays.len() as u64);
    }
    objects.len() <= 256 && functions < 1 << 26 && arrays < 1 << 31
}
