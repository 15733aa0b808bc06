//! That the sections of a laid out file stand where `Offsets` says.
ghost use Rattle.std.specs.Prelude.{◌≡◌, ◌<◌, ◌^◌, ℕ, List, length, take, drop, slice_get, Some};
ghost use Rattle.elf_container.specs.declared.sections.OwnSection.{OwnSection};
ghost use Rattle.elf_container.specs.Layout.{layout_of};
ghost use Rattle.elf_container.specs.Container.{IsContainer};
ghost use Rattle.elf_container.specs.Offsets.{offset_of, table_of, header_of, size_of};
ghost use Rattle.elf_container.specs.Reading.{shoff, header_at};

/// A section's bytes stand at its offset, the file's header tells where the table is, a section's header tells its offset, and the
/// file has its size.
pub fn sections_stand_in_order()
    ensures section { (ss : List OwnSection) (place : ℕ) (s : OwnSection) → slice_get ss place ≡ Some s → take (length s.bytes) (drop (offset_of ss place) (layout_of ss)) ≡ s.bytes }
    ensures table { (ss : List OwnSection) → IsContainer ss → size_of ss < 2 ^ 64 → shoff (layout_of ss) ≡ table_of ss }
    ensures header { (ss : List OwnSection) (place : ℕ) (s : OwnSection) → IsContainer ss → size_of ss < 2 ^ 64 → slice_get ss place ≡ Some s → (header_at (header_of ss place) (layout_of ss)).offset ≡ offset_of ss place }
    ensures size { (ss : List OwnSection) → length (layout_of ss) ≡ size_of ss }
{}
