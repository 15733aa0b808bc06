//! What laying out asks of a section, whoever owns its bytes.
ghost use Rattle.std.specs.Prelude.{◌≡◌};
ghost use Rattle.elf_container.specs.declared.sections.OwnSection.{OwnSection};
ghost use Rattle.elf_container.specs.Layout.{fields_of};
ghost use Rattle.elf_container.specs.Container.{FieldsFit};
ghost use Rattle.elf_container.specs.Views.{owned};

use crate::sections::{Fields, OwnSection, Section};
use gimple_ir::Name;

/// A section whose header and bytes can be written. Contracts see it as a section with bytes of its own.
pub trait Placed {
    ghost as_own: { Self → OwnSection };

    fn name(&self) -> &Name
        ensures { result.now ≡ (as_own self.now).name };

    fn fields(&self) -> Fields
        ensures value { result ≡ fields_of (as_own self.now) }
        ensures fit { FieldsFit result };

    fn bytes(&self) -> &[u8]
        ensures { result.now ≡ (as_own self.now).bytes };
}

impl Placed for OwnSection {
    ghost as_own = { λ s. s };

    fn name(&self) -> &Name {
        &self.name
    }

    fn fields(&self) -> Fields {
        Fields::new(self.kind, self.flags, self.link, self.info, self.entry_size)
    }

    fn bytes(&self) -> &[u8] {
        self.bytes.as_slice()
    }
}

impl<'a> Placed for Section<'a> {
    ghost as_own = { λ s. owned s };

    fn name(&self) -> &Name {
        &self.name
    }

    fn fields(&self) -> Fields {
        Fields::new(self.kind, self.flags, self.link, self.info, self.entry_size)
    }

    fn bytes(&self) -> &[u8] {
        self.bytes
    }
}
