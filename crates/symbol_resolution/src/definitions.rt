//! What the symbols of a name come to.
ghost use Rattle.std.specs.Prelude.{◌≡◌};
ghost use Rattle.symbol_resolution.specs.Symbols.{kind_by};
ghost use Rattle.symbol_resolution.specs.Definitions.{no_definitions, prevailing_by, with_linkage};

use gimple_ir::Linkage;
use resolution_text::ResolutionKind;

/// Where a symbol stands: its object, and its place in that object's list.
#[derive(Clone, Copy)]
pub struct SymbolPlace {
    pub object: usize,
    pub place: usize,
}

/// What the symbols of a name come to.
#[derive(Clone, Copy)]
pub struct Definitions {
    /// The first strong definition.
    pub strong: Option<SymbolPlace>,
    /// The first weak definition.
    pub weak: Option<SymbolPlace>,
    /// There is a second strong definition.
    pub doubled: bool,
}

impl Definitions {
    pub fn none() -> Definitions
        ensures { result ≡ no_definitions }
    {
        Definitions {
            strong: None,
            weak: None,
            doubled: false,
        }
    }

    /// With one more symbol.
    pub fn with(self, at: SymbolPlace, linkage: Linkage) -> Definitions
        ensures { result ≡ with_linkage self at linkage }
    {
        match linkage {
            Linkage::Strong => Definitions {
                strong: self.strong.or(Some(at)),
                weak: self.weak,
                doubled: self.doubled || self.strong.is_some(),
            },
            Linkage::Weak => Definitions {
                strong: self.strong,
                weak: self.weak.or(Some(at)),
                doubled: self.doubled,
            },
            Linkage::Extern | Linkage::Static => self,
        }
    }

    pub fn prevailing(&self) -> Option<SymbolPlace>
        ensures { result ≡ prevailing_by self.now }
    {
        self.strong.or(self.weak)
    }

    /// What is wrong with the name.
    pub fn fault(&self) -> Option<ResolutionKind>
        ensures { result ≡ kind_by self.now.doubled (prevailing_by self.now) }
    {
        if self.doubled {
            return Some(ResolutionKind::TwoPrevailing);
        }
        match self.prevailing() {
            Some(_) => None,
            None => Some(ResolutionKind::NoPrevailing),
        }
    }
}
