//! An object that was read.
ghost use Rattle.std.specs.Prelude.{◌≡◌, map, slice_get, IfSome};
ghost use Rattle.gimple_ir.specs.Programs.{IsChecked};
ghost use Rattle.func_summary.specs.Summaries.{summary_of};
ghost use Rattle.module_stream.specs.Bodies.{body_of};
ghost use Rattle.lto_object.specs.Objects.{IsDefinition, IsObject, symbols_of, ranks_of};

use crate::symbol::Symbol;
use gimple_ir::{List, Module, Summary};
use std::marker::Model;

/// An object that was read. It lends the bytes of the bodies from the file. Contracts see its module, and the summaries, symbols and
/// bodies, which are those of the module.
#[derive(Drop)]
pub struct Object<'a> {
    source: Module,
    summaries: List<Summary>,
    symbols: List<Symbol>,
    bodies: Vec<&'a [u8]>,
    /// For each function how many functions with a body stand before it.
    ranks: Vec<u32>,
}

impl<'a> Model for Object<'a> {
    ghost use Rattle.std.specs.Prelude.{◌≡◌, map};
    ghost use Rattle.lto_object.specs.Objects.{ObjectData, IsObject, ranks_of};

    ghost Value = { ObjectData };

    ghost view = { λ o. record { source = o.source; summaries = o.summaries; symbols = o.symbols; bodies = map (λ b. b.now) o.bodies.items } };

    ghost invariant = { λ o. IsObject (record { source = o.source; summaries = o.summaries; symbols = o.symbols; bodies = map (λ b. b.now) o.bodies.items }) × (o.ranks.items ≡ ranks_of o.source.functions) };
}

impl<'a> Object<'a> {
    pub(crate) fn new(
        source: Module,
        summaries: List<Summary>,
        symbols: List<Symbol>,
        bodies: Vec<&'a [u8]>,
        ranks: Vec<u32>,
    ) -> Object<'a>
        requires object { IsObject (record { source = source; summaries = summaries; symbols = symbols; bodies = map (λ b. b.now) bodies.items }) }
        requires ranks { ranks.items ≡ ranks_of source.functions }
        ensures source { result.source ≡ source }
        ensures summaries { result.summaries ≡ summaries }
        ensures symbols { result.symbols ≡ symbols }
    {
        Object {
            source,
            summaries,
            symbols,
            bodies,
            ranks,
        }
    }

    /// The module, with its bodies.
    pub fn module(&self) -> &Module
        ensures value { result.now ≡ self.now.source }

        // It passes the checks, and the rest of the object is the module's.
        ensures object { IsObject self.now }
    {
        &self.source
    }

    /// The summary of the function of this number, which has a body.
    pub fn summary(&self, place: u32) -> &Summary
        requires { IsDefinition self.now.source place }
        ensures { IfSome (slice_get self.now.source.functions place) (λ f. result.now ≡ summary_of self.now.source f) }
    {
        self.summaries.get(self.ranks[place as usize] as usize)
    }

    /// The symbols: of the arrays and then of the functions, in order.
    pub fn symbols(&self) -> &List<Symbol>
        ensures value { result.now ≡ self.now.symbols }
        ensures theirs { result.now ≡ symbols_of self.now.source }
    {
        &self.symbols
    }

    /// The bytes of the body of the function of this number, which has one.
    pub fn body(&self, place: u32) -> &[u8]
        requires { IsDefinition self.now.source place }
        ensures { IfSome (slice_get self.now.source.functions place) (λ f. result.now ≡ body_of f.body) }
    {
        self.bodies[self.ranks[place as usize] as usize]
    }
}
