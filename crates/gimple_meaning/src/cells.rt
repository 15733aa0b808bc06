//! The components of a frame, each with its value where it is set.
ghost use Rattle.std.specs.Prelude.{◌≡◌, ◌+◌, ◌<◌, ◌^◌, All, IfSome, slice_set};
ghost use Rattle.gimple_ir.specs.Values.{IsValue};
ghost use Rattle.gimple_ir.specs.Programs.{IsOperand};
ghost use Rattle.gimple_meaning.specs.Acts.{cell, copied, value_at};
ghost use Rattle.gimple_meaning.specs.Source.{pairs_from};
ghost use Rattle.gimple_meaning.specs.Held.{IsCell};

use gimple_ir::{Operand, Value};
use std::marker::Model;

/// The components of a frame, each with its value where it is set.
#[derive(Drop)]
pub struct Cells {
    items: Vec<Option<Value>>,
}

impl Model for Cells {
    ghost use Rattle.std.specs.Prelude.{List, Option};
    ghost use Rattle.gimple_ir.specs.declared.types.Value.{Value as Number};

    ghost Value = { List (Option Number) };

    ghost use Rattle.std.specs.Prelude.{All};
    ghost use Rattle.gimple_meaning.specs.Held.{IsCell};

    ghost view = { λ cells. cells.items.items };

    ghost invariant = { λ cells. All IsCell cells.items.items };
}

impl Cells {
    /// The components of a new frame.
    pub fn from_vec(items: Vec<Option<Value>>) -> Cells
        requires { All IsCell items.items }
        ensures { result ≡ items.items }
    {
        Cells { items }
    }

    /// The component of this number; one that is not there is unset.
    pub fn get(&self, place: usize) -> Option<Value>
        ensures value { result ≡ cell self.now place }
        ensures well_formed { IfSome result IsValue }
    {
        match self.items.get(place) {
            Some(component) => *component,
            None => None,
        }
    }

    /// An operand's value, or None where it is unset.
    pub fn read(&self, operand: Operand) -> Option<Value>
        requires { IsOperand operand }
        ensures value { result ≡ value_at self.now operand }
        ensures well_formed { IfSome result IsValue }
    {
        match operand {
            Operand::Component(place) => self.get(place as usize),
            Operand::Literal(value) => Some(value),
        }
    }

    /// Sets a component, if it is there.
    pub fn set(&mut self, place: usize, value: Option<Value>)
        requires { IsCell value }
        ensures { self.new ≡ slice_set self.old place value }
    {
        if place < self.items.len() {
            self.items[place] = value;
        }
    }

    /// Copies components in order: as many as `count`, to those from `to` on, from those from `from` on.
    pub fn copy(&mut self, to: usize, from: usize, count: usize)
        requires to { to + count < 2 ^ 64 }
        requires from { from + count < 2 ^ 64 }
        ensures { self.new ≡ copied self.old (pairs_from to from count) }
    {
        for place in 0..count {
            let value = self.get(from + place);
            self.set(to + place, value);
        }
    }
}
