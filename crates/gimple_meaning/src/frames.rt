//! Frames, and the stack of those that wait for a call.
ghost use Rattle.std.specs.Prelude.{◌≡◌, [], ◌∷◌, ◌+◌, ◌<◌, ◌^◌, length, slice_set, OnOk, OnErr, IfErr, IfOk, IfSome, MatchOption};
ghost use Rattle.gimple_meaning.specs.Acts.{copied};
ghost use Rattle.gimple_meaning.specs.Held.{IsCell, HasNext};
ghost use Rattle.gimple_meaning.specs.Source.{pairs_from};
ghost use Rattle.gimple_meaning.specs.Systems.{fresh, moved};

use crate::cells::Cells;
use gimple_ir::{NoMemory, Value};
use std::alloc::Global;
use std::marker::Model;

/// An activation of a function.
#[derive(Drop)]
pub struct Frame {
    function: u32,
    place: u32,
    components: Cells,
}

impl Model for Frame {
    ghost use Rattle.gimple_meaning.specs.Systems.{Frame as Activation};

    ghost Value = { Activation };

    ghost view = { λ frame. record { function = frame.function; place = frame.place; components = frame.components } };
}

impl Frame {
    /// A frame at its first statement.
    pub fn new(function: u32, components: Cells) -> Frame
        ensures { result ≡ fresh function components }
    {
        Frame {
            function,
            place: 0,
            components,
        }
    }

    /// The number of its function.
    pub fn function(&self) -> u32
        ensures { result ≡ self.now.function }
    {
        self.function
    }

    /// The place of its next statement.
    pub fn place(&self) -> u32
        ensures { result ≡ self.now.place }
    {
        self.place
    }

    /// Its components.
    pub fn components(&self) -> &Cells
        ensures { result.now ≡ self.now.components }
    {
        &self.components
    }

    /// The place behind its own; one that a `u32` cannot number is refused as want of memory.
    pub fn next(&self) -> Result<u32, NoMemory>
        ensures { IfOk result (λ place. place ≡ self.now.place + 1) }
    {
        if self.place == u32::MAX {
            return Err(NoMemory);
        }
        Ok(self.place + 1)
    }

    /// Goes to a place.
    pub fn go_to(&mut self, place: u32)
        ensures { self.new ≡ moved self.old place self.old.components }
    {
        self.place = place;
    }

    /// Goes to a place with components copied: as many as `count`, to those from `to` on, from those from `from` on.
    pub fn copy(&mut self, place: u32, to: usize, from: usize, count: usize)
        requires to { to + count < 2 ^ 64 }
        requires from { from + count < 2 ^ 64 }
        ensures { self.new ≡ moved self.old place (copied self.old.components (pairs_from to from count)) }
    {
        self.components.copy(to, from, count);
        self.place = place;
    }

    /// Goes to a place with a component set.
    pub fn assign(&mut self, place: u32, to: usize, value: Option<Value>)
        requires { IsCell value }
        ensures { self.new ≡ moved self.old place (slice_set self.old.components to value) }
    {
        self.components.set(to, value);
        self.place = place;
    }
}

/// The frames that wait for a call, which contracts see with the newest first.
#[derive(Drop)]
pub struct Waiting {
    frames: Vec<Frame>,
}

impl Model for Waiting {
    ghost use Rattle.std.specs.Prelude.{List, reverse, All};
    ghost use Rattle.gimple_meaning.specs.Systems.{Frame as Activation};
    ghost use Rattle.gimple_meaning.specs.Held.{HasNext};

    ghost Value = { List Activation };

    ghost view = { λ waiting. reverse waiting.frames.items };

    ghost invariant = { λ waiting. All HasNext waiting.frames.items };
}

impl Waiting {
    /// No frames.
    pub fn new(alloc: Global) -> Waiting
        ensures { result ≡ [] }
    {
        Waiting {
            frames: Vec::new(alloc),
        }
    }

    /// The number of frames.
    pub fn len(&self) -> usize
        ensures { result ≡ length self.now }
    {
        self.frames.len()
    }

    /// Adds the newest frame, or gives it back.
    pub fn push(&mut self, frame: Frame) -> Result<(), Frame>
        requires { HasNext frame }
        ensures ok { OnOk result (self.new ≡ frame ∷ self.old) }
        ensures err { OnErr result (self.new ≡ self.old) }
        ensures back { IfErr result (λ given. given ≡ frame) }
    {
        match self.frames.push(frame) {
            Ok(()) => Ok(()),
            Err(failed) => Err(failed.value),
        }
    }

    /// Takes the newest frame.
    pub fn pop(&mut self) -> Option<Frame>
        ensures frames { MatchOption result ((self.old ≡ []) × (self.new ≡ [])) (λ frame. self.old ≡ frame ∷ self.new) }
        ensures next { IfSome result HasNext }
    {
        self.frames.pop()
    }
}
