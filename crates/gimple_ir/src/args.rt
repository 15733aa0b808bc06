//! The arguments of a call.
ghost use Rattle.std.specs.Prelude.{◌≡◌, [], ◌∷◌, ◌++◌, ◌<◌, length, slice_get, Some, IfOk, OnOk, OnErr};

use crate::NoMemory;
use crate::types::Arg;
use smallvec::SmallVec;
use std::alloc::Global;
use std::marker::Model;

/// The arguments of a call, of which one takes no memory of its own.
#[derive(Debug, Drop)]
pub struct Args {
    items: SmallVec<Arg, 1, Global>,
}

impl Model for Args {
    ghost use Rattle.std.specs.Prelude.{List};
    ghost use Rattle.gimple_ir.specs.declared.types.Arg.{Arg};

    ghost Value = { List Arg };

    ghost view = { λ args. args.items.items };
}

impl Args {
    /// No arguments.
    pub fn new(alloc: Global) -> Args
        ensures { result ≡ [] }
    {
        Args {
            items: SmallVec::new(alloc),
        }
    }

    /// Adds an argument at the end; after `NoMemory` they are as before.
    pub fn push(&mut self, item: Arg) -> Result<(), NoMemory>
        ensures ok { OnOk result (self.new ≡ self.old ++ item ∷ []) }
        ensures err { OnErr result (self.new ≡ self.old) }
    {
        self.items.push(item)?;
        Ok(())
    }

    /// The number of arguments.
    pub fn len(&self) -> usize
        ensures { result ≡ length self.now }
    {
        self.items.len()
    }

    /// The argument at a place below `len`.
    pub fn get(&self, place: usize) -> &Arg
        requires { place < length self.now }
        ensures { slice_get self.now place ≡ Some result.now }
    {
        &self.items.as_slice()[place]
    }

    /// All arguments, in order.
    pub fn as_slice(&self) -> &[Arg]
        ensures { result.now ≡ self.now }
    {
        self.items.as_slice()
    }

    /// Equal arguments.
    pub fn copy(&self) -> Result<Args, NoMemory>
        ensures { IfOk result (λ args. args ≡ self.now) }
    {
        let items = SmallVec::from_slice(*self.items.allocator(), self.items.as_slice())?;
        Ok(Args { items })
    }
}
