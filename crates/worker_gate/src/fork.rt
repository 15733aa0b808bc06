//! The fork: runs works side by side, each once.
ghost use Rattle.std.specs.Prelude.{◌≡◌, ◌≤◌, ℕ, length, All};
ghost use Rattle.worker_gate.specs.Fork.{Each};
ghost use denote.Param.Send.{IsSync};

use std::thread::{Threads, join_mut};

/// A piece of work, which changes what it is given. One that waits has a reference to a runtime among its fields.
pub trait Work {
    /// What `run` asks of the work before.
    ghost asks: { Self → Type 0 };

    /// What `run` leaves, of the work before and after.
    ghost leaves: { Self → Self → Type 0 };

    /// Does the work. It may wait.
    fn run(&mut self)
        requires { asks self.old }
        ensures { leaves self.old self.new };
}

/// Runs each work once, and returns when all have ended.
///
/// The row of works is halved until one is left, and the halves are joined, each in a thread where one can be had and
/// else one after the other. So no fork is ever refused.
#[tactic(auto, using(crate::proofs::Works::each_append))]
pub fn fork_workers<R: Threads + Sync, W: Work + Send>(rt: &R, works: &mut [W])
    requires asks { All W.asks works.old }
    ensures each { Each W.leaves works.old works.new }
{
    match works {
        [] => (),
        [only] => only.run(),
        _ => {
            let (front, back) = works.split_at_mut(works.len() / 2);
            join_mut(
                rt,
                &mut ||
                    requires { IsSync R.row × All W.asks front.now }
                    ensures { Each W.leaves front.entry.now front.exit.now }
                { fork_workers(rt, front) },
                &mut ||
                    requires { IsSync R.row × All W.asks back.now }
                    ensures { Each W.leaves back.entry.now back.exit.now }
                { fork_workers(rt, back) },
            );
        }
    }
}
