//! The numbers that the generator draws.
ghost use Rattle.std.specs.Prelude.{◌≡◌, ◌<◌};
ghost use Rattle.workload_gen.specs.Draws.{next, drawn};

/// The state of a linear congruence modulo 2^64.
#[derive(Clone, Copy)]
pub struct Draws {
    pub state: u64,
}

impl Draws {
    /// The next number below the bound.
    pub fn draw(&mut self, bound: u32) -> u32
        requires { 0 < bound }
        ensures state { self.new.state ≡ next self.old.state }
        ensures value { result ≡ drawn (next self.old.state) bound }
        ensures below { result < bound }
    {
        self.state = next_state(self.state);
        (self.state >> 33) as u32 % bound
    }
}

fn next_state(state: u64) -> u64
    ensures { result ≡ next state }
{
    state
        .wrapping_mul(6364136223846793005)
        .wrapping_add(1442695040888963407)
}
