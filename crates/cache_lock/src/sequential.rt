//! Objects of one thread, described by the entries of their calls.
ghost use Rattle.std.specs.Prelude.{◌≡◌};

/// An object of one thread. An entry tells of one call and its reply.
pub trait Sequential {
    type State: Drop + Send;

    type Call: Drop + Send;

    type Reply: Drop + Send;

    type Entry: Drop + Send;

    /// The entry may come in this state.
    ghost possible: { Self.State → Self.Entry → Type 0 };

    /// The state after the entry.
    ghost after: { Self.State → Self.Entry → Self.State };

    /// The call that the entry tells of.
    ghost call_of: { Self.Entry → Self.Call };

    /// The entry tells of this reply. It is a relation, since a reply and an entry may hold two copies of one shared value,
    /// which are alike and not equal.
    ghost tells: { Self.Entry → Self.Reply → Type 0 };

    /// Makes the call. Want of memory is part of the reply.
    fn apply(state: &mut Self::State, call: Self::Call) -> (Self::Reply, Self::Entry)
        ensures possible { possible state.old result.1 }
        ensures after { state.new ≡ after state.old result.1 }
        ensures call { call_of result.1 ≡ call }
        ensures reply { tells result.1 result.0 };
}
