//! What a pass knows, what the slot holds, and what the rule is told of the cell, as plain data.
use std::collections::LinkedList;
use std::snapshot::Snapshot;

/// What a pass knows. No value of it is made when a program runs.
pub struct View<S, E> {
    /// The cell's first state; None once another pass has taken this one in.
    pub first: Option<S>,
    /// How many calls the cell has room for.
    pub calls: u64,
    /// How many calls the pass may still make.
    pub allowance: u64,
    /// The history so far, as far as the pass has seen it.
    pub seen: LinkedList<E>,
    /// A beginning of what was seen: the shorter of two histories that a join has put together.
    pub told: LinkedList<E>,
    /// The places of its own entries in the history.
    pub own: LinkedList<u64>,
    /// The places of the passes that it took in, a list for each.
    pub others: LinkedList<LinkedList<u64>>,
    /// Whether it has the turn.
    pub turn: bool,
}

/// What the slot holds: the state, and the entries that led to it.
#[derive(Drop)]
pub struct Held<S, E> {
    pub state: S,
    pub journal: Vec<E>,
}

/// What the rule is told of the cell: its first state, and how many calls it has room for.
#[derive(Drop)]
pub struct Origin<S> {
    pub first: Snapshot<S>,
    pub calls: u64,
}
