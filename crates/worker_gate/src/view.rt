//! What a seat knows, as plain data for contracts and the rule.
use std::collections::LinkedList;

/// What a seat knows. No value of it is made when a program runs.
pub struct SeatView {
    /// How many numbers the claims have.
    pub count: u64,
    /// Its part of the whole share, which is 65.
    pub share: u64,
    /// The numbers that it drew, in order.
    pub own: LinkedList<u64>,
    /// The draws of the seats that it took in, a list for each.
    pub lists: LinkedList<LinkedList<u64>>,
    /// Whether it draws no more.
    pub ended: bool,
}
