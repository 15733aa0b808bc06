//! How often a number stands in lists, sums over lists, and lists that ascend: the words in which the draws of workers
//! and the places of a shared history are counted. `specs/Counts.antt` has them, and `proofs/Sums.antt` what holds of
//! them when one list among several changes. There is no code.
#![tactic(auto)]
