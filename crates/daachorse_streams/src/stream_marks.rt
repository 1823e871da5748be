//! What the leftmost streams over one automaton share.

use std::alloc::Allocator;

/// Which states of an automaton have a child, and how long its longest pattern is. Any number of
/// leftmost streams over the automaton share it.
#[derive(Drop)]
pub struct StreamMarks<A: Allocator> {
    /// For each state whether it has a child.
    pub children: Vec<bool, A>,
    /// How many bytes the longest pattern has, or 0 if there is none.
    pub longest: usize,
}
