//! An allocator for tests that refuses one request, chosen by its number, or all large ones.
//!
//! [`each_request`] refuses each request of a call in turn. The allocator is shared as
//! `&Refusing<Global>`, which is `Copy`. Its blocks are proved to be those of the inner allocator.
//! Which request is refused is only tested, since no contract can say what a cell holds.
#![tactic(auto)]

use std::alloc::{AllocError, Allocator, Global};
use std::cell::Cell;

/// Which requests are refused.
#[derive(Clone, Copy)]
enum Rule {
    /// The one after so many others.
    After(u64),
    /// No further one.
    Done,
    /// Those for more bytes than this.
    Above(usize),
}

/// An allocator that refuses some requests and passes the others on.
pub struct Refusing<B: Allocator> {
    inner: B,
    rule: Cell<Rule>,
}

impl<B: Allocator> Refusing<B> {
    /// Refuses only request number `number`, counted from 0. A growth is one request.
    pub fn new(inner: B, number: u64) -> Refusing<B> {
        Refusing {
            inner,
            rule: Cell::new(Rule::After(number)),
        }
    }

    /// Refuses only the requests for more than `most` bytes.
    pub fn above(inner: B, most: usize) -> Refusing<B> {
        Refusing {
            inner,
            rule: Cell::new(Rule::Above(most)),
        }
    }

    /// Whether the request that was chosen by its number was refused.
    pub fn has_refused(&self) -> bool {
        matches!(self.rule.get(), Rule::Done)
    }
}

impl<B: Allocator> Drop for Refusing<B> {
    fn drop(self) {
        let Self { inner: _, rule: _ } = self;
    }
}

// Counts a request for so many bytes, and returns whether to refuse it.
fn refuses(rule: &Cell<Rule>, size: usize) -> bool {
    match rule.get() {
        Rule::After(0) => {
            rule.set(Rule::Done);
            true
        }
        Rule::After(left) => {
            rule.set(Rule::After(left - 1));
            false
        }
        Rule::Done => false,
        Rule::Above(most) => size > most,
    }
}

unsafe impl<B: Allocator> Allocator for Refusing<B> {
    ghost dealloc_token = { λ heap ty ptr. B.dealloc_token heap.inner ty ptr };

    fn allocate(&self, size: usize, align: usize) -> Result<*mut u8, AllocError> {
        if refuses(&self.rule, size) {
            return Err(AllocError);
        }
        self.inner.allocate(size, align)
    }

    unsafe fn deallocate(&self, ptr: *mut u8, size: usize, align: usize) {
        self.inner.deallocate(ptr, size, align);
    }
}

/// The outcome of a call that may run out of memory.
#[derive(Clone, Copy, PartialEq, Eq, Debug, Drop)]
pub enum Answer {
    Right,
    Refused,
    Wrong,
}

/// A call that allocates.
pub trait Call {
    /// Makes the call with this memory. `Refused` means that it ran out of memory, and left all
    /// else as it should be.
    fn answer(&self, heap: &Refusing<Global>) -> Answer;
}

/// Whether a call is refused at each request in turn, and right if none is refused.
pub fn each_request<C: Call>(alloc: Global, call: &C) -> bool {
    for number in 0..100_000u64 {
        let heap = Refusing::new(alloc, number);
        let answer = call.answer(&heap);
        if !heap.has_refused() {
            return answer == Answer::Right;
        }
        if answer != Answer::Refused {
            return false;
        }
    }
    false
}
