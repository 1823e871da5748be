//! The handle that C keeps.

ghost use Rattle.std.specs.Prelude.{◌≡◌, Option, None, Some, MatchOption};
ghost use Rattle.std.specs.contracts.impls.GlobalAllocator.TheImpl.{ghosts};
ghost use Rattle.daachorse_c.specs.Handle.{held_owns};
ghost use Rattle.daachorse_c.specs.contracts.automaton.Searcher.{the_row};
ghost use Rattle.daachorse_c.specs.Held.{Held};

use crate::automaton::Searcher;
use crate::loose::Loose;
use std::alloc::Global;
use std::marker::Model;
use std::mem;

/// Nothing, or an automaton on the heap. In C it is a struct of one pointer, null if empty.
#[repr(C)]
#[derive(Drop)]
pub struct Handle {
    at: *mut u8,
    alloc: Global,
    // The automaton that the handle holds, if any.
    pub ghost automaton: { Option Held },
}

impl Model for Handle {
    ghost also_owns = { λ h. held_owns (ghosts.dealloc_token h.alloc) the_row h.at h.automaton };
}

unsafe impl Send for Handle {}

impl Handle {
    /// An empty handle.
    fn none(alloc: Global) -> Handle
        ensures { result.automaton ≡ None }
    {
        let at = std::ptr::null_mut();
        Handle { at, alloc }
    }

    /// A handle that holds an automaton.
    fn of(loose: Loose<Searcher, Global>) -> Handle
        ensures { result.automaton ≡ Some loose.value }
    {
        let Loose { at, alloc } = loose;
        let at = at as *mut u8;
        Handle { at, alloc }
    }

    /// The automaton that the handle held, if any.
    fn into_loose(self) -> Option<Loose<Searcher, Global>>
        ensures { MatchOption result (self.automaton ≡ None) (λ l. self.automaton ≡ Some l.value) }
    {
        let Handle { at, alloc } = self;
        if at.is_null() {
            None
        } else {
            let at = at as *mut Searcher;
            Some(Loose { at, alloc })
        }
    }

    /// Takes the automaton out, if any, and leaves the handle empty.
    pub(crate) fn take(&mut self, alloc: Global) -> Option<Box<Searcher, Global>>
        ensures taken { MatchOption result (self.old.automaton ≡ None) (λ b. self.old.automaton ≡ Some b.value) }
        ensures empty { self.new.automaton ≡ None }
    {
        let held = mem::replace(self, Handle::none(alloc));
        match held.into_loose() {
            Some(loose) => Some(loose.into_box()),
            None => None,
        }
    }

    /// Puts an automaton into an empty handle. What a full one held would never be freed.
    pub(crate) fn put(&mut self, automaton: Box<Searcher, Global>)
        requires { self.old.automaton ≡ None }
        ensures { self.new.automaton ≡ Some automaton.value }
    {
        *self = Handle::of(Loose::of(automaton));
    }

    /// Puts an automaton into the handle, and frees the one that it held.
    pub(crate) fn fill(&mut self, alloc: Global, automaton: Box<Searcher, Global>)
        ensures { self.new.automaton ≡ Some automaton.value }
    {
        let _old = self.take(alloc);
        self.put(automaton);
    }
}
