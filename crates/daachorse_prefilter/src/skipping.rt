//! A prefilter with a gate, and with buckets if there are some, which moves a haystack on to the
//! next candidate.
//!
//! It is asked while its gate is open. No match of a search depends on the gate.

ghost use Rattle.std.specs.Prelude.{◌≡◌, ◌↔◌, ℕ, List, [], None, option_map, encode_utf8_all, IsTrue};
ghost use Rattle.daachorse_prefilter.specs.Gates.{HasRecorded, IsPaying};
ghost use Rattle.daachorse_haystack.specs.Filters.{IsNextPassing};
ghost use Rattle.daachorse_model.specs.Units.{byte_width, char_width};
ghost use Rattle.daachorse_prefilter.specs.Asked.{HasRecordedSkip, IsOpenWhilePaying, IsUnused, IsWorthAsking, lets_pass};
ghost use Rattle.daachorse_prefilter.specs.Buckets.{may_begin};

use crate::buckets::{Buckets, BucketsGate};
use crate::places::{first_boundary, first_place};
use crate::prefilter::{Prefilter, PrefilterGate};
use daachorse_haystack::filter::Filter;
use daachorse_haystack::haystack::{Bytes, Haystack};
use daachorse_haystack::text::Text;
use std::alloc::{Allocator, Global};
use std::marker::Model;

/// The prefilter of an automaton, if it has one, during one search, and the buckets of its
/// patterns, if candidates are found by these.
#[derive(Drop)]
pub struct Skipping<'a, A: Allocator = Global> {
    filter: Option<&'a Prefilter<A>>,
    buckets: Option<&'a Buckets<A>>,
    gate: PrefilterGate,
    buckets_gate: BucketsGate,
}

impl<'a, A: Allocator> Model for Skipping<'a, A> {
    ghost use Rattle.std.specs.Prelude.{option_map};
    ghost use Rattle.daachorse_prefilter.specs.Asked.{Asked};

    ghost Value = { Asked };

    ghost view = { λ s. record { filter = option_map (λ f. f.now) s.filter; buckets = option_map (λ b. b.now) s.buckets; gate = s.gate; buckets_gate_is_open = s.buckets_gate.is_open } };
}

impl<'a, A: Allocator> Skipping<'a, A> {
    /// The prefilter, if there is one, behind an open gate.
    #[inline(always)]
    pub fn new(filter: Option<&'a Prefilter<A>>) -> Self
        ensures filter { result.filter ≡ option_map (λ f. f.now) filter.entry }
        ensures alone { result.buckets ≡ None }
        ensures gate { HasRecorded result.gate [] }
        ensures buckets_gate { IsTrue result.buckets_gate_is_open }
    {
        Self {
            filter,
            buckets: None,
            gate: PrefilterGate::new(),
            buckets_gate: BucketsGate::new(),
        }
    }

    /// The same prefilter and gates, with candidates found by these buckets, if any.
    #[inline(always)]
    pub fn with_buckets(self, buckets: Option<&'a Buckets<A>>) -> Self
        ensures filter { result.filter ≡ self.entry.filter }
        ensures buckets { result.buckets ≡ option_map (λ b. b.now) buckets.entry }
        ensures gate { result.gate ≡ self.entry.gate }
        ensures buckets_gate { result.buckets_gate_is_open ≡ self.entry.buckets_gate_is_open }
    {
        Self {
            filter: self.filter,
            buckets,
            gate: self.gate,
            buckets_gate: self.buckets_gate,
        }
    }

    /// Whether there is a prefilter behind open gates.
    #[inline(always)]
    fn is_worth(&self) -> bool
        ensures unused { IsUnused self.now → IsTrue result }
        ensures asked { IsTrue result → IsWorthAsking self.now }
        ensures paying { IsOpenWhilePaying self.now result }
    {
        self.filter.is_some() && self.are_open()
    }

    /// Whether both gates are open.
    #[inline(always)]
    fn are_open(&self) -> bool
        ensures { (gains : List ℕ) → HasRecorded self.now.gate gains → IsTrue result ↔ (IsPaying gains × IsTrue self.now.buckets_gate_is_open) }
    {
        self.gate.is_enabled() && self.buckets_gate.is_open()
    }
}

impl<'a, 'h, A: Allocator> Filter<u8, Bytes<'h>> for Skipping<'a, A> {
    ghost passes = { λ s w. lets_pass (may_begin s.buckets) s.filter w };

    ghost opened = { λ s. IsUnused s };

    ghost may_ask = { λ s. IsWorthAsking s };

    #[inline(always)]
    fn is_open(&self) -> bool
        ensures unused { IsUnused self.now → IsTrue result }
        ensures asked { IsTrue result → IsWorthAsking self.now }
        ensures paying { IsOpenWhilePaying self.now result }
    {
        self.is_worth()
    }

    #[inline(always)]
    fn skip(&mut self, rest: &mut Bytes<'h>)
        ensures passes { (w : List ℕ) → lets_pass (may_begin self.new.buckets) self.new.filter w ≡ lets_pass (may_begin self.old.buckets) self.old.filter w }
        ensures goes { IsNextPassing (λ w. lets_pass (may_begin self.old.buckets) self.old.filter w) rest.old rest.new }
        ensures records { HasRecordedSkip byte_width self.old rest.old rest.new self.new }
        ensures stays { self.old.buckets ≡ None → self.new.buckets_gate_is_open ≡ self.old.buckets_gate_is_open }
    {
        if let Some(filter) = self.filter {
            let (bytes, folds) = rest.unread();
            let gain = first_place(filter, self.buckets, bytes, folds);
            self.gate.record(gain);
            self.buckets_gate = self.buckets_gate.after(self.buckets.is_some(), gain);
            *rest = rest.after(gain);
        }
    }
}

impl<'a, 'h, A: Allocator> Filter<char, Text<'h>> for Skipping<'a, A> {
    ghost passes = { λ s w. lets_pass (may_begin s.buckets) s.filter (encode_utf8_all w) };

    ghost opened = { λ s. IsUnused s };

    ghost may_ask = { λ s. IsWorthAsking s };

    #[inline(always)]
    fn is_open(&self) -> bool
        ensures unused { IsUnused self.now → IsTrue result }
        ensures asked { IsTrue result → IsWorthAsking self.now }
        ensures paying { IsOpenWhilePaying self.now result }
    {
        self.is_worth()
    }

    #[inline(always)]
    fn skip(&mut self, rest: &mut Text<'h>)
        ensures passes { (w : List ℕ) → lets_pass (may_begin self.new.buckets) self.new.filter (encode_utf8_all w) ≡ lets_pass (may_begin self.old.buckets) self.old.filter (encode_utf8_all w) }
        ensures goes { IsNextPassing (λ w. lets_pass (may_begin self.old.buckets) self.old.filter (encode_utf8_all w)) rest.old rest.new }
        ensures records { HasRecordedSkip char_width self.old rest.old rest.new self.new }
        ensures stays { self.old.buckets ≡ None → self.new.buckets_gate_is_open ≡ self.old.buckets_gate_is_open }
    {
        if let Some(filter) = self.filter {
            let (text, folds) = rest.unread();
            let gain = first_boundary(filter, self.buckets, text, folds);
            self.gate.record(gain);
            self.buckets_gate = self.buckets_gate.after(self.buckets.is_some(), gain);
            *rest = rest.after(gain);
        }
    }
}
