//! What a handle holds, and the calls on it.

ghost use Rattle.std.specs.Prelude.{◌≡◌, ◌≢◌, ◌↔◌, [], None, IfErr, IfOk, IsTrue, OnErr, OnOk, false, length};
ghost use Rattle.std.specs.Arc.{arc_value};
ghost use Rattle.daachorse_model.specs.Kinds.{byte_of_kind};
ghost use Rattle.daachorse_c.specs.declared.refusal.Refusal.TheVariants.{OutOfMemory};
ghost use Rattle.daachorse_c.specs.Automata.{HasNoRoom, folds_of, kind_of};
ghost use Rattle.daachorse_c.specs.Counts.{AreCounts};
ghost use Rattle.daachorse_c.specs.Held.{automaton_of, has_rows};
ghost use Rattle.daachorse_c.specs.Listing.{IsNotListed, HasListed, arrays};
ghost use Rattle.daachorse_c.specs.Places.{GoesOn, IsStuckCause};
ghost use Rattle.daachorse_c.specs.Replacing.{HasReplaced, IsNotReplaced};
ghost use Rattle.daachorse_c.specs.Searches.{HasFound, IsAnswer, IsNotFound, IsUnreadCause};
ghost use Rattle.daachorse_c.specs.Streaming.{HasBegun, HasConsumed, HasEnded, IsIdleCause, IsNotBegun, IsUnendedCause};
ghost use Rattle.daachorse_c.specs.Written.{IsNotWritten, IsWhole, StandsInFront, form_of};

use crate::counts::Counts;
use crate::feeding::Done;
use crate::found::CMatch;
use crate::listing::{Listing, Room};
use crate::place::Place;
use crate::refusal::Refusal;
use crate::replacing::Texts;
use crate::room::{copy_to_front, put_in_front};
use crate::search::{SearchKind, StreamKind};
use crate::searches::Searches;
use crate::streams::Streams;
use std::alloc::Global;
use std::marker::Model;
use std::sync::Arc;

/// An automaton with 32-bit values, which several handles may share, and the stream that this one
/// searches, if any.
#[derive(Drop)]
pub struct Searcher {
    searches: Arc<Searches, Global>,
    stream: Option<Streams>,
}

impl Model for Searcher {
    ghost use Rattle.std.specs.Prelude.{IfSome, option_map};
    ghost use Rattle.std.specs.Arc.{arc_value};
    ghost use Rattle.daachorse_c.specs.Held.{Held, automaton_of, has_rows, stream_of};
    ghost use Rattle.daachorse_c.specs.Through.{GoesThrough};

    ghost Value = { Held };

    ghost view = { λ a. record { searches = automaton_of (arc_value a.searches); rows = has_rows (arc_value a.searches); stream = option_map stream_of a.stream } };

    ghost invariant = { λ a. IfSome a.stream (GoesThrough (automaton_of (arc_value a.searches))) };
}

impl Searcher {
    /// A searcher with no stream. Fails only if an allocation fails.
    pub(crate) fn new(alloc: Global, searches: Searches) -> Result<Box<Searcher, Global>, Refusal>
        ensures searches { IfOk result (λ b. b.value.searches ≡ automaton_of searches) }
        ensures stream { IfOk result (λ b. b.value.stream ≡ None) }
        ensures err { IfErr result (λ r. r ≡ OutOfMemory) }
    {
        Searcher::over(alloc, Arc::new(alloc, searches)?)
    }

    /// A searcher of a copy of the automaton, with rows unless it is too large, and no stream.
    /// Fails only if an allocation fails.
    pub(crate) fn accelerate(&self, alloc: Global) -> Result<Box<Searcher, Global>, Refusal>
        ensures searches { IfOk result (λ b. b.value.searches ≡ self.now.searches) }
        ensures rows { IfOk result (λ b. b.value.rows ≡ false → HasNoRoom self.now.searches) }
        ensures stream { IfOk result (λ b. b.value.stream ≡ None) }
        ensures err { IfErr result (λ r. r ≡ OutOfMemory) }
    {
        let copy = self.searches.accelerated(alloc)?;
        Searcher::over(alloc, Arc::new(alloc, copy)?)
    }

    /// The number of the kind of searches that the automaton is for.
    pub(crate) fn kind(&self) -> u32
        ensures { result ≡ byte_of_kind (kind_of self.now.searches) }
    {
        u32::from(u8::from(self.searches.match_kind()))
    }

    /// Whether searches ignore the case of ASCII letters.
    pub(crate) fn is_ascii_case_insensitive(&self) -> bool
        ensures { result ≡ folds_of self.now.searches }
    {
        self.searches.is_ascii_case_insensitive()
    }

    /// Counts what the automaton holds. Fails only if an allocation fails.
    pub(crate) fn counts(&self, alloc: Global) -> Result<Counts, Refusal>
        ensures counts { IfOk result (AreCounts self.now.searches) }
        ensures err { IfErr result (λ r. r ≡ OutOfMemory) }
    {
        self.searches.counts(alloc)
    }

    /// Another searcher of the same automaton, with no stream. Fails only if an allocation fails.
    pub(crate) fn share(&self, alloc: Global) -> Result<Box<Searcher, Global>, Refusal>
        ensures searches { IfOk result (λ b. b.value.searches ≡ self.now.searches) }
        ensures rows { IfOk result (λ b. b.value.rows ≡ self.now.rows) }
        ensures stream { IfOk result (λ b. b.value.stream ≡ None) }
        ensures err { IfErr result (λ r. r ≡ OutOfMemory) }
    {
        Searcher::over(alloc, Arc::try_clone(&self.searches)?)
    }

    fn over(
        alloc: Global,
        searches: Arc<Searches, Global>,
    ) -> Result<Box<Searcher, Global>, Refusal>
        ensures searches { IfOk result (λ b. b.value.searches ≡ automaton_of (arc_value searches)) }
        ensures rows { IfOk result (λ b. b.value.rows ≡ has_rows (arc_value searches)) }
        ensures stream { IfOk result (λ b. b.value.stream ≡ None) }
        ensures err { IfErr result (λ r. r ≡ OutOfMemory) }
    {
        let searcher = Searcher {
            searches,
            stream: None,
        };
        Ok(Box::new(alloc, searcher)?)
    }

    /// Writes the first matches of a search, as many as there is room for, and returns their
    /// number. Fails if the search does not serve automata of this kind, or the automaton cannot
    /// read the haystack.
    pub(crate) fn find(
        &self,
        search: SearchKind,
        haystack: &[u8],
        out: &mut [CMatch],
    ) -> Result<usize, Refusal>
        ensures found { IfOk result (HasFound search haystack.now self.now.searches out.old out.new) }
        ensures err { IfErr result (IsNotFound search haystack.now self.now.searches) }
        ensures unwritten { IfErr result (λ _. out.new ≡ out.old) }
    {
        if !search.is_for(self.searches.match_kind()) {
            return Err(Refusal::WrongKind);
        }
        Ok(self.searches.reading(haystack)?.find(search, out))
    }

    /// Writes the matches from the place on that do not overlap, as many as there is room for, and
    /// returns their number. Moves the place after the last one. Fails if the automaton cannot
    /// read the haystack, or if the place is after it or inside a character.
    pub(crate) fn find_on(
        &self,
        haystack: &[u8],
        place: &mut Place,
        out: &mut [CMatch],
    ) -> Result<usize, Refusal>
        ensures found { IfOk result (GoesOn self.now.searches haystack.now place.old place.new out.old out.new) }
        ensures err { IfErr result (IsStuckCause haystack.now self.now.searches place.old) }
        ensures unchanged { IfErr result (λ _. (place.new ≡ place.old) × (out.new ≡ out.old)) }
    {
        let search = self.searches.reading(haystack)?;
        match search.part(place.at) {
            Some(_) => Ok(search.find_on(place, out)),
            None => Err(Refusal::WrongPlace),
        }
    }

    /// Returns whether some pattern occurs. Fails if the automaton cannot read the haystack.
    pub(crate) fn is_match(&self, haystack: &[u8]) -> Result<bool, Refusal>
        ensures answered { IfOk result (IsAnswer haystack.now self.now.searches) }
        ensures err { IfErr result (IsUnreadCause haystack.now self.now.searches) }
    {
        Ok(self.searches.reading(haystack)?.is_match())
    }

    /// Writes the automaton to the front of `out`, and its length to `size`, which is set even if
    /// there is too little room.
    pub(crate) fn write(
        &self,
        alloc: Global,
        out: &mut [u8],
        size: &mut usize,
    ) -> Result<(), Refusal>
        ensures whole { OnOk result (IsWhole self.now.searches) }
        ensures written { OnOk result (StandsInFront (form_of self.now.searches) out.old out.new) }
        ensures size { OnOk result (size.new ≡ length (form_of self.now.searches)) }
        ensures err { IfErr result (IsNotWritten self.now.searches out.old size.new) }
        ensures unwritten { OnErr result (out.new ≡ out.old) }
    {
        *size = 0;
        let form = self.searches.form(alloc)?;
        *size = form.len();
        copy_to_front(&form, out)
    }

    /// Writes the patterns to the fronts of three arrays, the number of their bytes to `size`, and
    /// their own to `count`. Both are set even if there is too little room.
    pub(crate) fn list(
        &self,
        alloc: Global,
        bytes: &mut [u8],
        ends: &mut [usize],
        values: &mut [u32],
        size: &mut usize,
        count: &mut usize,
    ) -> Result<(), Refusal>
        ensures listed { OnOk result (HasListed self.now.searches (arrays bytes.old ends.old values.old) (arrays bytes.new ends.new values.new) size.new count.new) }
        ensures err { IfErr result (IsNotListed self.now.searches (arrays bytes.old ends.old values.old) size.new count.new) }
        ensures unwritten { OnErr result (arrays bytes.new ends.new values.new ≡ arrays bytes.old ends.old values.old) }
    {
        *size = 0;
        *count = 0;
        let room = Room {
            bytes: bytes.len(),
            patterns: ends.len().min(values.len()),
        };
        let listing = Listing::new(alloc, &self.searches, room)?;
        *size = listing.size;
        *count = listing.count;
        if !listing.fits(room) {
            return Err(Refusal::NoRoom);
        }
        put_in_front(&listing.bytes, bytes);
        put_in_front(&listing.ends, ends);
        put_in_front(&listing.values, values);
        Ok(())
    }

    /// Writes the haystack, with its matches replaced, to the front of `out`, as much as there is
    /// room for, and the length of the whole to `size`.
    pub(crate) fn replace(
        &self,
        haystack: &[u8],
        texts: Texts<'_>,
        out: &mut [u8],
        size: &mut usize,
    ) -> Result<(), Refusal>
        ensures replaced { OnOk result (HasReplaced texts.entry.bytes.now texts.entry.ends.now haystack.now self.now.searches out.old out.new size.new) }
        ensures err { IfErr result (IsNotReplaced texts.entry.bytes.now texts.entry.ends.now haystack.now self.now.searches out.old out.new size.new) }
    {
        *size = 0;
        if !texts.are_right() {
            return Err(Refusal::WrongPatterns);
        }
        *size = self.searches.reading(haystack)?.replace(texts, out);
        if out.len() < *size {
            return Err(Refusal::NoRoom);
        }
        Ok(())
    }

    /// Begins a stream of the search with this number. A previous one is dropped.
    pub(crate) fn begin(&mut self, alloc: Global, number: u32) -> Result<(), Refusal>
        ensures begun { OnOk result (HasBegun number self.old self.new) }
        ensures err { IfErr result (IsNotBegun number self.old) }
        ensures unchanged { OnErr result (self.new ≡ self.old) }
    {
        let kind = StreamKind::numbered(number)?;
        if !kind.search().is_for(self.searches.match_kind()) {
            return Err(Refusal::WrongKind);
        }
        self.stream = Some(Streams::begin(alloc, &self.searches, kind)?);
        Ok(())
    }

    /// Feeds the stream while there is room for its matches, and writes these.
    pub(crate) fn consume(&mut self, bytes: &[u8], out: &mut [CMatch]) -> Result<Done, Refusal>
        ensures consumed { IfOk result (HasConsumed bytes.now self.old self.new out.old out.new) }
        ensures err { IfErr result (IsIdleCause self.old bytes.now (length out.old)) }
        ensures unchanged { OnErr result ((self.new ≡ self.old) × (out.new ≡ out.old)) }
    {
        let Some(stream) = self.stream.take() else {
            return Err(Refusal::NoStream);
        };
        if let Err(refusal) = stream.admit(&self.searches, bytes, out.len()) {
            self.stream = Some(stream);
            return Err(refusal);
        }
        let (stream, done) = stream.consume(&self.searches, bytes, out);
        self.stream = Some(stream);
        Ok(done)
    }

    /// Ends the stream: no more bytes come.
    pub(crate) fn end(&mut self) -> Result<(), Refusal>
        ensures ended { OnOk result (HasEnded self.old self.new) }
        ensures err { IfErr result (IsUnendedCause self.old) }
        ensures unchanged { OnErr result (self.new ≡ self.old) }
    {
        let Some(stream) = self.stream.take() else {
            return Err(Refusal::NoStream);
        };
        if let Err(refusal) = stream.may_end() {
            self.stream = Some(stream);
            return Err(refusal);
        }
        self.stream = Some(stream.ended());
        Ok(())
    }
}
