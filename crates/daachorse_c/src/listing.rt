//! The patterns of an automaton, in the form that a build takes.

ghost use Rattle.std.specs.Prelude.{◌≡◌, ◌+◌, ◌↔◌, [], IfErr, IfOk, IsTrue, OnOk, length};
ghost use Rattle.daachorse_c.specs.Automata.{Bytes, Characters};
ghost use Rattle.daachorse_c.specs.Held.{automaton_of};
ghost use Rattle.daachorse_c.specs.Listing.{Fits, IsKeptWithin, IsListingWithin, arrays, arrays_of, one_more};
ghost use Rattle.daachorse_c.specs.declared.refusal.Refusal.TheVariants.{OutOfMemory};

use crate::refusal::Refusal;
use crate::searches::Searches;
use daachorse::{CharwiseDoubleArrayAhoCorasick, DoubleArrayAhoCorasick};
use std::alloc::Global;

/// How many bytes and how many patterns there is room for.
#[derive(Clone, Copy)]
pub struct Room {
    /// The number of bytes.
    pub bytes: usize,
    /// The number of patterns.
    pub patterns: usize,
}

/// The patterns of an automaton, each with its value, kept while there is room for all so far.
#[derive(Drop)]
pub struct Listing {
    /// The bytes of the patterns, joined.
    pub bytes: Vec<u8, Global>,
    /// Where each pattern ends in `bytes`.
    pub ends: Vec<usize, Global>,
    /// The value of each pattern.
    pub values: Vec<u32, Global>,
    /// The number of bytes of all patterns.
    pub size: usize,
    /// The number of all patterns.
    pub count: usize,
}

impl Listing {
    /// Counts the patterns, and lists them in byte order, equal ones in order of registration,
    /// while there is room.
    pub(crate) fn new(alloc: Global, searches: &Searches, room: Room) -> Result<Listing, Refusal>
        ensures listed { IfOk result (IsListingWithin (automaton_of searches.now) room) }
        ensures err { IfErr result (λ r. r ≡ OutOfMemory) }
    {
        match searches {
            Searches::Bytes(bytewise) => Listing::of_bytes(alloc, bytewise.automaton(), room),
            Searches::Characters(charwise) => {
                Listing::of_characters(alloc, charwise.automaton(), room)
            }
        }
    }

    /// A listing of no patterns.
    fn empty(alloc: Global) -> Listing
        ensures size { result.size ≡ 0 }
        ensures count { result.count ≡ 0 }
        ensures arrays { arrays_of result ≡ arrays [] [] [] }
    {
        Listing {
            bytes: Vec::new(alloc),
            ends: Vec::new(alloc),
            values: Vec::new(alloc),
            size: 0,
            count: 0,
        }
    }

    /// Lists the patterns of an automaton over bytes.
    fn of_bytes(
        alloc: Global,
        automaton: &DoubleArrayAhoCorasick<u32, Global>,
        room: Room,
    ) -> Result<Listing, Refusal>
        ensures listed { IfOk result (IsListingWithin (Bytes automaton.now) room) }
        ensures err { IfErr result (λ r. r ≡ OutOfMemory) }
    {
        let mut listing = Listing::empty(alloc);
        for item in automaton.iter(alloc)? {
            let (pattern, value) = item?;
            listing.push(&pattern, value, room)?;
        }
        Ok(listing)
    }

    /// Lists the patterns of an automaton over characters.
    fn of_characters(
        alloc: Global,
        automaton: &CharwiseDoubleArrayAhoCorasick<u32, Global>,
        room: Room,
    ) -> Result<Listing, Refusal>
        ensures listed { IfOk result (IsListingWithin (Characters automaton.now) room) }
        ensures err { IfErr result (λ r. r ≡ OutOfMemory) }
    {
        let mut listing = Listing::empty(alloc);
        for item in automaton.iter(alloc)? {
            let (pattern, value) = item?;
            listing.push(pattern.as_str().as_bytes(), value, room)?;
        }
        Ok(listing)
    }

    /// Appends a pattern if there is room for all. After an error the listing is of no use.
    fn push(&mut self, pattern: &[u8], value: u32, room: Room) -> Result<(), Refusal>
        ensures size { OnOk result (self.new.size ≡ self.old.size + length pattern.now) }
        ensures count { OnOk result (self.new.count ≡ self.old.count + 1) }
        ensures pushed { OnOk result (Fits self.new room → arrays_of self.new ≡ one_more (arrays_of self.old) pattern.now value) }
        ensures within { OnOk result (IsKeptWithin self.old room → IsKeptWithin self.new room) }
        ensures err { IfErr result (λ r. r ≡ OutOfMemory) }
    {
        let Some(size) = self.size.checked_add(pattern.len()) else {
            return Err(Refusal::OutOfMemory);
        };
        let Some(count) = self.count.checked_add(1) else {
            return Err(Refusal::OutOfMemory);
        };
        self.size = size;
        self.count = count;
        if self.fits(room) {
            self.bytes.extend_from_slice(pattern)?;
            self.ends.push(self.bytes.len())?;
            self.values.push(value)?;
        }
        Ok(())
    }

    /// Whether there is room for all patterns.
    pub(crate) fn fits(&self, room: Room) -> bool
        ensures { IsTrue result ↔ Fits self.now room }
    {
        self.size <= room.bytes && self.count <= room.patterns
    }
}
