//! The C interface: automata over bytes, and over the characters of UTF-8.
//!
//! C keeps a [`Handle`](handle::Handle), empty at first, and passes its address. Each call but
//! [`daachorse_free`] returns 0, or the number of a [`Refusal`](refusal::Refusal). The header
//! `bindings/c/daachorse.h` states what C has to keep to.
#![tactic(auto)]

ghost use Rattle.std.specs.Prelude.{◌≡◌, ◌≢◌, None, Some, IsNone, IsSomeAnd, MatchResult, false, length, map};
ghost use Rattle.daachorse_model.specs.Kinds.{byte_of_kind};
ghost use Rattle.daachorse_c.specs.declared.unit.Unit.TheVariants.{Byte};
ghost use Rattle.daachorse_c.specs.declared.search.SearchKind.TheVariants.{Find, Leftmost, NoSuffix, Overlapping, Prefixes, Whole};
ghost use Rattle.daachorse_c.specs.Automata.{HasNoRoom, folds_of, kind_of};
ghost use Rattle.daachorse_c.specs.Building.{IsBuildCause, IsBuiltFrom, settings_over_bytes};
ghost use Rattle.daachorse_c.specs.Characters.{in_characters};
ghost use Rattle.daachorse_c.specs.Counts.{AreCounts};
ghost use Rattle.daachorse_c.specs.Listing.{IsListCause, HasListed, arrays};
ghost use Rattle.daachorse_c.specs.Options.{IsBuiltWithOptions, IsOptionsCause};
ghost use Rattle.daachorse_c.specs.Places.{IsGoingOn};
ghost use Rattle.daachorse_c.specs.Refusals.{IsDoneOr, refusal_number};
ghost use Rattle.daachorse_c.specs.Replacing.{HasReplaced, IsReplaceCause};
ghost use Rattle.daachorse_c.specs.Searches.{IsAnswer, IsHaystackCause, IsSearchOf, IsShareCause, IsUseCause};
ghost use Rattle.daachorse_c.specs.Streaming.{HasBegun, HasEnded, IsBeginCause, IsConsumption, IsEndCause};
ghost use Rattle.daachorse_c.specs.Units.{unit_numbered};
ghost use Rattle.daachorse_c.specs.Written.{IsRead, IsReadCause, IsReadWithCause, IsWhole, IsWriteCause, StandsInFront, form_of};

use crate::automaton::Searcher;
use crate::building::{Settings, build};
use crate::characters::Cursor;
use crate::counts::Counts;
use crate::found::CMatch;
use crate::handle::Handle;
use crate::options::Options;
use crate::place::Place;
use crate::reading::read;
use crate::refusal::Refusal;
use crate::replacing::Texts;
use crate::search::SearchKind;
use crate::unit::Unit;
use std::alloc::Global;

mod automaton;
mod building;
mod byte_streams;
mod bytewise;
mod character_streams;
mod characters;
mod charwise;
mod counts;
mod feeding;
mod found;
mod going_on;
mod handle;
mod listing;
mod loose;
mod options;
mod overlapping_stream;
mod partial;
mod patterns;
mod place;
mod reading;
mod refusal;
mod replacing;
mod room;
mod search;
mod searches;
mod searching;
mod stepper;
mod stream;
mod stream_unit;
mod streams;
mod unit;

/// Returned by a call that is not refused.
const DONE: u32 = 0;

/// Fills the handle with an automaton over bytes, of the patterns that end in `bytes` at each of
/// `ends`, and frees what it held.
///
/// Each pattern begins where the previous one ends, and has the next of `values`. The kinds are 0
/// standard, 1 leftmost-longest and 2 leftmost-first. With `ascii_case_insensitive`, A to Z are
/// read as a to z in patterns and haystacks.
///
/// # Errors
///
/// The numbers of [`Refusal::OutOfMemory`], `UnknownKind`, `WrongPatterns`, `PatternTooLong`,
/// `TooManyStates`, `TooManyPatterns` and `TooManyElements`. The handle is then unchanged.
#[unsafe(no_mangle)]
pub extern "C" fn daachorse_build(
    alloc: Global,
    handle: &mut Handle,
    kind: u32,
    use_prefilter: bool,
    ascii_case_insensitive: bool,
    bytes: &[u8],
    ends: &[usize],
    values: &[u32],
) -> u32
    ensures built { result ≡ 0 → IsSomeAnd handle.new.automaton (λ a. IsBuiltFrom (settings_over_bytes kind use_prefilter ascii_case_insensitive) bytes.now ends.now values.now a.searches) }
    ensures stream { result ≡ 0 → IsSomeAnd handle.new.automaton (λ a. a.stream ≡ None) }
    ensures refused { IsDoneOr (IsBuildCause (settings_over_bytes kind use_prefilter ascii_case_insensitive) bytes.now ends.now values.now) result }
    ensures unchanged { result ≢ 0 → handle.new.automaton ≡ handle.old.automaton }
{
    let settings = Settings {
        unit: Unit::Byte,
        kind,
        use_prefilter,
        ascii_case_insensitive,
    };
    put_into(alloc, handle, build(alloc, settings, bytes, ends, values))
}

/// Does what [`daachorse_build`] does, with its options in a struct. The automaton may be over
/// characters.
///
/// # Errors
///
/// Those of [`daachorse_build`], and the numbers of [`Refusal::UnknownOption`] if an option that is
/// not the kind is neither 0 nor 1, or one without a name is not 0, and of `InvalidUtf8` if the
/// automaton is to be over characters and a pattern is no UTF-8. The handle is then unchanged.
#[unsafe(no_mangle)]
pub extern "C" fn daachorse_build_with(
    alloc: Global,
    handle: &mut Handle,
    options: &Options,
    bytes: &[u8],
    ends: &[usize],
    values: &[u32],
) -> u32
    ensures built { result ≡ 0 → IsSomeAnd handle.new.automaton (λ a. IsBuiltWithOptions options.now bytes.now ends.now values.now a.searches) }
    ensures stream { result ≡ 0 → IsSomeAnd handle.new.automaton (λ a. a.stream ≡ None) }
    ensures refused { IsDoneOr (IsOptionsCause options.now bytes.now ends.now values.now) result }
    ensures unchanged { result ≢ 0 → handle.new.automaton ≡ handle.old.automaton }
{
    if !options.are_known() {
        return Refusal::UnknownOption.number();
    }
    let settings = options.settings();
    put_into(alloc, handle, build(alloc, settings, bytes, ends, values))
}

/// Fills `other` with the automaton of the handle, and frees what it held. No copy is made: the
/// automaton is freed with the last handle that has it. Each of them has a stream of its own, and
/// `other` has none at first.
///
/// # Errors
///
/// The numbers of [`Refusal::EmptyHandle`] and `OutOfMemory`. `other` is then unchanged.
#[unsafe(no_mangle)]
pub extern "C" fn daachorse_share(alloc: Global, handle: &mut Handle, other: &mut Handle) -> u32
    ensures kept { handle.new.automaton ≡ handle.old.automaton }
    ensures shared { result ≡ 0 → IsSomeAnd handle.old.automaton (λ a. IsSomeAnd other.new.automaton (λ b. b.searches ≡ a.searches)) }
    ensures rows { result ≡ 0 → IsSomeAnd handle.old.automaton (λ a. IsSomeAnd other.new.automaton (λ b. b.rows ≡ a.rows)) }
    ensures stream { result ≡ 0 → IsSomeAnd other.new.automaton (λ b. b.stream ≡ None) }
    ensures refused { IsDoneOr (IsShareCause handle.old.automaton) result }
    ensures unchanged { result ≢ 0 → other.new.automaton ≡ other.old.automaton }
{
    let Some(automaton) = handle.take(alloc) else {
        return Refusal::EmptyHandle.number();
    };
    let answer = automaton.share(alloc);
    handle.put(automaton);
    put_into(alloc, other, answer)
}

/// Fills `other` with a copy of the automaton that has rows of the states near its root, unless it
/// is too large for rows, and frees what it held. It finds the same, faster if patterns are few and
/// short. The handle keeps its own, and `other` has no stream. It takes time linear
/// in the automaton's size.
///
/// # Errors
///
/// The numbers of [`Refusal::EmptyHandle`] and `OutOfMemory`. `other` is then unchanged.
#[unsafe(no_mangle)]
pub extern "C" fn daachorse_accelerate(
    alloc: Global,
    handle: &mut Handle,
    other: &mut Handle,
) -> u32
    ensures kept { handle.new.automaton ≡ handle.old.automaton }
    ensures same { result ≡ 0 → IsSomeAnd handle.old.automaton (λ a. IsSomeAnd other.new.automaton (λ b. b.searches ≡ a.searches)) }
    ensures rows { result ≡ 0 → IsSomeAnd handle.old.automaton (λ a. IsSomeAnd other.new.automaton (λ b. b.rows ≡ false → HasNoRoom a.searches)) }
    ensures stream { result ≡ 0 → IsSomeAnd other.new.automaton (λ b. b.stream ≡ None) }
    ensures refused { IsDoneOr (IsShareCause handle.old.automaton) result }
    ensures unchanged { result ≢ 0 → other.new.automaton ≡ other.old.automaton }
{
    let Some(automaton) = handle.take(alloc) else {
        return Refusal::EmptyHandle.number();
    };
    let answer = automaton.accelerate(alloc);
    handle.put(automaton);
    put_into(alloc, other, answer)
}

/// Writes to `kind` the number of the automaton's kind, and to the other whether it ignores the
/// case of ASCII letters.
///
/// # Errors
///
/// The number of [`Refusal::EmptyHandle`]. Nothing is written then.
#[unsafe(no_mangle)]
pub extern "C" fn daachorse_kind(
    alloc: Global,
    handle: &mut Handle,
    kind: &mut u32,
    ascii_case_insensitive: &mut bool,
) -> u32
    ensures kept { handle.new.automaton ≡ handle.old.automaton }
    ensures kind { result ≡ 0 → IsSomeAnd handle.old.automaton (λ a. kind.new ≡ byte_of_kind (kind_of a.searches)) }
    ensures folds { result ≡ 0 → IsSomeAnd handle.old.automaton (λ a. ascii_case_insensitive.new ≡ folds_of a.searches) }
    ensures refused { IsDoneOr (IsUseCause handle.old.automaton) result }
    ensures unwritten { result ≢ 0 → (kind.new ≡ kind.old) × (ascii_case_insensitive.new ≡ ascii_case_insensitive.old) }
{
    let Some(automaton) = handle.take(alloc) else {
        return Refusal::EmptyHandle.number();
    };
    *kind = automaton.kind();
    *ascii_case_insensitive = automaton.is_ascii_case_insensitive();
    handle.put(automaton);
    DONE
}

/// Counts the patterns and states of the automaton, and the bytes of its longest pattern and of its
/// written form.
///
/// # Errors
///
/// The numbers of [`Refusal::EmptyHandle`] and `OutOfMemory`. Nothing is written then.
#[unsafe(no_mangle)]
pub extern "C" fn daachorse_count(alloc: Global, handle: &mut Handle, counts: &mut Counts) -> u32
    ensures kept { handle.new.automaton ≡ handle.old.automaton }
    ensures counts { result ≡ 0 → IsSomeAnd handle.old.automaton (λ a. AreCounts a.searches counts.new) }
    ensures refused { IsDoneOr (IsShareCause handle.old.automaton) result }
    ensures unwritten { result ≢ 0 → counts.new ≡ counts.old }
{
    let Some(automaton) = handle.take(alloc) else {
        return Refusal::EmptyHandle.number();
    };
    let answer = automaton.counts(alloc);
    handle.put(automaton);
    match answer {
        Ok(found) => {
            *counts = found;
            DONE
        }
        Err(refusal) => refusal.number(),
    }
}

/// Returns the version of the Rust crate whose searches these are, as 10,000 times the major
/// number, 100 times the minor one and the patch.
#[unsafe(no_mangle)]
pub extern "C" fn daachorse_version() -> u32
    ensures { result ≡ 50100 }
{
    50_100
}

/// Turns the places of matches, in bytes, into places in characters of a text in UTF-8.
///
/// The places count from `origin`, and so many bytes and characters come before the text. An empty
/// match inside a character ends before that character, and starts after it.
#[unsafe(no_mangle)]
pub extern "C" fn daachorse_to_characters(
    text: &[u8],
    bytes: usize,
    characters: usize,
    origin: usize,
    matches: &mut [CMatch],
)
    ensures { matches.new ≡ map (in_characters text.now bytes characters origin) matches.old }
{
    let mut cursor = Cursor::new(text);
    for found in matches.iter_mut() {
        *found = cursor.moved(*found, bytes, characters, origin);
    }
}

/// Writes to `out` the first matches that do not overlap, each ending as early as possible, and
/// their number to `written`. If `out` is full, there may be more.
///
/// # Errors
///
/// The numbers of [`Refusal::EmptyHandle`], of `WrongKind` if the automaton is not standard, and of
/// `InvalidUtf8` if it is over characters and the haystack is no UTF-8. Nothing is written to `out`
/// then, and 0 to `written`.
#[unsafe(no_mangle)]
pub extern "C" fn daachorse_find(
    alloc: Global,
    handle: &mut Handle,
    haystack: &[u8],
    out: &mut [CMatch],
    written: &mut usize,
) -> u32
    ensures { IsSearchOf Find haystack.now handle.old.automaton handle.new.automaton out.old out.new written.new result }
{
    write_found(alloc, handle, SearchKind::Find, haystack, out, written)
}

/// Finds every match, overlapping ones too. Otherwise like [`daachorse_find`].
#[unsafe(no_mangle)]
pub extern "C" fn daachorse_find_overlapping(
    alloc: Global,
    handle: &mut Handle,
    haystack: &[u8],
    out: &mut [CMatch],
    written: &mut usize,
) -> u32
    ensures { IsSearchOf Overlapping haystack.now handle.old.automaton handle.new.automaton out.old out.new written.new result }
{
    write_found(
        alloc,
        handle,
        SearchKind::Overlapping,
        haystack,
        out,
        written,
    )
}

/// Finds the longest match at each end. Otherwise like [`daachorse_find`].
#[unsafe(no_mangle)]
pub extern "C" fn daachorse_find_overlapping_no_suffix(
    alloc: Global,
    handle: &mut Handle,
    haystack: &[u8],
    out: &mut [CMatch],
    written: &mut usize,
) -> u32
    ensures { IsSearchOf NoSuffix haystack.now handle.old.automaton handle.new.automaton out.old out.new written.new result }
{
    write_found(alloc, handle, SearchKind::NoSuffix, haystack, out, written)
}

/// Finds matches that do not overlap, each starting as early as possible. Otherwise like
/// [`daachorse_find`], but refused with `WrongKind` if the automaton is standard.
#[unsafe(no_mangle)]
pub extern "C" fn daachorse_leftmost_find(
    alloc: Global,
    handle: &mut Handle,
    haystack: &[u8],
    out: &mut [CMatch],
    written: &mut usize,
) -> u32
    ensures { IsSearchOf Leftmost haystack.now handle.old.automaton handle.new.automaton out.old out.new written.new result }
{
    write_found(alloc, handle, SearchKind::Leftmost, haystack, out, written)
}

/// Goes on from the place with the search of [`daachorse_leftmost_find`], or for a standard
/// automaton with that of [`daachorse_find`]. Moves the place after the last match written, or
/// over the haystack's end if no match is left. A place that is all 0 is the beginning.
///
/// # Errors
///
/// The numbers of [`Refusal::EmptyHandle`], of `WrongPlace` if the place is after the haystack,
/// and for an automaton over characters of `InvalidUtf8` if the haystack is no UTF-8, and of
/// `WrongPlace` if the place is inside a character. Nothing changes then, and `written` is 0.
#[unsafe(no_mangle)]
pub extern "C" fn daachorse_find_on(
    alloc: Global,
    handle: &mut Handle,
    haystack: &[u8],
    place: &mut Place,
    out: &mut [CMatch],
    written: &mut usize,
) -> u32
    ensures { IsGoingOn haystack.now handle.old.automaton handle.new.automaton place.old place.new out.old out.new written.new result }
{
    *written = 0;
    let Some(automaton) = handle.take(alloc) else {
        return Refusal::EmptyHandle.number();
    };
    let answer = automaton.find_on(haystack, place, out);
    handle.put(automaton);
    match answer {
        Ok(count) => {
            *written = count;
            DONE
        }
        Err(refusal) => refusal.number(),
    }
}

/// Finds the patterns that are the whole text, in order of registration. Otherwise like
/// [`daachorse_find`], but for automata of every kind.
#[unsafe(no_mangle)]
pub extern "C" fn daachorse_get(
    alloc: Global,
    handle: &mut Handle,
    text: &[u8],
    out: &mut [CMatch],
    written: &mut usize,
) -> u32
    ensures { IsSearchOf Whole text.now handle.old.automaton handle.new.automaton out.old out.new written.new result }
{
    write_found(alloc, handle, SearchKind::Whole, text, out, written)
}

/// Finds the patterns that begin the text, the shortest first. Otherwise like [`daachorse_get`].
#[unsafe(no_mangle)]
pub extern "C" fn daachorse_common_prefixes(
    alloc: Global,
    handle: &mut Handle,
    text: &[u8],
    out: &mut [CMatch],
    written: &mut usize,
) -> u32
    ensures { IsSearchOf Prefixes text.now handle.old.automaton handle.new.automaton out.old out.new written.new result }
{
    write_found(alloc, handle, SearchKind::Prefixes, text, out, written)
}

/// Writes to `found` whether some pattern occurs in the haystack.
///
/// # Errors
///
/// The numbers of [`Refusal::EmptyHandle`], and of `InvalidUtf8` if the automaton is over
/// characters and the haystack is no UTF-8. `found` is false then.
#[unsafe(no_mangle)]
pub extern "C" fn daachorse_is_match(
    alloc: Global,
    handle: &mut Handle,
    haystack: &[u8],
    found: &mut bool,
) -> u32
    ensures kept { handle.new.automaton ≡ handle.old.automaton }
    ensures answered { result ≡ 0 → IsSomeAnd handle.old.automaton (λ a. IsAnswer haystack.now a.searches found.new) }
    ensures refused { IsDoneOr (IsHaystackCause haystack.now handle.old.automaton) result }
    ensures unfound { result ≢ 0 → found.new ≡ false }
{
    *found = false;
    let Some(automaton) = handle.take(alloc) else {
        return Refusal::EmptyHandle.number();
    };
    let answer = automaton.is_match(haystack);
    handle.put(automaton);
    match answer {
        Ok(occurs) => {
            *found = occurs;
            DONE
        }
        Err(refusal) => refusal.number(),
    }
}

/// Writes the haystack, with its matches replaced, to the front of `out`, as much as there is room
/// for, and the length of the whole to `size`, or `usize::MAX` if it is longer.
///
/// The matches are those of [`daachorse_find_on`] from the beginning. The texts that replace them
/// end in `bytes` at each of `ends`, and each begins where the previous one ends. A match is
/// replaced by the text whose number, counted from 0, is its value, and stays if there is none.
///
/// # Errors
///
/// The numbers of [`Refusal::EmptyHandle`], of `WrongPatterns` if the ends decrease or pass the
/// bytes, and of `InvalidUtf8` if the automaton is over characters and the haystack is no UTF-8.
/// Nothing is written to `out` then, and 0 to `size`. The number of `NoRoom`, with the length
/// needed in `size`: then `out` has as much as there is room for.
#[unsafe(no_mangle)]
pub extern "C" fn daachorse_replace(
    alloc: Global,
    handle: &mut Handle,
    haystack: &[u8],
    bytes: &[u8],
    ends: &[usize],
    out: &mut [u8],
    size: &mut usize,
) -> u32
    ensures kept { handle.new.automaton ≡ handle.old.automaton }
    ensures replaced { result ≡ 0 → IsSomeAnd handle.old.automaton (λ a. HasReplaced bytes.now ends.now haystack.now a.searches out.old out.new size.new) }
    ensures refused { IsDoneOr (IsReplaceCause bytes.now ends.now haystack.now handle.old.automaton out.old out.new size.new) result }
{
    *size = 0;
    let Some(automaton) = handle.take(alloc) else {
        return Refusal::EmptyHandle.number();
    };
    let answer = automaton.replace(haystack, Texts { bytes, ends }, out, size);
    handle.put(automaton);
    match answer {
        Ok(()) => DONE,
        Err(refusal) => refusal.number(),
    }
}

/// Begins a stream, a haystack that comes in pieces. The search is that of 0 [`daachorse_find`],
/// 1 [`daachorse_find_overlapping`], 2 [`daachorse_find_overlapping_no_suffix`] or
/// 3 [`daachorse_leftmost_find`]. A previous stream is dropped, with its unreported matches.
/// It takes time linear in the automaton's size.
///
/// # Errors
///
/// The numbers of [`Refusal::EmptyHandle`], `UnknownSearch`, `OutOfMemory`, and of `WrongKind` if
/// the search does not serve the automaton. The handle is then unchanged.
#[unsafe(no_mangle)]
pub extern "C" fn daachorse_begin(alloc: Global, handle: &mut Handle, search: u32) -> u32
    ensures begun { result ≡ 0 → IsSomeAnd handle.old.automaton (λ a. IsSomeAnd handle.new.automaton (HasBegun search a)) }
    ensures refused { IsDoneOr (IsBeginCause search handle.old.automaton) result }
    ensures unchanged { result ≢ 0 → handle.new.automaton ≡ handle.old.automaton }
{
    let Some(mut automaton) = handle.take(alloc) else {
        return Refusal::EmptyHandle.number();
    };
    let answer = automaton.begin(alloc, search);
    handle.put(automaton);
    match answer {
        Ok(()) => DONE,
        Err(refusal) => refusal.number(),
    }
}

/// Feeds bytes to the stream, and writes its next matches to `out`.
///
/// The number of bytes consumed is written to `taken`, and that of matches to `written`. Unless
/// `out` is full, all bytes were consumed and every match so far was reported, but of leftmost
/// matches those that are certain, or all after [`daachorse_end`]. Offsets count from the beginning
/// of the stream. Over characters a piece may end inside one, and bytes with which none begins are
/// not consumed, nor those after them.
///
/// # Errors
///
/// The numbers of [`Refusal::EmptyHandle`], `NoStream`, `StreamEnded` if bytes come after the end,
/// `StreamTooLong` if an offset or the number of matches would pass 64 bits, and of `InvalidUtf8`
/// if the automaton is over characters and none begins with the first byte, after those of one
/// that is partial. Nothing changes then, and `taken` and `written` are 0.
#[unsafe(no_mangle)]
pub extern "C" fn daachorse_consume(
    alloc: Global,
    handle: &mut Handle,
    bytes: &[u8],
    out: &mut [CMatch],
    taken: &mut usize,
    written: &mut usize,
) -> u32
    ensures { IsConsumption bytes.now handle.old.automaton handle.new.automaton out.old out.new taken.new written.new result }
{
    *taken = 0;
    *written = 0;
    let Some(mut automaton) = handle.take(alloc) else {
        return Refusal::EmptyHandle.number();
    };
    let answer = automaton.consume(bytes, out);
    handle.put(automaton);
    match answer {
        Ok(done) => {
            *taken = done.taken;
            *written = done.written;
            DONE
        }
        Err(refusal) => refusal.number(),
    }
}

/// Ends the stream: no more bytes come. [`daachorse_consume`] with no bytes reports what is left.
///
/// # Errors
///
/// The numbers of [`Refusal::EmptyHandle`] and `NoStream`, and of `InvalidUtf8` if a character has
/// partial that is not whole. The handle is then unchanged.
#[unsafe(no_mangle)]
pub extern "C" fn daachorse_end(alloc: Global, handle: &mut Handle) -> u32
    ensures ended { result ≡ 0 → IsSomeAnd handle.old.automaton (λ a. IsSomeAnd handle.new.automaton (HasEnded a)) }
    ensures refused { IsDoneOr (IsEndCause handle.old.automaton) result }
    ensures unchanged { result ≢ 0 → handle.new.automaton ≡ handle.old.automaton }
{
    let Some(mut automaton) = handle.take(alloc) else {
        return Refusal::EmptyHandle.number();
    };
    let answer = automaton.end();
    handle.put(automaton);
    match answer {
        Ok(()) => DONE,
        Err(refusal) => refusal.number(),
    }
}

/// Writes the automaton in its written form to the front of `out`, and its length to `size`.
/// [`daachorse_read`] reads it back.
///
/// # Errors
///
/// The numbers of [`Refusal::EmptyHandle`] and `OutOfMemory`, with 0 in `size`, and of `NoRoom`,
/// with the length needed in `size`. Nothing is written to `out` then.
#[unsafe(no_mangle)]
pub extern "C" fn daachorse_write(
    alloc: Global,
    handle: &mut Handle,
    out: &mut [u8],
    size: &mut usize,
) -> u32
    ensures kept { handle.new.automaton ≡ handle.old.automaton }
    ensures whole { result ≡ 0 → IsSomeAnd handle.old.automaton (λ a. IsWhole a.searches) }
    ensures written { result ≡ 0 → IsSomeAnd handle.old.automaton (λ a. StandsInFront (form_of a.searches) out.old out.new × (size.new ≡ length (form_of a.searches))) }
    ensures refused { IsDoneOr (IsWriteCause handle.old.automaton out.old size.new) result }
    ensures unwritten { result ≢ 0 → out.new ≡ out.old }
{
    *size = 0;
    let Some(automaton) = handle.take(alloc) else {
        return Refusal::EmptyHandle.number();
    };
    let answer = automaton.write(alloc, out, size);
    handle.put(automaton);
    match answer {
        Ok(()) => DONE,
        Err(refusal) => refusal.number(),
    }
}

/// Writes the patterns of the automaton to the fronts of three arrays, in the form that
/// [`daachorse_build`] takes: in byte order, equal ones in order of registration.
///
/// Pattern `i`, counted from 0, ends at `ends[i]` in `bytes` and has the value `values[i]`. Their
/// bytes are counted in `size`, and the patterns in `count`.
///
/// # Errors
///
/// The numbers of [`Refusal::EmptyHandle`] and `OutOfMemory`, with 0 in `size` and `count`, and of
/// `NoRoom`, with the room needed in both. Nothing is written to the arrays then.
#[unsafe(no_mangle)]
pub extern "C" fn daachorse_list(
    alloc: Global,
    handle: &mut Handle,
    bytes: &mut [u8],
    ends: &mut [usize],
    values: &mut [u32],
    size: &mut usize,
    count: &mut usize,
) -> u32
    ensures kept { handle.new.automaton ≡ handle.old.automaton }
    ensures listed { result ≡ 0 → IsSomeAnd handle.old.automaton (λ a. HasListed a.searches (arrays bytes.old ends.old values.old) (arrays bytes.new ends.new values.new) size.new count.new) }
    ensures refused { IsDoneOr (IsListCause handle.old.automaton (arrays bytes.old ends.old values.old) size.new count.new) result }
    ensures unwritten { result ≢ 0 → arrays bytes.new ends.new values.new ≡ arrays bytes.old ends.old values.old }
{
    *size = 0;
    *count = 0;
    let Some(automaton) = handle.take(alloc) else {
        return Refusal::EmptyHandle.number();
    };
    let answer = automaton.list(alloc, bytes, ends, values, size, count);
    handle.put(automaton);
    match answer {
        Ok(()) => DONE,
        Err(refusal) => refusal.number(),
    }
}

/// Fills the handle with the automaton over bytes that `bytes` begin with, frees what it held, and
/// writes the automaton's length to `taken`. The bytes may be untrusted.
///
/// # Errors
///
/// The numbers of [`Refusal::InvalidAutomaton`], if no automaton begins the bytes, and of
/// `OutOfMemory`. The handle is then unchanged, and `taken` is 0.
#[unsafe(no_mangle)]
pub extern "C" fn daachorse_read(
    alloc: Global,
    handle: &mut Handle,
    bytes: &[u8],
    taken: &mut usize,
) -> u32
    ensures read { result ≡ 0 → IsSomeAnd handle.new.automaton (λ a. IsRead Byte bytes.now a.searches taken.new) }
    ensures stream { result ≡ 0 → IsSomeAnd handle.new.automaton (λ a. a.stream ≡ None) }
    ensures refused { IsDoneOr (IsReadCause Byte bytes.now) result }
    ensures unchanged { result ≢ 0 → handle.new.automaton ≡ handle.old.automaton }
    ensures untaken { result ≢ 0 → taken.new ≡ 0 }
{
    read_into(alloc, handle, Unit::Byte, bytes, taken)
}

/// Does what [`daachorse_read`] does for an automaton over bytes, if `unit` is 0, or over
/// characters, if it is 1. The written form does not report which it is of.
///
/// # Errors
///
/// Those of [`daachorse_read`], and the number of [`Refusal::UnknownOption`] if the unit is neither
/// 0 nor 1. The handle is then unchanged, and `taken` is 0.
#[unsafe(no_mangle)]
pub extern "C" fn daachorse_read_with(
    alloc: Global,
    handle: &mut Handle,
    unit: u32,
    bytes: &[u8],
    taken: &mut usize,
) -> u32
    ensures read { result ≡ 0 → IsSomeAnd handle.new.automaton (λ a. IsRead (unit_numbered unit) bytes.now a.searches taken.new) }
    ensures stream { result ≡ 0 → IsSomeAnd handle.new.automaton (λ a. a.stream ≡ None) }
    ensures refused { IsDoneOr (IsReadWithCause unit bytes.now) result }
    ensures unchanged { result ≢ 0 → handle.new.automaton ≡ handle.old.automaton }
    ensures untaken { result ≢ 0 → taken.new ≡ 0 }
{
    *taken = 0;
    if unit > 1 {
        return Refusal::UnknownOption.number();
    }
    read_into(alloc, handle, Unit::numbered(unit), bytes, taken)
}

/// Frees what the handle holds, and leaves it empty.
#[unsafe(no_mangle)]
pub extern "C" fn daachorse_free(alloc: Global, handle: &mut Handle)
    ensures { IsNone handle.new.automaton }
{
    let _automaton = handle.take(alloc);
}

/// Fills the handle with the automaton over this unit that the bytes begin with, and writes its
/// length.
fn read_into(alloc: Global, handle: &mut Handle, unit: Unit, bytes: &[u8], taken: &mut usize) -> u32
    ensures read { result ≡ 0 → IsSomeAnd handle.new.automaton (λ a. IsRead unit bytes.now a.searches taken.new) }
    ensures stream { result ≡ 0 → IsSomeAnd handle.new.automaton (λ a. a.stream ≡ None) }
    ensures refused { IsDoneOr (IsReadCause unit bytes.now) result }
    ensures unchanged { result ≢ 0 → handle.new.automaton ≡ handle.old.automaton }
    ensures untaken { result ≢ 0 → taken.new ≡ 0 }
{
    *taken = 0;
    match read(alloc, unit, bytes) {
        Ok((automaton, count)) => {
            handle.fill(alloc, automaton);
            *taken = count;
            DONE
        }
        Err(refusal) => refusal.number(),
    }
}

/// Puts an automaton into the handle, and frees the one that it held, unless the call for it was
/// refused.
fn put_into(
    alloc: Global,
    handle: &mut Handle,
    answer: Result<Box<Searcher, Global>, Refusal>,
) -> u32
    ensures { MatchResult answer (λ b. (result ≡ 0) × (handle.new.automaton ≡ Some b.value)) (λ r. (result ≡ refusal_number r) × (handle.new.automaton ≡ handle.old.automaton)) }
{
    match answer {
        Ok(automaton) => {
            handle.fill(alloc, automaton);
            DONE
        }
        Err(refusal) => refusal.number(),
    }
}

/// Writes the first matches of a search, and their number.
fn write_found(
    alloc: Global,
    handle: &mut Handle,
    search: SearchKind,
    haystack: &[u8],
    out: &mut [CMatch],
    written: &mut usize,
) -> u32
    ensures { IsSearchOf search haystack.now handle.old.automaton handle.new.automaton out.old out.new written.new result }
{
    *written = 0;
    let Some(automaton) = handle.take(alloc) else {
        return Refusal::EmptyHandle.number();
    };
    let answer = automaton.find(search, haystack, out);
    handle.put(automaton);
    match answer {
        Ok(count) => {
            *written = count;
            DONE
        }
        Err(refusal) => refusal.number(),
    }
}
