//! The automaton that is asked for: built of patterns or read from a file, and written to one.

ghost use Rattle.std.specs.Prelude.{◌≡◌, ◌∷◌, [], ◌<◌, ◌^◌, ◌↔◌, ℕ, IfErr, IfOk, IsTrue, List, OnErr, OnOk, map};
ghost use Rattle.std.specs.Int.{w32};
ghost use Rattle.daachorse_model.specs.Folding.{all_as_read};
ghost use Rattle.daachorse.specs.bytewise.Automata.{kind_of};
ghost use Rattle.daachorse.specs.bytewise.Building.{IsBuiltOf, IsBuildRefusal};
ghost use Rattle.daachorse.specs.Forms.{number_form, take_number};
ghost use Rattle.daachorse.specs.DaachorseError.{DaachorseError};
ghost use Rattle.daachorse.specs.bytewise.ReadForms.{GivesAutomaton};
ghost use Rattle.daachorse.specs.bytewise.WrittenForms.{IsAutomaton, written_form};
ghost use Rattle.daacfind_command.specs.Runs.{value_gives};
ghost use Rattle.daacgrep_command.specs.declared.error.CommandError.TheVariants.{Load};
ghost use Rattle.daacgrep_command.specs.declared.flag.Flag.TheVariants.{IgnoreCase, Values};
ghost use Rattle.daacgrep_command.specs.Asked.{IsAutomatonAsked, IsLoaded, IsSavedWith, kind_asked};
ghost use Rattle.daacgrep_command.specs.Causes.{IsNoAutomaton, IsNoForm, IsNotLoaded, IsUnsaved};
ghost use Rattle.daacgrep_command.specs.FileSystems.{OnlyReads, Stores};
ghost use Rattle.daacgrep_command.specs.Flags.{asks};
ghost use Rattle.daacgrep_command.specs.Options.{last_of};
ghost use Rattle.daacgrep_command.specs.Rules.{pattern_of};

use crate::error::CommandError;
use crate::file_system::FileSystem;
use crate::flag::Flag;
use crate::options::Options;
use crate::rule::pattern_of;
use daachorse::errors::DaachorseError;
use daachorse::{DoubleArrayAhoCorasick, DoubleArrayAhoCorasickBuilder, MatchKind};
use std::alloc::{AllocError, Global};

/// Returns the automaton that the options ask for: that of a file, or of the patterns of these
/// lines, each with its number as its value.
///
/// # Errors
///
/// [`CommandError::Read`] if the file cannot be read, [`CommandError::Load`] if it begins with no
/// automaton or an allocation fails, [`CommandError::OtherOptions`] if it was saved with other
/// options, and [`CommandError::Build`] if the build refuses the patterns or an allocation fails.
pub fn automaton<'a, F: FileSystem>(
    alloc: Global,
    options: &Options<'a, Global>,
    rules: &[&[u8]],
    files: &mut F,
) -> Result<DoubleArrayAhoCorasick<u32, Global>, CommandError<'a>>
    ensures reads { OnlyReads (F.sees files.old) (F.sees files.new) }
    ensures ok { IfOk result (IsAutomatonAsked options.now.flags (F.sees files.old).given (map (λ r. r.now) rules.now)
        (last_of options.now.loads)) }
    ensures err { IfErr result (IsNoAutomaton options.now (F.sees files.old) (F.sees files.new) (map (λ r. r.now) rules.now)) }
{
    match options.load_file() {
        Some(name) => load(alloc, options, name, files),
        None => Ok(build(alloc, options, rules)?),
    }
}

/// Writes the automaton as the file of this name, and returns the status 0.
///
/// # Errors
///
/// [`CommandError::Save`] if the file cannot be written, and [`CommandError::Build`] if an
/// allocation fails.
pub fn save<'a, F: FileSystem>(
    alloc: Global,
    automaton: &DoubleArrayAhoCorasick<u32, Global>,
    name: &'a str,
    files: &mut F,
) -> Result<u8, CommandError<'a>>
    ensures status { IfOk result (λ status. status ≡ 0) }
    ensures automaton { OnOk result (IsAutomaton (λ v. v < 2 ^ 32) automaton.now) }
    ensures stored { OnOk result (Stores (F.sees files.old).saved (F.sees files.new).saved
        (record { name = name.now; bytes = written_form (number_form w32) automaton.now } ∷ [])) }
    ensures kept { OnErr result ((F.sees files.new).saved ≡ (F.sees files.old).saved) }
    ensures err { IfErr result (IsUnsaved name.entry) }
{
    let bytes = automaton.serialize(alloc)?;
    match files.write(name, &bytes) {
        Ok(()) => Ok(0),
        Err(_) => Err(CommandError::Save(name)),
    }
}

// Reads the automaton that a file begins with.
fn load<'a, F: FileSystem>(
    alloc: Global,
    options: &Options<'a, Global>,
    name: &'a str,
    files: &mut F,
) -> Result<DoubleArrayAhoCorasick<u32, Global>, CommandError<'a>>
    ensures reads { OnlyReads (F.sees files.old) (F.sees files.new) }
    ensures ok { IfOk result (IsLoaded options.now.flags (F.sees files.old).given name.now) }
    ensures err { IfErr result (IsNotLoaded (F.sees files.old) (F.sees files.new) options.now.flags name.entry) }
{
    let Some(bytes) = files.read(name) else {
        return Err(CommandError::Read(name));
    };
    let automaton = read(alloc, name, &bytes)?;
    if is_saved_with(options, &automaton) {
        Ok(automaton)
    } else {
        Err(CommandError::OtherOptions(name))
    }
}

// Reads the automaton that the bytes of a file begin with.
fn read<'a>(
    alloc: Global,
    name: &'a str,
    bytes: &[u8],
) -> Result<DoubleArrayAhoCorasick<u32, Global>, CommandError<'a>>
    ensures ok { IfOk result (λ a. (rest : List ℕ) × GivesAutomaton (take_number w32) bytes.now a rest) }
    ensures err { IfErr result (λ e. (cause : DaachorseError) × (e ≡ Load name.entry cause) × IsNoForm bytes.now cause) }
{
    match DoubleArrayAhoCorasick::<u32, Global>::deserialize(alloc, bytes) {
        Ok((automaton, _rest)) => Ok(automaton),
        Err(cause) => Err(CommandError::Load(name, cause)),
    }
}

// Whether the automaton is for the searches that the options ask for.
fn is_saved_with(
    options: &Options<'_, Global>,
    automaton: &DoubleArrayAhoCorasick<u32, Global>,
) -> bool
    ensures { IsTrue result ↔ IsSavedWith options.now.flags automaton.now }
{
    automaton.match_kind() == kind(options)
        && automaton.is_ascii_case_insensitive() == options.has(Flag::IgnoreCase)
}

// Builds the automaton of the patterns of these lines, as the options ask for it.
fn build(
    alloc: Global,
    options: &Options<'_, Global>,
    rules: &[&[u8]],
) -> Result<DoubleArrayAhoCorasick<u32, Global>, DaachorseError>
    ensures ok { IfOk result (IsBuiltOf value_gives (kind_asked options.now.flags) (asks IgnoreCase options.now.flags)
        (map (pattern_of (asks Values options.now.flags)) (map (λ r. r.now) rules.now))) }
    ensures err { IfErr result (IsBuildRefusal value_gives (kind_asked options.now.flags)
        (all_as_read (asks IgnoreCase options.now.flags) (map (pattern_of (asks Values options.now.flags)) (map (λ r. r.now) rules.now)))) }
{
    let patterns = patterns(alloc, options.has(Flag::Values), rules)?;
    let folds = options.has(Flag::IgnoreCase);
    build_of(alloc, kind(options), folds, &patterns)
}

fn build_of(
    alloc: Global,
    kind: MatchKind,
    folds: bool,
    patterns: &[&[u8]],
) -> Result<DoubleArrayAhoCorasick<u32, Global>, DaachorseError>
    ensures ok { IfOk result (IsBuiltOf value_gives kind folds (map (λ p. p.now) patterns.now)) }
    ensures err { IfErr result (IsBuildRefusal value_gives kind (all_as_read folds (map (λ p. p.now) patterns.now))) }
{
    let builder = DoubleArrayAhoCorasickBuilder::new()
        .match_kind(kind)
        .ascii_case_insensitive(folds);
    builder.build(alloc, patterns.iter().copied())
}

// The patterns of lines.
fn patterns<'r>(
    alloc: Global,
    have_values: bool,
    rules: &[&'r [u8]],
) -> Result<Vec<&'r [u8]>, AllocError>
    ensures { IfOk result (λ v. map (λ p. p.now) v.items ≡ map (pattern_of have_values) (map (λ r. r.now) rules.now)) }
{
    let mut patterns = Vec::new(alloc);
    for rule in rules {
        patterns.push(pattern_of(have_values, rule))?;
    }
    Ok(patterns)
}

fn kind(options: &Options<'_, Global>) -> MatchKind
    ensures { result ≡ kind_asked options.now.flags }
{
    if options.has(Flag::Overlapping) {
        MatchKind::Standard
    } else if options.has(Flag::First) {
        MatchKind::LeftmostFirst
    } else {
        MatchKind::LeftmostLongest
    }
}
