//! The options: what the words of a command line ask for.

ghost use Rattle.std.specs.Prelude.{◌≡◌, ◌≤◌, ◌<◌, ◌∷◌, [], ℕ, IfErr, IfOk, OnOk, length, map, unwrap_or};
ghost use Rattle.std.specs.Option.{option_map};
ghost use Rattle.daacgrep_command.specs.declared.options.Role.TheVariants.{Any};
ghost use Rattle.daacgrep_command.specs.declared.options.Shape.TheVariants.{Letters};
ghost use Rattle.daacgrep_command.specs.Options.{AreKnown, CanBeMet, IsCause, IsRefusal, Takes, asked, asked_by, clash_of, flag_letters};
ghost use Rattle.daacgrep_command.specs.Options.{flag_or_unknown, last_of, letters_ask, long_asks, long_role, options_of, requests};
ghost use Rattle.daacgrep_command.specs.Options.{role_after, role_after_letters, role_of_word, save_clash, shape_of};
ghost use Rattle.daacgrep_command.specs.Flags.{asks, flag_of};

use crate::clash::Clash;
use crate::flag::Flag;
use std::alloc::{AllocError, AllocFailed, Allocator};
use std::marker::Model;
use thiserror::Error;

/// Why words ask for nothing that can be done. Its text names the word.
#[derive(Debug, Drop, Error)]
pub enum OptionError<'a> {
    /// No option is written so.
    #[error("daacgrep: unknown option {0}")]
    Unknown(&'a str),
    /// The last word is an option that has its argument in a word after it.
    #[error("daacgrep: {0} has no argument")]
    Missing(&'static str),
    /// Options do not go together.
    #[error("daacgrep: {0}")]
    Clashing(Clash),
    /// An allocation failed.
    #[error("daacgrep: {0}")]
    OutOfMemory(AllocError),
}

impl From<AllocError> for OptionError<'_> {
    ghost use Rattle.std.specs.Prelude.{alloc_error};
    ghost use Rattle.daacgrep_command.specs.declared.options.OptionError.TheVariants.{OutOfMemory};

    ghost from_gives = { λ _ e. e ≡ OutOfMemory alloc_error };

    fn from(error: AllocError) -> Self {
        OptionError::OutOfMemory(error)
    }
}

impl<T: Drop> From<AllocFailed<T>> for OptionError<'_> {
    ghost use Rattle.std.specs.Prelude.{alloc_error};
    ghost use Rattle.daacgrep_command.specs.declared.options.OptionError.TheVariants.{OutOfMemory};

    ghost from_gives = { λ _ e. e ≡ OutOfMemory alloc_error };

    fn from(error: AllocFailed<T>) -> Self {
        OptionError::OutOfMemory(error.into())
    }
}

/// How a word is read.
#[derive(Clone, Copy, Debug, PartialEq, Eq)]
pub enum Role {
    /// As an option or a file's name.
    Any,
    /// As a pattern: `-e` stands before it.
    Pattern,
    /// As the name of a file of patterns: `-f` stands before it.
    PatternFile,
    /// As the name of a file that is written: `--save` stands before it.
    Save,
    /// As the name of a written file: `--load` stands before it.
    Load,
    /// As a file's name: `--` stands before it.
    File,
}

/// What a word is, by its dashes.
#[derive(Clone, Copy, Debug, PartialEq, Eq)]
pub enum Shape {
    /// The name of a file.
    Name,
    /// Letters after a dash.
    Letters,
    /// A word after two dashes.
    Long,
    /// Two dashes alone, which end the options.
    End,
}

impl Shape {
    /// Returns the shape of a word.
    pub fn of(word: &[u8]) -> Shape
        ensures shape { result ≡ shape_of word.now }
        ensures letters { result ≡ Letters → 2 ≤ length word.now }
    {
        if word.len() < 2 || word[0] != b'-' {
            Shape::Name
        } else if word[1] != b'-' {
            Shape::Letters
        } else if word.len() > 2 {
            Shape::Long
        } else {
            Shape::End
        }
    }
}

/// What the words of a command line ask for.
#[derive(Drop)]
pub struct Options<'a, A: Allocator> {
    flags: Vec<Flag, A>,
    patterns: Vec<&'a str, A>,
    pattern_files: Vec<&'a str, A>,
    saves: Vec<&'a str, A>,
    loads: Vec<&'a str, A>,
    files: Vec<&'a str, A>,
}

impl<'a, A: Allocator> Model for Options<'a, A> {
    ghost use Rattle.std.specs.Prelude.{map};
    ghost use Rattle.daacgrep_command.specs.Options.{Asked};

    ghost Value = { Asked };

    ghost view = { λ o. record {
      flags = o.flags.items;
      patterns = map (λ t. t.now) o.patterns.items;
      pattern_files = map (λ t. t.now) o.pattern_files.items;
      saves = map (λ t. t.now) o.saves.items;
      loads = map (λ t. t.now) o.loads.items;
      files = map (λ t. t.now) o.files.items;
    } };
}

impl<'a, A: Allocator + Copy> Options<'a, A> {
    /// Reads the words after the program's name.
    ///
    /// # Errors
    ///
    /// [`OptionError::Unknown`] and [`OptionError::Missing`], which name the word,
    /// [`OptionError::Clashing`] if options do not go together, and [`OptionError::OutOfMemory`] if
    /// an allocation fails.
    pub fn read(alloc: A, words: &[&'a str]) -> Result<Self, OptionError<'a>>
        ensures met { OnOk result (CanBeMet (requests Any (map (λ w. w.now) words.now))) }
        ensures ok { IfOk result (λ o. o ≡ options_of (requests Any (map (λ w. w.now) words.now))) }
        ensures err { IfErr result (λ e. IsRefusal e (requests Any (map (λ w. w.now) words.now))) }
    {
        let options = Options::read_words(alloc, words)?;
        match options.clash() {
            Some(clash) => Err(OptionError::Clashing(clash)),
            None => Ok(options),
        }
    }

    // Reads the words, whether or not they go together.
    fn read_words(alloc: A, words: &[&'a str]) -> Result<Self, OptionError<'a>>
        ensures known { OnOk result (AreKnown (requests Any (map (λ w. w.now) words.now))) }
        ensures ok { IfOk result (λ o. o ≡ options_of (requests Any (map (λ w. w.now) words.now))) }
        ensures err { IfErr result (λ e. IsCause e (requests Any (map (λ w. w.now) words.now))) }
    {
        let mut options = Options::new(alloc);
        let mut role = Role::Any;
        for word in words {
            role = options.take(role, word)?;
        }
        match role {
            Role::Pattern => Err(OptionError::Missing("-e")),
            Role::PatternFile => Err(OptionError::Missing("-f")),
            Role::Save => Err(OptionError::Missing("--save")),
            Role::Load => Err(OptionError::Missing("--load")),
            Role::Any | Role::File => Ok(options),
        }
    }

    /// Returns whether the flag is asked for.
    pub fn has(&self, flag: Flag) -> bool
        ensures { result ≡ asks flag self.now.flags }
    {
        self.flags.contains(&flag)
    }

    /// The patterns of `-e`.
    pub fn patterns(&self) -> &[&'a str]
        ensures { map (λ t. t.now) result.now ≡ self.now.patterns }
    {
        &self.patterns
    }

    /// The files of `-f`.
    pub fn pattern_files(&self) -> &[&'a str]
        ensures { map (λ t. t.now) result.now ≡ self.now.pattern_files }
    {
        &self.pattern_files
    }

    /// The file that the automaton is written to, if any: that of the last `--save`.
    pub fn save_file(&self) -> Option<&'a str>
        ensures { option_map (λ n. n.now) result ≡ last_of self.now.saves }
    {
        last_name(&self.saves)
    }

    /// The file that the automaton is read from, if any: that of the last `--load`.
    pub fn load_file(&self) -> Option<&'a str>
        ensures { option_map (λ n. n.now) result ≡ last_of self.now.loads }
    {
        last_name(&self.loads)
    }

    /// The files that are searched.
    pub fn files(&self) -> &[&'a str]
        ensures { map (λ t. t.now) result.now ≡ self.now.files }
    {
        &self.files
    }

    // What does not go together, if anything.
    fn clash(&self) -> Option<Clash>
        ensures { result ≡ clash_of self.now }
    {
        let has_values = self.has(Flag::Values);
        let has_patterns = !self.patterns().is_empty();
        let has_pattern_files = !self.pattern_files().is_empty();
        if self.load_file().is_none() {
            self.clash_with_save()
        } else if has_values && !has_pattern_files {
            Some(Clash::NoLines)
        } else if !has_values && (has_patterns || has_pattern_files) {
            Some(Clash::Patterns)
        } else {
            self.clash_with_save()
        }
    }

    fn clash_with_save(&self) -> Option<Clash>
        ensures { result ≡ save_clash self.now }
    {
        if self.save_file().is_some() && !self.files().is_empty() {
            Some(Clash::Files)
        } else {
            None
        }
    }

    fn new(alloc: A) -> Self
        ensures { result ≡ options_of [] }
    {
        Options {
            flags: Vec::new(alloc),
            patterns: Vec::new(alloc),
            pattern_files: Vec::new(alloc),
            saves: Vec::new(alloc),
            loads: Vec::new(alloc),
            files: Vec::new(alloc),
        }
    }

    // Takes what the word asks for, and returns how the next word is read.
    fn take(&mut self, role: Role, word: &'a str) -> Result<Role, OptionError<'a>>
        ensures takes { Takes self.old self.new (asked_by role word.now) result }
        ensures role { IfOk result (λ r. r ≡ role_after role word.now) }
    {
        match role {
            Role::Any => self.take_any(word),
            Role::Pattern => {
                self.patterns.push(word)?;
                Ok(Role::Any)
            }
            Role::PatternFile => {
                self.pattern_files.push(word)?;
                Ok(Role::Any)
            }
            Role::Save => {
                self.saves.push(word)?;
                Ok(Role::Any)
            }
            Role::Load => {
                self.loads.push(word)?;
                Ok(Role::Any)
            }
            Role::File => {
                self.files.push(word)?;
                Ok(Role::File)
            }
        }
    }

    fn take_any(&mut self, word: &'a str) -> Result<Role, OptionError<'a>>
        ensures takes { Takes self.old self.new (asked word.now) result }
        ensures role { IfOk result (λ r. r ≡ role_of_word word.now) }
    {
        let bytes = word.as_bytes();
        match Shape::of(bytes) {
            Shape::Name => {
                self.files.push(word)?;
                Ok(Role::Any)
            }
            Shape::Letters => self.take_letters(word, &bytes[1..]),
            Shape::Long => self.take_long(word),
            Shape::End => Ok(Role::File),
        }
    }

    fn take_long(&mut self, word: &'a str) -> Result<Role, OptionError<'a>>
        ensures takes { Takes self.old self.new (long_asks (long_role word.now) word.now) result }
        ensures role { IfOk result (λ r. r ≡ unwrap_or (long_role word.now) Any) }
    {
        match long_role(word) {
            Some(role) => Ok(role),
            None => {
                self.take_flag(word, word.as_bytes())?;
                Ok(Role::Any)
            }
        }
    }

    fn take_letters(&mut self, word: &'a str, letters: &[u8]) -> Result<Role, OptionError<'a>>
        requires { 0 < length letters.now }
        ensures takes { Takes self.old self.new (letters_ask word.now (flag_letters letters.now)) result }
        ensures role { IfOk result (λ r. r ≡ role_after_letters letters.now) }
    {
        let (flags, role) = without_argument(letters);
        self.take_flags(word, flags)?;
        Ok(role)
    }

    fn take_flags(&mut self, word: &'a str, letters: &[u8]) -> Result<(), OptionError<'a>>
        ensures { Takes self.old self.new (letters_ask word.now letters.now) result }
    {
        for letter in letters {
            self.take_flag(word, &[b'-', *letter])?;
        }
        Ok(())
    }

    fn take_flag(&mut self, word: &'a str, text: &[u8]) -> Result<(), OptionError<'a>>
        ensures { Takes self.old self.new (flag_or_unknown word.now (flag_of text.now) ∷ []) result }
    {
        match Flag::from_text(text) {
            Some(flag) => {
                self.flags.push(flag)?;
                Ok(())
            }
            None => Err(OptionError::Unknown(word)),
        }
    }
}

// The last of some names.
fn last_name<'a>(names: &[&'a str]) -> Option<&'a str>
    ensures { option_map (λ n. n.now) result ≡ last_of (map (λ n. n.now) names.now) }
{
    names.last().copied()
}

// How the word after a long option is read, if it is an argument.
fn long_role(word: &str) -> Option<Role>
    ensures { result ≡ long_role word.now }
{
    match word {
        "--save" => Some(Role::Save),
        "--load" => Some(Role::Load),
        _ => None,
    }
}

// The letters before an `e` or an `f` at the end, and how the word after them is read.
fn without_argument(letters: &[u8]) -> (&[u8], Role)
    requires { 0 < length letters.now }
    ensures front { result.0.now ≡ flag_letters letters.now }
    ensures role { result.1 ≡ role_after_letters letters.now }
{
    let end = letters.len() - 1;
    match letters[end] {
        b'e' => (&letters[..end], Role::Pattern),
        b'f' => (&letters[..end], Role::PatternFile),
        _ => (letters, Role::Any),
    }
}
