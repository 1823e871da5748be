//! The flags: options without an argument, and the text that asks for each.

ghost use Rattle.std.specs.Prelude.{◌≡◌};
ghost use Rattle.daacgrep_command.specs.Flags.{flag_of};

/// An option without an argument.
#[derive(Clone, Copy, Debug, PartialEq, Eq)]
pub enum Flag {
    /// `-H`: each line has the name of its file in front.
    WithName,
    /// `-h`: no line has the name of its file.
    NoName,
    /// `-o`: each match in place of its line.
    OnlyMatches,
    /// `-b`: each line has its place in front, and with `-o` each match.
    Places,
    /// `-n`: each line has its number in front.
    Numbers,
    /// `-c`: of each file the number of its lines.
    Count,
    /// `-l`: the names of the files alone.
    FileNames,
    /// `-q`: nothing is printed.
    Quiet,
    /// `-i`: the case of ASCII letters is ignored.
    IgnoreCase,
    /// `-v`: the lines without a match.
    Invert,
    /// `--null-data`: zero bytes end lines, and not line feeds.
    NullData,
    /// `--longest`: of the matches at one start the longest counts.
    Longest,
    /// `--first`: of the matches at one start that of the first pattern counts.
    First,
    /// `--overlapping`: all matches count, also those that overlap.
    Overlapping,
    /// `--values`: the lines of patterns have values after a tab, and each line or match has that
    /// of its pattern in front.
    Values,
    /// `--help`: the usage.
    Help,
    /// `--version`: the version.
    Version,
}

impl Flag {
    /// Returns the flag that the text asks for, if any.
    pub fn from_text(text: &[u8]) -> Option<Flag>
        ensures { result ≡ flag_of text.now }
    {
        match text {
            b"-H" => Some(Flag::WithName),
            b"-h" => Some(Flag::NoName),
            b"-o" => Some(Flag::OnlyMatches),
            b"-b" => Some(Flag::Places),
            b"-n" => Some(Flag::Numbers),
            b"-c" => Some(Flag::Count),
            b"-l" => Some(Flag::FileNames),
            b"-q" => Some(Flag::Quiet),
            b"-i" => Some(Flag::IgnoreCase),
            b"-v" => Some(Flag::Invert),
            b"--null-data" => Some(Flag::NullData),
            b"--longest" => Some(Flag::Longest),
            b"--first" => Some(Flag::First),
            b"--overlapping" => Some(Flag::Overlapping),
            b"--values" => Some(Flag::Values),
            b"--help" => Some(Flag::Help),
            b"--version" => Some(Flag::Version),
            _ => None,
        }
    }
}
