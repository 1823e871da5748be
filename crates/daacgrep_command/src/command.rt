//! The command: from the words of a command line to a status.

ghost use Rattle.std.specs.Prelude.{◌≡◌, ◌<◌, IfErr, IfOk, OnOk, map};
ghost use Rattle.daacgrep_command.specs.declared.error.CommandError.TheVariants.{Write};
ghost use Rattle.daacgrep_command.specs.Asked.{IsSearched, IsUsage, end_asked, names_asked, report_asked, task_of, version_text};
ghost use Rattle.daacgrep_command.specs.Ends.{AttemptEndsBy, Ends, EndsBy};
ghost use Rattle.daacgrep_command.specs.FileSystems.{OnlyReads};
ghost use Rattle.daacgrep_command.specs.Jobs.{wanted_of};
ghost use Rattle.daacgrep_command.specs.Sending.{IsWritten};

use crate::automaton::{automaton, save};
use crate::error::CommandError;
use crate::file_system::FileSystem;
use crate::flag::Flag;
use crate::messages::{Message, Messages};
use crate::options::Options;
use crate::output::Output;
use crate::patterns::{lines, text};
use crate::printing::Labels;
use crate::search::{Job, Report, Task};
use crate::searcher::Searcher;
use crate::window::Window;
use std::alloc::Global;

// The names that are searched where none is given.
const STANDARD_INPUT: &[&str] = &["-"];

/// Runs the command, and returns its status: 0 if a line is selected, 1 if none is, and 2 after
/// trouble. A file that cannot be read, or not to its end, is reported on `err`, and the search
/// goes on with the next; what ends the command is the last message there.
/// With `--save` the automaton is written to a file, the status is 0, and no file is searched.
pub fn command<F: FileSystem, S: Output, M: Messages>(
    alloc: Global,
    words: &[&str],
    files: &mut F,
    out: &mut S,
    err: &mut M,
) -> u8
    ensures ends { EndsBy (map (λ w. w.now) words.now) (F.sees files.old) (F.sees files.new) (S.sees out.old) (S.sees out.new)
        (M.sent err.old) (M.sent err.new) result }
    ensures flushed { result < 2 → (S.sees out.old).unflushed ≡ 0 → (S.sees out.new).unflushed ≡ 0 }
{
    match attempt(alloc, words, files, out, err) {
        Ok(status) => status,
        Err(error) => {
            err.send(Message::Failure(error));
            2
        }
    }
}

fn attempt<'a, F: FileSystem, S: Output, M: Messages>(
    alloc: Global,
    words: &[&'a str],
    files: &mut F,
    out: &mut S,
    err: &mut M,
) -> Result<u8, CommandError<'a>>
    ensures ends { AttemptEndsBy (map (λ w. w.now) words.now) (F.sees files.old) (F.sees files.new) (S.sees out.old) (S.sees out.new)
        (M.sent err.old) (M.sent err.new) result }
    ensures flushed { OnOk result ((S.sees out.old).unflushed ≡ 0 → (S.sees out.new).unflushed ≡ 0) }
{
    let options = Options::read(alloc, words)?;
    answer(alloc, &options, files, out, err)
}

// Does what the options ask for.
fn answer<'a, F: FileSystem, S: Output, M: Messages>(
    alloc: Global,
    options: &Options<'a, Global>,
    files: &mut F,
    out: &mut S,
    err: &mut M,
) -> Result<u8, CommandError<'a>>
    ensures ends { Ends options.now (F.sees files.old) (F.sees files.new) (S.sees out.old) (S.sees out.new) (M.sent err.old)
        (M.sent err.new) result }
    ensures flushed { OnOk result ((S.sees out.old).unflushed ≡ 0 → (S.sees out.new).unflushed ≡ 0) }
{
    if options.has(Flag::Help) {
        return print(usage(), out);
    }
    if options.has(Flag::Version) {
        return print(version(), out);
    }
    let text = text(alloc, options, files, err)?;
    let rules = lines(alloc, &text)?;
    let automaton = automaton(alloc, options, &rules, files)?;
    match options.save_file() {
        Some(name) => save(alloc, &automaton, name, files),
        None => {
            let searcher = Searcher::new(alloc, automaton);
            let mut window = Window::new(alloc)?;
            let job = Job {
                searcher: &searcher,
                rules: &rules,
                task: task(options),
            };
            search(&job, options, files, &mut window, out, err)
        }
    }
}

fn usage() -> &'static str
    ensures { IsUsage result.now }
{
    "\
usage: daacgrep [OPTION..] -e PATTERN | -f PATTERNS | --load FILE [FILE..]
Prints the lines of files, or of standard input, in which a pattern occurs.
  -e PATTERN  a pattern; again for more
  -f FILE     the lines of a file as patterns; - for standard input
  -i          ignore the case of ASCII letters
  -v          the lines without a match
  -o          each match in place of its line
  --longest   of matches at one start the longest, as is usual
  --first     of matches at one start that of the first pattern
  --overlapping
              all matches, also those that overlap
  -n, -b      the number of the line, the place of the line or match
  -H, -h      names of files, or none
  -c, -l      the number of lines, the names of files
  -q          print nothing
  --values    a line of patterns has a value behind a tab, which is printed
              behind the number and the place of its lines or matches
  --save FILE write the automaton of the patterns to a file, and search none
  --load FILE search by an automaton that was saved with the same -i, --first
              and --overlapping; --values wants -f beside it
  --null-data zero bytes end lines, and not line feeds
  --help, --version
Status: 0 if a line is selected, 1 if none, 2 after trouble.
"
}

fn version() -> &'static str
    ensures { result.now ≡ version_text }
{
    "daacgrep 1.0.0\n"
}

// Writes a text, and flushes the output.
fn print<'a, S: Output>(text: &str, out: &mut S) -> Result<u8, CommandError<'a>>
    ensures written { IsWritten (S.sees out.old) (S.sees out.new) result text.now }
    ensures status { IfOk result (λ status. status ≡ 0) }
    ensures cause { IfErr result (λ e. e ≡ Write) }
    ensures flushed { OnOk result ((S.sees out.new).unflushed ≡ 0) }
{
    out.write(text.as_bytes())?;
    out.flush()?;
    Ok(0)
}

// Searches the files that the options name, and flushes the output.
fn search<'a, F: FileSystem, S: Output, M: Messages>(
    job: &Job<'_, Global>,
    options: &Options<'a, Global>,
    files: &mut F,
    window: &mut Window,
    out: &mut S,
    err: &mut M,
) -> Result<u8, CommandError<'a>>
    ensures reads { OnlyReads (F.sees files.old) (F.sees files.new) }
    ensures trouble { IfOk result (λ status. status ≡ 2 → (F.sees files.old).failures < (F.sees files.new).failures) }
    ensures cause { IfErr result (λ e. e ≡ Write) }
    ensures flushed { OnOk result ((S.sees out.new).unflushed ≡ 0) }
    ensures searched { IsSearched (wanted_of job.now) options.now (F.sees files.old).given (S.sees out.old) (S.sees out.new)
        (M.sent err.old) (M.sent err.new) result }
{
    let outcome = job.search_files(named(options), files, window, out, err)?;
    out.flush()?;
    Ok(outcome.status(options.has(Flag::Quiet)))
}

// The names of the files that are searched.
fn named<'o, 'a>(options: &'o Options<'a, Global>) -> &'o [&'a str]
    ensures { map (λ n. n.now) result.now ≡ names_asked options.entry.now.files }
{
    let names = options.files();
    if names.is_empty() {
        STANDARD_INPUT
    } else {
        names
    }
}

fn task(options: &Options<'_, Global>) -> Task
    ensures { result ≡ task_of options.now }
{
    let are_several = options.files().len() > 1;
    Task {
        report: report(options),
        inverts: options.has(Flag::Invert),
        labels: Labels {
            names: !options.has(Flag::NoName) && (are_several || options.has(Flag::WithName)),
            numbers: options.has(Flag::Numbers),
            places: options.has(Flag::Places),
            values: options.has(Flag::Values),
            end: line_end(options),
        },
    }
}

// The byte that ends lines.
fn line_end(options: &Options<'_, Global>) -> u8
    ensures { result ≡ end_asked options.now.flags }
{
    if options.has(Flag::NullData) {
        0
    } else {
        b'\n'
    }
}

fn report(options: &Options<'_, Global>) -> Report
    ensures { result ≡ report_asked options.now.flags }
{
    if options.has(Flag::Quiet) {
        Report::Nothing
    } else if options.has(Flag::FileNames) {
        Report::Name
    } else if options.has(Flag::Count) {
        Report::Count
    } else if options.has(Flag::OnlyMatches) {
        Report::Matches
    } else {
        Report::Lines
    }
}
