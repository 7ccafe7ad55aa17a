//! The commands, from arguments to a status.

ghost use Rattle.std.specs.Prelude.{◌≡◌, ◌≤◌, false, true};
ghost use Rattle.std.specs.Io.KnownBytes.{Keeps};
ghost use Rattle.std.specs.Option.{option_map};
ghost use Rattle.tool_args.specs.Answers.{is_asked_for};
ghost use Rattle.tool_args.specs.Commands.{command_value, place_of};
ghost use Rattle.index_tool.specs.Calls.{Acts, EndsByStatus, EndsRun, FindsFileAndKind, FindsFilePath, HoldsInput};
ghost use Rattle.index_tool.specs.Calls.{IsRefusable};
ghost use Rattle.index_tool.specs.Calls.{KeepsFaults, InspectOutput, WritesOf, reports_by, reports_in};
ghost use Rattle.index_tool.specs.Command.{given_of, input_of};
ghost use Rattle.index_tool.specs.Ending.{IsWrong};
ghost use Rattle.index_tool.specs.Outcome.{form4_of, form_of, plain_checks, tree_checks};

use crate::line::{put_line, put_text};
use crate::terminal::{Console, STANDARD_INPUT};
use gix_index::file::folder::{Folder, Standing};
use gix_index::hash::Kind;
use gix_index::hash::io::Out;
use std::alloc::Global;
use std::path::{Path, PathBuf};
use std::{fmt, io};
use tool_args::{Answer, Command, Input, Reading, Writing, parse};
use tool_defaults::{Surroundings, index_path, kind_at};
use tool_edit::check::{Checks, check};
use tool_edit::list::list;
use tool_edit::rewrite::{Form, rewrite};
use tool_edit::rewrite_trees::{Counts, rewrite_trees};
use tool_edit::trees::trees;
use tool_edit::update::update;
use tool_errors::failure::Failure;
use tool_inspect::map::map;
use tool_inspect::map_svg::map_svg;
use tool_inspect::salvage::{Report, salvage};
use tool_inspect::show::{ShowFormat, show};

/// The status of a command that succeeded.
pub const DONE: u8 = 0;
/// The status of a command that failed.
pub const REFUSED: u8 = 1;
/// The status of a usage error.
pub const WRONG_WORDS: u8 = 2;

/// The index that a command is about.
#[derive(Drop)]
struct Found {
    /// The path of its file.
    path: String,
    /// The hash algorithm of its ids.
    kind: Kind,
}

/// Reads the standard input, which is the file [`STANDARD_INPUT`] from here on.
fn hold<D: Console>(folder: &mut D, alloc: Global) -> Result<(), tool_defaults::Error>
    ensures { HoldsInput D.Folder folder.old folder.new result }
{
    if let Err(error) = folder.hold_input(alloc) {
        let path = PathBuf::from_str(alloc, STANDARD_INPUT)?;
        return Err(tool_defaults::Error::of(path, error));
    }
    Ok(())
}

/// Returns the path of the file that an argument names, or that of the work tree's index if none is given.
fn path_of<D: Console>(
    folder: &mut D,
    alloc: Global,
    around: &Surroundings,
    input: Option<Input<'_>>,
) -> Result<String, tool_defaults::Error>
    ensures { FindsFilePath D.Folder folder.old folder.new around.now input.entry result }
{
    match input {
        Some(Input::File(path)) => Ok(String::from_str(alloc, path)?),
        Some(Input::Changed(path)) => {
            hold(folder, alloc)?;
            Ok(String::from_str(alloc, path)?)
        }
        Some(Input::Stdin) => {
            hold(folder, alloc)?;
            Ok(String::from_str(alloc, STANDARD_INPUT)?)
        }
        None => index_path(folder, alloc, around),
    }
}

/// Returns the index that the arguments name, and finds what they leave out.
fn find<D: Console>(
    folder: &mut D,
    alloc: Global,
    around: &Surroundings,
    given: Option<Kind>,
    input: Option<Input<'_>>,
) -> Result<Found, tool_defaults::Error>
    ensures { FindsFileAndKind D.Folder folder.old folder.new around.now given input.entry result }
{
    let path = path_of(folder, alloc, around, input)?;
    let kind = match given {
        Some(kind) => kind,
        None => kind_at(folder, alloc, path.as_str())?,
    };
    Ok(Found { path, kind })
}

/// Returns what `check` checks.
fn plain_checks(strict: bool) -> Checks
    ensures { result ≡ plain_checks strict }
{
    Checks {
        trees: false,
        strict,
    }
}

/// Returns what `check-trees` checks.
fn tree_checks(strict: bool) -> Checks
    ensures { result ≡ tree_checks strict }
{
    Checks {
        trees: true,
        strict,
    }
}

/// Prints what is requested of the index in a file. On success all of it was written to `out`.
fn tell<'a, D: Folder, W: Out>(
    folder: &D,
    alloc: Global,
    what: Reading,
    kind: Kind,
    path: &'a str,
    out: &mut W,
) -> Result<(), Failure<'a>>
    ensures { InspectOutput what D.Folder folder.now kind path.now W.Out out.old out.new result }
{
    match what {
        Reading::List(lines) => list(folder, alloc, lines, kind, path, out),
        Reading::Check { strict } => check(folder, alloc, plain_checks(strict), kind, path, out),
        Reading::CheckTrees { strict } => {
            check(folder, alloc, tree_checks(strict), kind, path, out)
        }
        Reading::Map(lines) => map(folder, alloc, lines, kind, path, out),
        Reading::MapSvg => map_svg(folder, alloc, kind, path, out),
        Reading::Show => show(folder, alloc, ShowFormat::Lines, kind, path, out),
        Reading::ShowJson => show(folder, alloc, ShowFormat::Json, kind, path, out),
        Reading::Trees(lines) => trees(folder, alloc, lines, kind, path, out),
    }
}

/// Returns the options with which an index is written again. With `keep` all extensions that fit are preserved.
fn form_of(keep: bool) -> Form
    ensures { result ≡ form_of keep }
{
    if keep { Form::AsRead } else { Form::Smallest }
}

/// Returns the options with which an index is written again in version 4. With `keep` all extensions that fit are
/// preserved.
fn form4_of(keep: bool) -> Form
    ensures { result ≡ form4_of keep }
{
    if keep { Form::AsReadV4 } else { Form::V4 }
}

/// Writes what is requested of the index in a file to another path. Only `salvage` returns a report.
fn write<'a, D: Folder>(
    folder: &mut D,
    alloc: Global,
    what: Writing,
    index: &'a Found,
    to: &'a str,
) -> Result<Option<Report<'a>>, Failure<'a>>
    ensures { WritesOf what D.Folder folder.old folder.new index.now to.now result }
{
    let (kind, path) = (index.kind, index.path.as_str());
    match what {
        Writing::Rewrite { keep } => rewrite(folder, alloc, form_of(keep), kind, path, to)?,
        Writing::Rewrite4 { keep } => rewrite(folder, alloc, form4_of(keep), kind, path, to)?,
        Writing::RewriteTrees { missing_ok: true } => {
            rewrite_trees(folder, alloc, Counts::All, kind, path, to)?
        }
        Writing::RewriteTrees { missing_ok: false } => {
            rewrite_trees(folder, alloc, Counts::Known, kind, path, to)?
        }
        Writing::Update { nul } => update(folder, alloc, nul, kind, STANDARD_INPUT, path, to)?,
        Writing::Salvage { all } => {
            return Ok(Some(salvage(folder, alloc, all, kind, path, to)?));
        }
    };
    Ok(None)
}

/// Prints what the arguments request. On success all of it was written to `out`.
fn print<O: Out>(alloc: Global, answer: &Answer, out: &mut O) -> io::Result<()> {
    let text = format!(in alloc; "{answer}")?;
    out.put(text.as_bytes())
}

/// Prints an answer instead of running a command, and returns its status.
fn say<O: Out, E: io::Write>(alloc: Global, answer: &Answer, out: &mut O, faults: &mut E) -> u8
    ensures status { result ≤ WRONG_WORDS }
    ensures asked { result ≡ DONE → is_asked_for answer.now ≡ true }
    ensures wrong_words { result ≡ WRONG_WORDS → IsWrong answer.now }
    ensures refused { result ≡ REFUSED → IsRefusable answer.now }
    ensures nothing { is_asked_for answer.now ≡ false
        → Keeps (O.taken out.old) (O.taken out.new) }
    ensures no_fault { result ≡ DONE → Keeps (E.contents faults.old) (E.contents faults.new) }
{
    if !answer.is_asked_for() {
        put_text(faults, answer);
        return answer.status();
    }
    match print(alloc, answer, out) {
        Ok(()) => DONE,
        Err(e) => {
            put_line(faults, &Failure::Output(e));
            REFUSED
        }
    }
}

/// A failure. If the index has ids with another hash algorithm than the arguments name, also that algorithm.
#[derive(Clone, Copy)]
struct Reported<'a>(&'a Failure<'a>, Option<Kind>);

impl fmt::Display for Reported<'_> {
    fn fmt<W: fmt::Write>(&self, f: &mut fmt::Formatter<W>) -> fmt::Result {
        write!(f, "{}", self.0)?;
        match self.1 {
            Some(Kind::Sha1) => f.write_str("; its ids are of the kind `sha1`"),
            Some(Kind::Sha256) => f.write_str("; its ids are of the kind `sha256`"),
            None => Ok(()),
        }
    }
}

/// Returns whether a regular file is at a path. (Reading a pipe would block, and a pipe gives its bytes only once.)
fn is_regular<D: Folder>(folder: &D, path: &str) -> bool {
    matches!(folder.look(Path::new(path)), Ok(Standing::File))
}

/// Returns the hash algorithm of the index in a regular file, if the index can't be read with the given one and has
/// another.
fn other_kind<D: Folder>(
    folder: &D,
    alloc: Global,
    index: &Found,
    failure: &Failure<'_>,
) -> Option<Kind> {
    let is_read = matches!(failure, Failure::Index { .. } | Failure::Damaged { .. });
    if !is_read || !is_regular(folder, index.path.as_str()) {
        return None;
    }
    match kind_at(folder, alloc, index.path.as_str()) {
        Ok(kind) if kind != index.kind => Some(kind),
        _ => None,
    }
}

/// Runs a command on its index. `Ok` if the command completed, with the report if there is one.
fn run_command<'a, D: Folder, O: Out>(
    folder: &mut D,
    alloc: Global,
    command: Command<'a>,
    index: &'a Found,
    out: &mut O,
) -> Result<Option<Report<'a>>, Failure<'a>>
    ensures { Acts command.entry index.now D.Folder folder.old folder.new O.Out out.old out.new
        result }
{
    match command {
        Command::Read { what, .. } => {
            tell(folder, alloc, what, index.kind, index.path.as_str(), out)?;
            Ok(None)
        }
        Command::Write { what, to, .. } => write(folder, alloc, what, index, to),
    }
}

/// Runs a command on its index, writes lines to `faults`, and returns the status.
fn run_on<D: Folder, O: Out, E: io::Write>(
    folder: &mut D,
    alloc: Global,
    command: Command<'_>,
    index: &Found,
    out: &mut O,
    faults: &mut E,
) -> u8
    ensures ends { EndsByStatus command.entry index.now D.Folder folder.old folder.new
        O.Out out.old out.new result }
    ensures no_fault { KeepsFaults (reports_by command.entry) E.contents faults.old faults.new
        result }
{
    match run_command(folder, alloc, command, index, out) {
        Ok(None) => DONE,
        Ok(Some(report)) => {
            put_line(faults, &report);
            DONE
        }
        Err(failure) => {
            let other = other_kind(folder, alloc, index, &failure);
            put_line(faults, &Reported(&failure, other));
            REFUSED
        }
    }
}

/// Returns the hash algorithm and the location of a command's index, as far as the arguments name them.
fn kind_and_place<'a>(command: &Command<'a>) -> (Option<Kind>, Option<Input<'a>>)
    ensures kind { result.0 ≡ given_of (command_value command.now) }
    ensures input { option_map place_of result.1 ≡ input_of (command_value command.now) }
{
    match *command {
        Command::Read { kind, input, .. } => (kind, input),
        Command::Write { kind, input, .. } => (kind, Some(input)),
    }
}

/// Runs the command that these arguments are by [`parse`], and returns the status with which the program ends.
///
/// # The index
///
/// - FILE is the file at that path, or the standard input. The standard input is read first and then is the file
///   [`STANDARD_INPUT`]. If `--auto` lets FILE be left out, it is the one that [`index_path`] finds.
/// - The hash algorithm is KIND. If KIND is left out, it is what [`kind_at`] returns for that file.
///
/// # Commands that print
///
/// - `list` writes a line to `out` for each entry, including those of the shared index that FILE links to.
/// - `check` writes `ok` and a newline if the file's checksum matches, the entries are in order and the cache tree
///   (TREE) is consistent.
/// - `check-trees` does so if the cache tree also has what the entries give.
/// - With `--strict` both also require that git accepts each entry, and that none is below a file or a sparse
///   directory.
/// - `trees` writes a line for each directory of the trees that the entries make.
/// - `map` writes a line for each part of FILE, up to the first error. `map-svg` writes a picture of these parts.
/// - `show` writes lines of what FILE holds, and `show-json` the same as JSON.
///
/// `map`, `map-svg`, `show` and `show-json` don't read the shared index.
///
/// # Commands that write
///
/// They write to the path OUT. OUT is locked before FILE is opened, as git locks an index. Nothing is written to `out`.
///
/// - `rewrite` writes the index with the default options, and OUT gets the time of FILE. With `--keep` it has all
///   extensions that fit, and version 4 if FILE has it. `rewrite4` does so in version 4.
/// - `rewrite-trees` writes the index with a rebuilt cache tree. A directory has a count and an id if that of FILE has
///   the same. With `--missing-ok` each has them, including those of trees that no object store has yet.
/// - `update` reads changes from the standard input, and replaces FILE with the changed index under FILE's lock. If
///   there is no file, it begins with an empty index.
/// - `salvage` writes what can be saved of FILE, in version 4 if FILE has it. It includes the entries of the shared
///   index if that can be read. It preserves the entries before the first invalid one, or with `--all` each that is
///   well formed.
///
/// `salvage` reports on one line on `faults` how many entries were declared, read and preserved, and which is the first
/// invalid one. The line also has the offset of the file's first error, and whether the entries of a shared index are
/// missing.
///
/// # Status
///
/// - [`DONE`]: the command completed, or `out` took the help or the version that the arguments request.
/// - [`REFUSED`]: the index isn't found, a file can't be read or written, or is no such index, or `out` failed. One
///   line on `faults` names the file that it concerns.
/// - [`WRONG_WORDS`]: the arguments are no command, and one line on `faults` describes the usage error. No file is
///   opened.
///
/// Nothing is written to `out` before FILE was read completely and all checks have passed. The exceptions are `map` and
/// `map-svg`, which write all of the map or the picture of a damaged file. A line is written to `faults` by one call,
/// and is cut after 4096 bytes.
pub fn run_in<D: Console, O: Out, E: io::Write>(
    folder: &mut D,
    alloc: Global,
    around: &Surroundings,
    words: &[String],
    out: &mut O,
    faults: &mut E,
) -> u8
    ensures ends { EndsRun around.now words.now D.Folder folder.old folder.new
        O.Out out.old out.new result }
    ensures no_fault { KeepsFaults (reports_in words.now) E.contents faults.old faults.new result }
{
    let command = match parse(alloc, words) {
        Ok(command) => command,
        Err(answer) => return say(alloc, &answer, out, faults),
    };
    let (kind, input) = kind_and_place(&command);
    match find(folder, alloc, around, kind, input) {
        Ok(index) => run_on(folder, alloc, command, &index, out, faults),
        Err(fault) => {
            put_line(faults, &fault);
            REFUSED
        }
    }
}
