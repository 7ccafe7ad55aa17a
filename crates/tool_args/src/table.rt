//! The commands of the program with their arguments, as `clap` takes them.

ghost use Rattle.std.specs.Prelude.{◌≡◌, IfOk, false, map, fold};
ghost use Rattle.clap.specs.Simple.{app_of};
ghost use Rattle.clap.specs.Walk.{rule_of};
ghost use Rattle.tool_args.specs.Table.{Extends, MakesApp, command_app, flag, has_lines, help_app, is_checking};
ghost use Rattle.tool_args.specs.Table.{is_rewriting, is_writing, names, with_all, with_auto, with_strict};
ghost use Rattle.tool_args.specs.Table.{no_commands, program, with_command, with_inputs, with_keep, with_lines};
ghost use Rattle.tool_args.specs.Table.{with_missing, with_nul, with_out, written_app};

use clap::{Arg, ArgAction, Command};
use std::alloc::{AllocError, Global};

/// The name of the program.
pub const PROGRAM: &str = "index-tool";

/// The name of the command that prints help.
pub const HELP: &str = "help";

/// The name of the command that changes an index by the standard input.
pub const UPDATE: &str = "update";

/// What the program does, on one line.
const ABOUT: &str = "List, check, repair and rewrite git's index files";

/// What the help prints after the list of commands.
const STATUS: &str =
    "The status is 0 where all was done, 1 at a fault of a file or of the output, and 2 at wrong words.";

/// The help on the argument KIND.
const KIND_HELP: &str = "How ids are made: `sha1` or `sha256`";

/// The help on `--auto`, if FILE is required.
const AUTO_KIND: &str = "KIND may be left out: the repository or the file's own digest tells it";

/// The help on `--auto`, if FILE may be left out too.
const AUTO_BOTH: &str =
    "KIND may be left out (the repository or the file's own digest tells it), and FILE (that of the work tree)";

/// What the help of a command that checks lists as unchecked.
const UNCHECKED: &str =
    "Without --strict the modes, paths and ids of entries, and paths beside their directory, aren't looked at.";

/// The version of this project, and that of the crate that it ports.
const VERSION: &str = "1.0.0 (gix-index 0.55.0)";

/// Returns the help on a command.
fn about(name: &str) -> &'static str {
    match name {
        "list" => "List the entries, as `git ls-files --stage` does",
        "check" => "Check the order of the entries, the cached tree and the digest",
        "check-trees" => "Check also that the cached tree fits the entries",
        "map" => "Name each part of the file, up to its first fault",
        "map-svg" => "Draw these parts as a picture (SVG)",
        "show" => "Show all that the file holds",
        "show-json" => "Show the same as JSON",
        "trees" => "List the trees that the entries make, as `git write-tree` would",
        "rewrite" => "Write the index again",
        "rewrite4" => "Write the index again in version 4",
        "rewrite-trees" => "Write the index with a cached tree made anew",
        "update" => "Change the index, as `git update-index --index-info` does",
        _ => "Write what can be saved of a damaged index",
    }
}

/// Returns the usage line of a command.
fn usage(name: &str) -> &'static str {
    match name {
        "list" => "index-tool list [OPTIONS] <KIND> <FILE>",
        "check" => "index-tool check [OPTIONS] <KIND> <FILE>",
        "check-trees" => "index-tool check-trees [OPTIONS] <KIND> <FILE>",
        "map" => "index-tool map [OPTIONS] <KIND> <FILE>",
        "map-svg" => "index-tool map-svg [OPTIONS] <KIND> <FILE>",
        "show" => "index-tool show [OPTIONS] <KIND> <FILE>",
        "show-json" => "index-tool show-json [OPTIONS] <KIND> <FILE>",
        "trees" => "index-tool trees [OPTIONS] <KIND> <FILE>",
        "rewrite" => "index-tool rewrite [OPTIONS] <KIND> <FILE> <OUT>",
        "rewrite4" => "index-tool rewrite4 [OPTIONS] <KIND> <FILE> <OUT>",
        "rewrite-trees" => "index-tool rewrite-trees [OPTIONS] <KIND> <FILE> <OUT>",
        "update" => "index-tool update [OPTIONS] <KIND> <FILE>",
        _ => "index-tool salvage [OPTIONS] <KIND> <FILE> <OUT>",
    }
}

/// Returns whether the command of this name writes an index.
fn is_writing(name: &str) -> bool
    ensures { result ≡ is_writing name.now }
{
    name == "rewrite" || name == "rewrite4" || name == "rewrite-trees" || name == "salvage"
}

/// Returns whether the command of this name writes an index again.
fn is_rewriting(name: &str) -> bool
    ensures { result ≡ is_rewriting name.now }
{
    name == "rewrite" || name == "rewrite4"
}

/// Returns whether the command of this name writes lines with paths.
fn has_lines(name: &str) -> bool
    ensures { result ≡ has_lines name.now }
{
    name == "list" || name == "map" || name == "trees"
}

/// Returns whether the command of this name checks an index.
fn is_checking(name: &str) -> bool
    ensures { result ≡ is_checking name.now }
{
    name == "check" || name == "check-trees"
}

/// Returns an option without a value.
fn flag<'a>(alloc: Global, id: &'a str, help: &'a str) -> Arg<'a>
    ensures rule { rule_of result ≡ flag id.entry.now }
    ensures global { result.global ≡ false }
{
    Arg::new(alloc, id).action(ArgAction::SetTrue).help(help)
}

/// Adds `-z` to a command.
fn with_nul<'a>(
    alloc: Global,
    command: Command<'a>,
    help: &'a str,
) -> Result<Command<'a>, AllocError>
    ensures { Extends with_nul command.entry result }
{
    command.arg(flag(alloc, "z", help).short('z'))
}

/// Adds `-z` and `--quote` to a command.
fn with_lines<'a>(alloc: Global, command: Command<'a>) -> Result<Command<'a>, AllocError>
    ensures { Extends with_lines command.entry result }
{
    let help = "End each line with a NUL byte in place of a newline";
    let command = with_nul(alloc, command, help)?;
    let quote = flag(
        alloc,
        "quote",
        "Quote paths with unusual bytes, as git does",
    )
    .long("quote");
    command.arg(quote)
}

/// Adds `--missing-ok` to a command.
fn with_missing<'a>(alloc: Global, command: Command<'a>) -> Result<Command<'a>, AllocError>
    ensures { Extends with_missing command.entry result }
{
    let missing = flag(
        alloc,
        "missing-ok",
        "Give each tree its id, also where no object store has it",
    );
    command.arg(missing.long("missing-ok"))
}

/// Adds `--keep` to a command.
fn with_keep<'a>(alloc: Global, command: Command<'a>) -> Result<Command<'a>, AllocError>
    ensures { Extends with_keep command.entry result }
{
    let keep = flag(alloc, "keep", "Keep all extensions that fit, and version 4");
    command.arg(keep.long("keep"))
}

/// Adds `--all` to a command.
fn with_all<'a>(alloc: Global, command: Command<'a>) -> Result<Command<'a>, AllocError>
    ensures { Extends with_all command.entry result }
{
    let all = flag(
        alloc,
        "all",
        "Keep also what is well formed behind the first entry at fault",
    );
    command.arg(all.long("all"))
}

/// Adds `--strict` to a command.
fn with_strict<'a>(alloc: Global, command: Command<'a>) -> Result<Command<'a>, AllocError>
    ensures { Extends with_strict command.entry result }
{
    let strict = flag(
        alloc,
        "strict",
        "Check also that git takes each entry: its mode, path and id, and its place",
    );
    command.arg(strict.long("strict"))
}

/// Adds the argument OUT to a command.
fn with_out<'a>(alloc: Global, command: Command<'a>) -> Result<Command<'a>, AllocError>
    ensures { Extends with_out command.entry result }
{
    command.arg(Arg::new(alloc, "OUT").help("The path that is written to"))
}

/// Adds `-a` or `--auto` to a command.
fn with_auto<'a>(
    alloc: Global,
    command: Command<'a>,
    help: &'a str,
) -> Result<Command<'a>, AllocError>
    ensures { Extends with_auto command.entry result }
{
    let auto = flag(alloc, "auto", help);
    let lettered = auto.short('a');
    command.arg(lettered.long("auto"))
}

/// Adds the arguments KIND and FILE, and `-a` or `--auto`, to a command.
fn with_inputs<'a>(
    alloc: Global,
    command: Command<'a>,
    file_help: &'a str,
    auto_help: &'a str,
) -> Result<Command<'a>, AllocError>
    ensures { Extends with_inputs command.entry result }
{
    let kind = Arg::new(alloc, "KIND").help(KIND_HELP);
    let file = Arg::new(alloc, "FILE").help(file_help);
    with_auto(alloc, command.arg(kind)?.arg(file)?, auto_help)
}

/// Returns the command of this name that writes, with its arguments after KIND and FILE.
fn writing_command<'a>(
    alloc: Global,
    name: &'a str,
    command: Command<'a>,
) -> Result<Command<'a>, AllocError>
    ensures { Extends (written_app name.entry.now) command.entry result }
{
    let command = with_out(alloc, command)?;
    if name == "rewrite-trees" {
        return with_missing(alloc, command);
    }
    if is_rewriting(name) {
        return with_keep(alloc, command);
    }
    with_all(alloc, command)
}

/// Returns the command of this name, with its arguments.
pub fn command<'a>(alloc: Global, name: &'a str) -> Result<Command<'a>, AllocError>
    ensures { MakesApp (command_app name.entry.now) result }
{
    let command = Command::new(alloc, name)
        .about(about(name))
        .override_usage(usage(name));
    if is_writing(name) {
        let file = "The index that is read, or `-` for the standard input";
        return writing_command(alloc, name, with_inputs(alloc, command, file, AUTO_KIND)?);
    }
    if name == UPDATE {
        let file = "The index that is changed";
        let help = "Lines of changes end with a NUL byte, and no path is quoted";
        return with_nul(alloc, with_inputs(alloc, command, file, AUTO_KIND)?, help);
    }
    let file = "The index, or `-` for the standard input";
    let command = with_inputs(alloc, command, file, AUTO_BOTH)?;
    if has_lines(name) {
        return with_lines(alloc, command);
    }
    if is_checking(name) {
        return with_strict(alloc, command.after_help(UNCHECKED));
    }
    Ok(command)
}

/// Returns the program without its commands.
fn no_commands<'a>(alloc: Global) -> Result<Command<'a>, AllocError>
    ensures { IfOk result (λ c. app_of c ≡ no_commands) }
{
    let program = Command::new(alloc, PROGRAM)
        .version(VERSION)
        .about(ABOUT)
        .after_help(STATUS)
        .no_binary_name(true)
        .disable_help_subcommand(true)
        .subcommand_required(true)
        .arg_required_else_help(true);
    program.bin_name(PROGRAM)
}

/// Adds the command of this name to the program.
fn with<'a>(alloc: Global, program: Command<'a>, name: &'a str) -> Result<Command<'a>, AllocError>
    ensures { IfOk result (λ c. app_of c ≡ with_command (app_of program.entry) name.entry.now) }
{
    program.subcommand(command(alloc, name)?)
}

/// Returns the program with all commands that read or write an index, in the order of the help.
fn commands<'a>(alloc: Global) -> Result<Command<'a>, AllocError>
    ensures { IfOk result (λ c. app_of c ≡ fold with_command no_commands names) }
{
    let program = with(alloc, no_commands(alloc)?, "list")?;
    let program = with(alloc, program, "check")?;
    let program = with(alloc, program, "check-trees")?;
    let program = with(alloc, program, "map")?;
    let program = with(alloc, program, "map-svg")?;
    let program = with(alloc, program, "show")?;
    let program = with(alloc, program, "show-json")?;
    let program = with(alloc, program, "trees")?;
    let program = with(alloc, program, "rewrite")?;
    let program = with(alloc, program, "rewrite4")?;
    let program = with(alloc, program, "rewrite-trees")?;
    let program = with(alloc, program, UPDATE)?;
    with(alloc, program, "salvage")
}

/// Returns the command that prints help.
fn help<'a>(alloc: Global) -> Result<Command<'a>, AllocError>
    ensures { MakesApp help_app result }
{
    let name = Arg::new(alloc, "COMMAND").help("The command that it is on");
    Command::new(alloc, HELP)
        .about("Print this help, or that of a command")
        .arg(name)
}

/// Returns the program with all its commands.
pub fn program<'a>(alloc: Global) -> Result<Command<'a>, AllocError>
    ensures { IfOk result (λ c. app_of c ≡ program) }
{
    commands(alloc)?.subcommand(help(alloc)?)
}
