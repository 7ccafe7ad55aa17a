//! What arguments mean, and the answers to usage errors.

use crate::answer::{DONE, WRONG_WORDS};
use crate::parse;
use std::alloc::Global;
use std::test::Fail;

/// Arguments that end with this status, and a text that the answer contains.
type Row<'a> = (&'a [&'a str], u8, &'a str);

const ANSWERS: [Row; 34] = [
    (&["--help"], DONE, "Usage: index-tool <COMMAND>"),
    (&["-h"], DONE, "\n  rewrite-trees  Write the index with"),
    (&["help"], DONE, "Usage: index-tool <COMMAND>"),
    (
        &["help", "list"],
        DONE,
        "Usage: index-tool list [OPTIONS] <KIND> <FILE>",
    ),
    (
        &["salvage", "--help"],
        DONE,
        "Usage: index-tool salvage [OPTIONS] <KIND> <FILE> <OUT>",
    ),
    (&["help", "help"], DONE, "Usage: index-tool help [COMMAND]"),
    (&["--version"], DONE, " (gix-index "),
    (&["-V"], DONE, " (gix-index "),
    (
        &[],
        WRONG_WORDS,
        "index-tool: a command is missing (see index-tool --help)\n",
    ),
    (
        &["lst"],
        WRONG_WORDS,
        "index-tool: unrecognized subcommand 'lst', did you mean 'list'?\n",
    ),
    (
        &["help", "lst"],
        WRONG_WORDS,
        "index-tool: unrecognized subcommand 'lst', did you mean 'list'?\n",
    ),
    (
        &["a\nb\u{1b}"],
        WRONG_WORDS,
        "index-tool: unrecognized subcommand 'a\\nb\\u{1b}'\n",
    ),
    (
        &["--hlep"],
        WRONG_WORDS,
        "index-tool: unexpected argument '--hlep' found, did you mean '--help'?\n",
    ),
    (
        &["list"],
        WRONG_WORDS,
        "index-tool: KIND and FILE are missing; with --auto each may be left out, FILE in a work tree\n",
    ),
    (
        &["check", "sha1"],
        WRONG_WORDS,
        "index-tool: FILE is missing behind KIND\n",
    ),
    (
        &["list", "md5"],
        WRONG_WORDS,
        "index-tool: invalid value 'md5' for KIND: it is sha1 or sha256, or left out with --auto\n",
    ),
    (
        &["list", "md5", "x"],
        WRONG_WORDS,
        "invalid value 'md5' for KIND",
    ),
    (
        &["list", "--auto", "md5", "x"],
        WRONG_WORDS,
        "invalid value 'md5' for KIND",
    ),
    (
        &["list", "SHA1", "x"],
        WRONG_WORDS,
        "invalid value 'SHA1' for KIND",
    ),
    (
        &["list", "sha1", "x", "y"],
        WRONG_WORDS,
        "index-tool: unexpected argument 'y' found\n",
    ),
    (
        &["list", "-z", "-z"],
        WRONG_WORDS,
        "index-tool: the argument '-z' cannot be used multiple times\n",
    ),
    (
        &["check", "-z", "x"],
        WRONG_WORDS,
        "index-tool: unexpected argument '-z' found",
    ),
    (
        &["rewrite", "--missing-ok", "sha1", "x", "y"],
        WRONG_WORDS,
        "index-tool: unexpected argument '--missing-ok' found",
    ),
    (
        &["list", "--strict", "sha1", "x"],
        WRONG_WORDS,
        "index-tool: unexpected argument '--strict' found",
    ),
    (
        &["rewrite"],
        WRONG_WORDS,
        "index-tool: KIND, FILE and OUT are missing; with --auto KIND may be left out\n",
    ),
    (
        &["rewrite4", "sha1"],
        WRONG_WORDS,
        "index-tool: FILE and OUT are missing behind KIND\n",
    ),
    (
        &["salvage", "sha1", "x"],
        WRONG_WORDS,
        "index-tool: OUT is missing behind FILE\n",
    ),
    (
        &["rewrite-trees", "-a", "x"],
        WRONG_WORDS,
        "index-tool: OUT is missing behind FILE\n",
    ),
    (
        &["rewrite", "x", "y"],
        WRONG_WORDS,
        "invalid value 'x' for KIND",
    ),
    (
        &["rewrite", "-a", "x", "-"],
        WRONG_WORDS,
        "index-tool: invalid value '-' for OUT: it is the path of a file, as `./-` is\n",
    ),
    (
        &["update", "sha1"],
        WRONG_WORDS,
        "index-tool: FILE is missing behind KIND\n",
    ),
    (
        &["update", "x", "y"],
        WRONG_WORDS,
        "invalid value 'x' for KIND",
    ),
    (
        &["update", "sha1", "-"],
        WRONG_WORDS,
        "index-tool: invalid value '-' for FILE: the standard input has the changes\n",
    ),
    (
        &["rewrite", "sha1", "x", "y", "z"],
        WRONG_WORDS,
        "index-tool: unexpected argument 'z' found\n",
    ),
];

/// Arguments that are a command.
const COMMANDS: [(&[&str], &str); 20] = [
    (
        &["list", "sha1", "x"],
        "Some(Read { what: List(Lines { nul: false, quote: false }), kind: Some(Sha1), input: Some(File(\"x\")) })",
    ),
    (
        &["list", "--auto"],
        "Some(Read { what: List(Lines { nul: false, quote: false }), kind: None, input: None })",
    ),
    (
        &["map", "-a", "x"],
        "Some(Read { what: Map(Lines { nul: false, quote: false }), kind: None, input: Some(File(\"x\")) })",
    ),
    (
        &["show", "-a", "sha256"],
        "Some(Read { what: Show, kind: Some(Sha256), input: None })",
    ),
    (
        &["check", "./sha1", "-a"],
        "Some(Read { what: Check { strict: false }, kind: None, input: Some(File(\"./sha1\")) })",
    ),
    (
        &["check", "--strict", "sha1", "x"],
        "Some(Read { what: Check { strict: true }, kind: Some(Sha1), input: Some(File(\"x\")) })",
    ),
    (
        &["show-json", "--auto", "-"],
        "Some(Read { what: ShowJson, kind: None, input: Some(Stdin) })",
    ),
    (
        &["map-svg", "sha1", "-"],
        "Some(Read { what: MapSvg, kind: Some(Sha1), input: Some(Stdin) })",
    ),
    (
        &["map-svg", "--auto", "sha1", "-"],
        "Some(Read { what: MapSvg, kind: Some(Sha1), input: Some(Stdin) })",
    ),
    (
        &["trees", "-az", "x", "--quote"],
        "Some(Read { what: Trees(Lines { nul: true, quote: true }), kind: None, input: Some(File(\"x\")) })",
    ),
    (
        &["check-trees", "sha1", "--", "-z"],
        "Some(Read { what: CheckTrees { strict: false }, kind: Some(Sha1), input: Some(File(\"-z\")) })",
    ),
    (
        &["check-trees", "-a", "x", "--strict"],
        "Some(Read { what: CheckTrees { strict: true }, kind: None, input: Some(File(\"x\")) })",
    ),
    (
        &["rewrite", "sha1", "x", "y"],
        "Some(Write { what: Rewrite { keep: false }, kind: Some(Sha1), input: File(\"x\"), to: \"y\" })",
    ),
    (
        &["rewrite", "--keep", "sha1", "x", "y"],
        "Some(Write { what: Rewrite { keep: true }, kind: Some(Sha1), input: File(\"x\"), to: \"y\" })",
    ),
    (
        &["rewrite4", "-a", "x", "y"],
        "Some(Write { what: Rewrite4 { keep: false }, kind: None, input: File(\"x\"), to: \"y\" })",
    ),
    (
        &["rewrite4", "sha1", "x", "y", "--keep"],
        "Some(Write { what: Rewrite4 { keep: true }, kind: Some(Sha1), input: File(\"x\"), to: \"y\" })",
    ),
    (
        &["rewrite-trees", "--missing-ok", "sha256", "x", "y"],
        "Some(Write { what: RewriteTrees { missing_ok: true }, kind: Some(Sha256), input: File(\"x\"), to: \"y\" })",
    ),
    (
        &["update", "-z", "sha1", "x"],
        "Some(Write { what: Update { nul: true }, kind: Some(Sha1), input: Changed(\"x\"), to: \"x\" })",
    ),
    (
        &["salvage", "sha256", "-", "y"],
        "Some(Write { what: Salvage { all: false }, kind: Some(Sha256), input: Stdin, to: \"y\" })",
    ),
    (
        &["salvage", "--all", "sha1", "x", "y"],
        "Some(Write { what: Salvage { all: true }, kind: Some(Sha1), input: File(\"x\"), to: \"y\" })",
    ),
];

/// Returns the answer to arguments that are no command: the status, whether it was requested, and the text.
fn said(alloc: Global, words: &[&str]) -> Result<(u8, bool, String), Fail> {
    match parse(alloc, words) {
        Ok(command) => Err(Fail::from(format!(in alloc; "{words:?}: {command:?}")?)),
        Err(answer) => Ok((
            answer.status(),
            answer.is_asked_for(),
            format!(in alloc; "{answer}")?,
        )),
    }
}

#[test]
fn answers(rt: HostRuntime) -> Result<(), Fail> {
    for (words, wanted, text) in ANSWERS {
        let (status, is_asked_for, said) = said(rt.alloc(), words)?;
        println!(rt; "$ index-tool {words:?}\n{said}")?;
        assert!(rt; said.contains(text), "{words:?}: {said}");
        assert_eq!(rt; status, wanted, "{words:?}");
        assert_eq!(rt; is_asked_for, wanted == DONE, "{words:?}");
    }
    Ok(())
}

#[test]
fn commands(rt: HostRuntime) -> Result<(), Fail> {
    for (words, text) in COMMANDS {
        let command = parse(rt.alloc(), words).ok();
        assert_eq!(rt;
            format!(in rt.alloc(); "{command:?}")?.as_str(),
            text,
            "{words:?}"
        );
    }
    Ok(())
}
